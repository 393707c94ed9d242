// Replies in HTTP.

ghost use Rattle.std.specs.Prelude.{◌≡◌, codes, IfOk};
ghost use Rattle.sso_base.specs.Words.{word_text};
ghost use Rattle.html_pages.specs.Documents.{shown as shown_in};
ghost use Rattle.rp_signout.specs.Pages as spec;

use crate::full_pages::{full_question_page, kept_page, stale_page, wrong_page};
use crate::pages::question_page;
use client_registry::Registry;
use core_stack::Provides;
use html_pages::shown;
use http_reply::{html, sent_to};
use op_response::{full_shown, signed_out_shown};
use signout_answer::EndReply;
use sso_base::{Blob, HttpReply, NoMemory, Text, Texts, Word};
use std::alloc::Global;

// The page of a question, full or plain.
fn question_body(alloc: Global, registry: &Registry, word: &Word) -> Result<Blob, NoMemory>
    ensures { IfOk result (λ b. b ≡ spec.question_body registry.now.full_pages registry.now.title registry.now.prefix (word_text word.now)) }
{
    if registry.full_pages() {
        full_question_page(alloc, registry.title(), registry.prefix(), word)
    } else {
        question_page(alloc, registry.prefix(), word)
    }
}

// The reply with the page of a question.
fn sure_shown(alloc: Global, registry: &Registry, word: &Word) -> Result<HttpReply, NoMemory>
    ensures { IfOk result (λ h. h ≡ spec.question_shown registry.now word.now) }
{
    let page = question_body(alloc, registry, word)?;
    Ok(html(Texts::new(alloc), page))
}

// The reply after a sign-out.
fn gone_shown(
    alloc: Global,
    registry: &Registry,
    back: &Option<Text>,
) -> Result<HttpReply, NoMemory>
    ensures { IfOk result (λ h. h ≡ spec.gone_shown registry.now back.now) }
{
    match back {
        Some(to) => {
            let to = to.copy(alloc)?;
            Ok(sent_to(alloc, to, Texts::new(alloc)))
        }
        None => signed_out_shown(alloc, registry),
    }
}

fn wrong_shown(alloc: Global, registry: &Registry) -> Result<HttpReply, NoMemory>
    ensures { IfOk result (λ h. h ≡ shown_in 400 (spec.wrong_page registry.now.full_pages registry.now.title) (codes "error end")) }
{
    let page = wrong_page(alloc, registry)?;
    shown(alloc, 400, page, "error end")
}

fn kept_shown(alloc: Global, registry: &Registry) -> Result<HttpReply, NoMemory>
    ensures { IfOk result (λ h. h ≡ shown_in 200 (spec.kept_page registry.now.full_pages registry.now.title) (codes "kept")) }
{
    let page = kept_page(alloc, registry)?;
    shown(alloc, 200, page, "kept")
}

fn stale_shown(alloc: Global, registry: &Registry) -> Result<HttpReply, NoMemory>
    ensures { IfOk result (λ h. h ≡ shown_in 400 (spec.stale_page registry.now.full_pages registry.now.title) (codes "error turn")) }
{
    let page = stale_page(alloc, registry)?;
    shown(alloc, 400, page, "error turn")
}

/// A reply in HTTP:
///
/// | Reply | Status | Body |
/// |---|---|---|
/// | a question | 200 | the page of the question |
/// | a refused request | 400 | `error end` |
/// | a sign-out | 303 to its location, or 200 if there is none | empty, or `signed out` |
/// | the user did not agree | 200 | `kept` |
/// | no such question | 400 | `error turn` |
/// | no room for a question | 503 | `full` |
///
/// If pages are full, the page of the question is full too, and the lines are in full pages. A reply of the inner core is as it is
/// there.
pub(crate) fn end_http<P: Provides>(
    alloc: Global,
    registry: &Registry,
    reply: &EndReply<P::Reply>,
) -> Result<HttpReply, NoMemory>
    ensures { IfOk result (λ h. h ≡ spec.end_http P.http_of registry.now reply.now) }
{
    match reply {
        EndReply::Through(inner) => P::http(alloc, registry, inner),
        EndReply::Sure { word } => sure_shown(alloc, registry, word),
        EndReply::Wrong { .. } => wrong_shown(alloc, registry),
        EndReply::Gone { back, .. } => gone_shown(alloc, registry, back),
        EndReply::Kept => kept_shown(alloc, registry),
        EndReply::Stale => stale_shown(alloc, registry),
        EndReply::Full => full_shown(alloc, registry),
    }
}
