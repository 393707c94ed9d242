// Writing the full pages.

ghost use Rattle.std.specs.Prelude.{◌≡◌, ◌++◌, IfOk, OnOk};
ghost use Rattle.sso_base.specs.Words.{word_text};
ghost use Rattle.rp_signout.specs.Pages as spec;

use crate::pages::WORD_FIELD;
use crate::routes::CONFIRM_PATH;
use client_registry::Registry;
use html_pages::Page;
use op_exchange::{AGREE_FIELD, AGREE_VALUE};
use op_response::notice_page;
use sso_base::{Blob, NoMemory, Text, Word};
use std::alloc::Global;

// ---- the question

#[tactic(auto, unfolding(crate::specs::Pages::question_buttons))]
fn push_question_buttons(page: &mut Page) -> Result<(), NoMemory>
    ensures { OnOk result (page.new ≡ page.old ++ spec.question_buttons) }
{
    page.push("<button name=\"")?;
    page.push(AGREE_FIELD)?;
    page.push("\" value=\"")?;
    page.push(AGREE_VALUE)?;
    page.push("\">Sign out</button>\n<button class=\"quiet\" name=\"")?;
    page.push(AGREE_FIELD)?;
    page.push("\" value=\"no\">Stay signed in</button>\n</form>\n")
}

fn push_question(page: &mut Page, prefix: &str, word: &str) -> Result<(), NoMemory>
    ensures { OnOk result (page.new ≡ page.old ++ spec.question_content prefix.now word.now) }
{
    page.push("<p>An application asks to sign you out of this site.</p>\n")?;
    page.push_form(prefix, CONFIRM_PATH)?;
    page.push_hidden(WORD_FIELD, word)?;
    push_question_buttons(page)
}

// The full page of a question with this word, of a site with this title.
pub(crate) fn full_question_page(
    alloc: Global,
    site: &Text,
    prefix: &Text,
    word: &Word,
) -> Result<Blob, NoMemory>
    ensures { IfOk result (λ b. b ≡ spec.full_question_page site.now prefix.now (word_text word.now)) }
{
    let word = word.to_text(alloc)?;
    let mut page = Page::begin(alloc, "Do you want to sign out?", site.as_str())?;
    push_question(&mut page, prefix.as_str(), word.as_str())?;
    page.end()
}

// ---- pages in place of lines, if pages are full

// A page with a heading and an advice, and the line of the plain page, if pages are full.
fn notice(
    alloc: Global,
    registry: &Registry,
    heading: &str,
    advice: &str,
    line: &str,
) -> Result<Option<Blob>, NoMemory>
    ensures { IfOk result (λ o. o ≡ spec.notice registry.now.full_pages registry.now.title heading.now advice.now line.now) }
{
    if registry.full_pages() {
        let site = registry.title();
        Ok(Some(notice_page(alloc, site, heading, advice, line)?))
    } else {
        Ok(None)
    }
}

// The page of a refused request.
pub(crate) fn wrong_page(alloc: Global, registry: &Registry) -> Result<Option<Blob>, NoMemory>
    ensures { IfOk result (λ o. o ≡ spec.wrong_page registry.now.full_pages registry.now.title) }
{
    let advice =
        "The application that sent you here made a request that this site does not accept. Nothing was changed.";
    notice(alloc, registry, "Unclear request", advice, "error end")
}

// The page for a user who did not agree.
pub(crate) fn kept_page(alloc: Global, registry: &Registry) -> Result<Option<Blob>, NoMemory>
    ensures { IfOk result (λ o. o ≡ spec.kept_page registry.now.full_pages registry.now.title) }
{
    let advice = "Nothing was changed. You can close this page.";
    notice(alloc, registry, "You stay signed in", advice, "kept")
}

// The page of an answer to a question that does not wait.
pub(crate) fn stale_page(alloc: Global, registry: &Registry) -> Result<Option<Blob>, NoMemory>
    ensures { IfOk result (λ o. o ≡ spec.stale_page registry.now.full_pages registry.now.title) }
{
    let heading = "Already answered, or too late";
    let advice =
        "This question can be answered once, within some minutes, and in the same browser. To sign out, please begin again.";
    notice(alloc, registry, heading, advice, "error turn")
}
