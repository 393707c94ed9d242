// Writing the full pages.

ghost use Rattle.std.specs.Prelude.{◌≡◌, ◌++◌, IfOk, OnOk};
ghost use Rattle.html_pages.specs.Documents.{document};
ghost use Rattle.rp_response.specs.FullPages as spec;
ghost use Rattle.rp_response.specs.Refusals.{refusal_line};

use html_pages::Page;
use oidc_words::{AuthError, BEGIN_PATH, HOME_PATH, LEAVE_PATH};
use rp_exchange::RpNo;
use rp_login::RpTable;
use sso_base::{Blob, NoMemory};
use std::alloc::Global;

#[tactic(auto, unfolding(crate::specs::FullPages::link_to))]
fn push_link(page: &mut Page, path: &str, words: &str) -> Result<(), NoMemory>
    ensures { OnOk result (page.new ≡ page.old ++ spec.link_to path.now words.now) }
{
    page.push("<p><a class=\"go\" href=\"")?;
    page.push(path)?;
    page.push("\">")?;
    page.push(words)?;
    page.push("</a></p>\n")
}

fn push_begin(page: &mut Page, words: &str) -> Result<(), NoMemory>
    ensures { OnOk result (page.new ≡ page.old ++ spec.begin_link words.now) }
{
    push_link(page, BEGIN_PATH, words)
}

// A page with a heading and a link that begins a login.
fn begin_page(alloc: Global, heading: &str, title: &str, words: &str) -> Result<Blob, NoMemory>
    ensures { IfOk result (λ b. b ≡ document heading.now title.now (spec.begin_link words.now)) }
{
    let mut page = Page::begin(alloc, heading, title)?;
    push_begin(&mut page, words)?;
    page.end()
}

// ---- the front page

#[tactic(auto, unfolding(crate::specs::FullPages::leave_button))]
fn push_user(page: &mut Page, sub: &str) -> Result<(), NoMemory>
    ensures { OnOk result (page.new ≡ page.old ++ spec.user_content sub.now) }
{
    page.push("<p>You are signed in as <b>")?;
    page.push_text(sub)?;
    page.push("</b>.</p>\n")?;
    page.push_form("", LEAVE_PATH)?;
    page.push("<button>Sign out</button>\n</form>\n")
}

fn full_user_page(alloc: Global, title: &str, sub: &str) -> Result<Blob, NoMemory>
    ensures { IfOk result (λ b. b ≡ spec.full_user_page title.now sub.now) }
{
    let mut page = Page::begin(alloc, "Welcome", title)?;
    push_user(&mut page, sub)?;
    page.end()
}

// The front page for a user with this subject, if pages are full.
pub(crate) fn user_page(
    alloc: Global,
    is_full: bool,
    title: &str,
    sub: &str,
) -> Result<Option<Blob>, NoMemory>
    ensures { IfOk result (λ o. o ≡ spec.user_page is_full title.now sub.now) }
{
    if is_full {
        Ok(Some(full_user_page(alloc, title, sub)?))
    } else {
        Ok(None)
    }
}

// The front page for nobody, if pages are full.
pub(crate) fn nobody_page(
    alloc: Global,
    is_full: bool,
    title: &str,
) -> Result<Option<Blob>, NoMemory>
    ensures { IfOk result (λ o. o ≡ spec.nobody_page is_full title.now) }
{
    if is_full {
        Ok(Some(begin_page(alloc, "You are not signed in", title, "Sign in")?))
    } else {
        Ok(None)
    }
}

// ---- after it was left

// The page after a party was left, if pages are full.
pub(crate) fn left_page(alloc: Global, is_full: bool, title: &str) -> Result<Option<Blob>, NoMemory>
    ensures { IfOk result (λ o. o ≡ spec.left_page is_full title.now) }
{
    if is_full {
        Ok(Some(begin_page(alloc, "You are signed out", title, "Sign in again")?))
    } else {
        Ok(None)
    }
}

// ---- a login that failed

fn denied_advice(code: AuthError) -> &'static str
    ensures { result.now ≡ spec.denied_advice code }
{
    match code {
        AuthError::AccessDenied => "You did not agree, or you may not use this application.",
        _ => "You could not be signed in. Please begin again.",
    }
}

fn refusal_advice(why: &RpNo) -> &'static str
    ensures { result.now ≡ spec.refusal_advice why.now }
{
    match why {
        RpNo::Provider(code) => denied_advice(*code),
        RpNo::Full(_) => "Too many people are signing in. Please wait for some minutes.",
        RpNo::Tokens(_) | RpNo::Id(_) | RpNo::Info(_) =>
            "This site could not finish the sign-in. Its operator can see why from the line below.",
        _ => "It took too long, was done already, or began in another browser.",
    }
}

fn push_onward(page: &mut Page, why: &RpNo) -> Result<(), NoMemory>
    ensures { OnOk result (page.new ≡ page.old ++ spec.onward_link why.now) }
{
    match why {
        RpNo::StaleLogin => push_link(page, HOME_PATH, "Go on, if you are signed in"),
        _ => Ok(()),
    }
}

#[tactic(auto, unfolding(crate::specs::FullPages::refused_content))]
fn push_refused(page: &mut Page, why: &RpNo, line: &str) -> Result<(), NoMemory>
    requires { line.now ≡ refusal_line why.now }
    ensures { OnOk result (page.new ≡ page.old ++ spec.refused_content why.now) }
{
    page.push_alert(refusal_advice(why))?;
    push_onward(page, why)?;
    push_begin(page, "Begin again")?;
    page.push_line(line)
}

fn full_refused_page(alloc: Global, title: &str, why: &RpNo, line: &str) -> Result<Blob, NoMemory>
    requires { line.now ≡ refusal_line why.now }
    ensures { IfOk result (λ b. b ≡ spec.full_refused_page title.now why.now) }
{
    let mut page = Page::begin(alloc, "Signing in failed", title)?;
    push_refused(&mut page, why, line)?;
    page.end()
}

fn is_seen(table: RpTable) -> bool
    ensures { result ≡ spec.is_seen table }
{
    matches!(table, RpTable::Seen)
}

// Whether a logout token is refused, which no user sees.
fn is_of_logout(why: &RpNo) -> bool
    ensures { result ≡ spec.is_of_logout why.now }
{
    match why {
        RpNo::Logout(_) | RpNo::Seen(_) => true,
        RpNo::Full(table) => is_seen(*table),
        _ => false,
    }
}

// The page of a login that failed for this reason, given the reason's line, if pages are full.
pub(crate) fn refused_page(
    alloc: Global,
    is_full: bool,
    title: &str,
    why: &RpNo,
    line: &str,
) -> Result<Option<Blob>, NoMemory>
    requires { line.now ≡ refusal_line why.now }
    ensures { IfOk result (λ o. o ≡ spec.refused_page is_full title.now why.now) }
{
    if is_full && !is_of_logout(why) {
        Ok(Some(full_refused_page(alloc, title, why, line)?))
    } else {
        Ok(None)
    }
}
