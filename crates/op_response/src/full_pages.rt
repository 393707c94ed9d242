// Writing the full pages.

ghost use Rattle.std.specs.Prelude.{◌≡◌, ◌++◌, IfOk, OnOk};
ghost use Rattle.sso_base.specs.Words.{word_text};
ghost use Rattle.auth_request.specs.declared.wish.PageNo.TheVariants as page_no;
ghost use Rattle.html_pages.specs.Forms.{alert, small_line};
ghost use Rattle.op_response.specs.FullPages as spec;

use crate::lines::page_word;
use auth_request::PageNo;
use client_registry::Registry;
use html_pages::Page;
use http_reply::{concatenated, joined};
use oidc_words::{CONSENT_PATH, LOGIN_PATH, SIGNOUT_PATH, Scopes, TURN_LIFE};
use op_exchange::{AGREE_FIELD, AGREE_VALUE, PASSWORD_FIELD, TURN_FIELD, USER_FIELD};
use sso_base::{Blob, NoMemory, Text, Word};
use std::alloc::Global;

// ---- the login page

fn push_again(page: &mut Page, again: bool) -> Result<(), NoMemory>
    ensures { OnOk result (page.new ≡ page.old ++ spec.again_alert again) }
{
    if again {
        page.push_alert("The user name or the password is wrong.")
    } else {
        Ok(())
    }
}

#[tactic(auto, unfolding(crate::specs::FullPages::login_fields))]
fn push_login_fields(page: &mut Page) -> Result<(), NoMemory>
    ensures { OnOk result (page.new ≡ page.old ++ spec.login_fields) }
{
    page.push("<label for=\"user\">User name</label>\n<input id=\"user\" name=\"")?;
    page.push(USER_FIELD)?;
    page.push(
        "\" autocomplete=\"username\" autocapitalize=\"none\" spellcheck=\"false\" required autofocus>\n\
         <label for=\"password\">Password</label>\n<input id=\"password\" type=\"password\" name=\"",
    )?;
    page.push(PASSWORD_FIELD)?;
    page.push("\" autocomplete=\"current-password\" required>\n<button>Sign in</button>\n</form>\n")
}

fn push_login(page: &mut Page, prefix: &str, turn: &str, again: bool) -> Result<(), NoMemory>
    ensures { OnOk result (page.new ≡ page.old ++ spec.login_content prefix.now turn.now again) }
{
    push_again(page, again)?;
    page.push_form(prefix, LOGIN_PATH)?;
    page.push_hidden(TURN_FIELD, turn)?;
    push_login_fields(page)
}

// The login page of a site with this title, with an alert after a wrong password. When its turn is over, a user agent leaves it.
pub(crate) fn full_login_page(
    alloc: Global,
    site: &Text,
    prefix: &Text,
    turn: &Word,
    again: bool,
) -> Result<Blob, NoMemory>
    ensures { IfOk result (λ b. b ≡ spec.full_login_page site.now prefix.now (word_text turn.now) again) }
{
    let turn = turn.to_text(alloc)?;
    let prefix = prefix.as_str();
    let site = site.as_str();
    let mut page = Page::begin_until(alloc, "Sign in", site, TURN_LIFE, prefix, LOGIN_PATH)?;
    push_login(&mut page, prefix, turn.as_str(), again)?;
    page.end()
}

// ---- the consent page

fn item(requested: bool, words: &'static str) -> &'static str
    ensures { result.now ≡ spec.item requested words.now }
{
    if requested { words } else { "" }
}

#[tactic(auto, unfolding(crate::specs::FullPages::scope_items))]
fn push_scopes(page: &mut Page, scopes: &Scopes) -> Result<(), NoMemory>
    ensures { OnOk result (page.new ≡ page.old ++ spec.scope_items scopes.now) }
{
    page.push(item(
        scopes.openid,
        "<li>who you are: the identifier of your account</li>\n",
    ))?;
    page.push(item(
        scopes.profile,
        "<li>your profile, such as your name and picture</li>\n",
    ))?;
    page.push(item(scopes.email, "<li>your email address</li>\n"))?;
    page.push(item(scopes.address, "<li>your postal address</li>\n"))?;
    page.push(item(scopes.phone, "<li>your phone number</li>\n"))
}

fn push_asked(page: &mut Page, application: &str, scopes: &Scopes) -> Result<(), NoMemory>
    ensures { OnOk result (page.new ≡ page.old ++ spec.asked_for application.now scopes.now) }
{
    page.push("<p><b>")?;
    page.push_text(application)?;
    page.push("</b> asks for:</p>\n<ul>\n")?;
    push_scopes(page, scopes)?;
    page.push("</ul>\n")
}

#[tactic(auto, unfolding(crate::specs::FullPages::agree_buttons))]
fn push_agree_buttons(page: &mut Page) -> Result<(), NoMemory>
    ensures { OnOk result (page.new ≡ page.old ++ spec.agree_buttons) }
{
    page.push("<button name=\"")?;
    page.push(AGREE_FIELD)?;
    page.push("\" value=\"")?;
    page.push(AGREE_VALUE)?;
    page.push("\">Agree</button>\n<button class=\"quiet\" name=\"")?;
    page.push(AGREE_FIELD)?;
    page.push("\" value=\"no\">Refuse</button>\n</form>\n")
}

fn push_agree(page: &mut Page, prefix: &str, turn: &str) -> Result<(), NoMemory>
    ensures { OnOk result (page.new ≡ page.old ++ spec.agree_form prefix.now turn.now) }
{
    page.push_form(prefix, CONSENT_PATH)?;
    page.push_hidden(TURN_FIELD, turn)?;
    push_agree_buttons(page)
}

#[tactic(auto, unfolding(crate::specs::FullPages::other_button))]
fn push_other(page: &mut Page, prefix: &str) -> Result<(), NoMemory>
    ensures { OnOk result (page.new ≡ page.old ++ spec.other_form prefix.now) }
{
    page.push_form(prefix, SIGNOUT_PATH)?;
    page.push("<p>Not you? <button class=\"quiet link\">Sign out</button></p>\n</form>\n")
}

#[tactic(auto, unfolding(crate::specs::FullPages::consent_content))]
fn push_consent(
    page: &mut Page,
    prefix: &str,
    turn: &str,
    application: &str,
    scopes: &Scopes,
) -> Result<(), NoMemory>
    ensures { OnOk result (page.new ≡ page.old ++ spec.consent_content prefix.now turn.now application.now scopes.now) }
{
    push_asked(page, application, scopes)?;
    push_agree(page, prefix, turn)?;
    push_other(page, prefix)
}

// The consent page of a site with this title, for an application with this title.
pub(crate) fn full_consent_page(
    alloc: Global,
    registry: &Registry,
    turn: &Word,
    application: &str,
    scopes: &Scopes,
) -> Result<Blob, NoMemory>
    ensures { IfOk result (λ b. b ≡ spec.full_consent_page registry.now.title registry.now.prefix (word_text turn.now) application.now scopes.now) }
{
    let prefix = registry.prefix().as_str();
    let turn = turn.to_text(alloc)?;
    let mut page = Page::begin(alloc, "Do you agree?", registry.title().as_str())?;
    push_consent(&mut page, prefix, turn.as_str(), application, scopes)?;
    page.end()
}

// ---- after a sign-out

#[tactic(auto, unfolding(crate::specs::FullPages::signed_out_content))]
fn push_signed_out(page: &mut Page) -> Result<(), NoMemory>
    ensures { OnOk result (page.new ≡ page.old ++ spec.signed_out_content) }
{
    page.push(
        "<p>Applications that sign out together with this site are notified. You can close this page.</p>\n",
    )
}

fn full_signed_out_page(alloc: Global, site: &Text) -> Result<Blob, NoMemory>
    ensures { IfOk result (λ b. b ≡ spec.full_signed_out_page site.now) }
{
    let mut page = Page::begin(alloc, "You are signed out", site.as_str())?;
    push_signed_out(&mut page)?;
    page.end()
}

// The page after a sign-out, if pages are full.
pub(crate) fn signed_out_page(alloc: Global, registry: &Registry) -> Result<Option<Blob>, NoMemory>
    ensures { IfOk result (λ o. o ≡ spec.signed_out_page registry.now.full_pages registry.now.title) }
{
    if registry.full_pages() {
        Ok(Some(full_signed_out_page(alloc, registry.title())?))
    } else {
        Ok(None)
    }
}

// ---- errors

fn error_heading(why: PageNo) -> &'static str
    ensures { result.now ≡ spec.error_heading why }
{
    match why {
        PageNo::Client => "Unknown application",
        PageNo::Redirect => "Unknown address",
        PageNo::Twice => "Unclear request",
        PageNo::Turn => "Already used, or too late",
        PageNo::Browser => "Another browser's page",
    }
}

// How many minutes a page to sign in works.
fn turn_minutes(alloc: Global) -> Result<Text, NoMemory>
    ensures { IfOk result (λ t. t ≡ spec.turn_minutes) }
{
    let minutes = (TURN_LIFE / 60).to_string(alloc)?;
    Ok(Text::from_string(minutes))
}

fn turn_advice(alloc: Global) -> Result<Text, NoMemory>
    ensures { IfOk result (λ t. t ≡ spec.error_advice page_no.Turn) }
{
    let minutes = turn_minutes(alloc)?;
    let pieces = [
        "A page to sign in works once, and for ",
        minutes.as_str(),
        " minutes. Please go back to the application and begin again.",
    ];
    Ok(Text::from_string(joined(alloc, &pieces)?))
}

fn error_advice(alloc: Global, why: PageNo) -> Result<Text, NoMemory>
    ensures { IfOk result (λ t. t ≡ spec.error_advice why) }
{
    match why {
        PageNo::Client => Text::new(
            alloc,
            "The application that sent you here is not registered with this site. Please tell those who run it.",
        ),
        PageNo::Redirect => Text::new(
            alloc,
            "The application asks for an answer at an address that is not registered for it. Please tell those who run it.",
        ),
        PageNo::Twice => Text::new(
            alloc,
            "The application sent something twice that may come once. Please go back to it and begin again.",
        ),
        PageNo::Turn => turn_advice(alloc),
        PageNo::Browser => Text::new(
            alloc,
            "This sign-in began in another browser, or this one keeps no cookies. Please go back to the application and begin again.",
        ),
    }
}

// The line of a plain page.
pub(crate) fn error_line(alloc: Global, why: PageNo) -> Result<Text, NoMemory>
    ensures { IfOk result (λ t. t ≡ spec.error_line why) }
{
    concatenated(alloc, "error ", page_word(why))
}

#[tactic(auto, unfolding(crate::specs::FullPages::error_content))]
fn push_error(page: &mut Page, why: PageNo, advice: &str, line: &str) -> Result<(), NoMemory>
    requires advice { advice.now ≡ spec.error_advice why }
    requires line { line.now ≡ spec.error_line why }
    ensures { OnOk result (page.new ≡ page.old ++ spec.error_content why) }
{
    page.push_alert(advice)?;
    page.push_line(line)
}

fn full_error_page(alloc: Global, site: &Text, why: PageNo) -> Result<Blob, NoMemory>
    ensures { IfOk result (λ b. b ≡ spec.full_error_page site.now why) }
{
    let advice = error_advice(alloc, why)?;
    let line = error_line(alloc, why)?;
    let mut page = Page::begin(alloc, error_heading(why), site.as_str())?;
    push_error(&mut page, why, advice.as_str(), line.as_str())?;
    page.end()
}

// The page of an error, if pages are full.
pub(crate) fn error_page(
    alloc: Global,
    registry: &Registry,
    why: PageNo,
) -> Result<Option<Blob>, NoMemory>
    ensures { IfOk result (λ o. o ≡ spec.error_page registry.now.full_pages registry.now.title why) }
{
    if registry.full_pages() {
        Ok(Some(full_error_page(alloc, registry.title(), why)?))
    } else {
        Ok(None)
    }
}

// ---- other pages that say what a user can do

fn push_notice(page: &mut Page, advice: &str, line: &str) -> Result<(), NoMemory>
    ensures { OnOk result (page.new ≡ page.old ++ (alert advice.now ++ small_line line.now)) }
{
    page.push_alert(advice)?;
    page.push_line(line)
}

/// A page with a heading and an advice, of the site with this title, and the line of the plain page. All are texts, and are
/// escaped.
pub fn notice_page(
    alloc: Global,
    site: &Text,
    heading: &str,
    advice: &str,
    line: &str,
) -> Result<Blob, NoMemory>
    ensures { IfOk result (λ b. b ≡ spec.notice_page site.now heading.now advice.now line.now) }
{
    let mut page = Page::begin(alloc, heading, site.as_str())?;
    push_notice(&mut page, advice, line)?;
    page.end()
}

// The page of a full table, if pages are full.
pub(crate) fn table_page(alloc: Global, registry: &Registry) -> Result<Option<Blob>, NoMemory>
    ensures { IfOk result (λ o. o ≡ spec.table_page registry.now.full_pages registry.now.title) }
{
    if !registry.full_pages() {
        return Ok(None);
    }
    let heading = "Please come back later";
    let advice = "Too many people are signing in. Please wait for some minutes and begin again.";
    Ok(Some(notice_page(alloc, registry.title(), heading, advice, "full")?))
}

#[tactic(auto, unfolding(crate::specs::FullPages::missing_advice))]
fn missing_advice(alloc: Global) -> Result<Text, NoMemory>
    ensures { IfOk result (λ t. t ≡ spec.missing_advice) }
{
    let minutes = turn_minutes(alloc)?;
    let pieces = [
        "If you were signing in, that took too long: a page to sign in works for ",
        minutes.as_str(),
        " minutes. Please go back to the application and begin again.",
    ];
    Ok(Text::from_string(joined(alloc, &pieces)?))
}

fn full_missing_page(alloc: Global, site: &Text) -> Result<Blob, NoMemory>
    ensures { IfOk result (λ b. b ≡ spec.full_missing_page site.now) }
{
    let advice = missing_advice(alloc)?;
    notice_page(alloc, site, "Page not found", advice.as_str(), "not here")
}

// The page of an unknown path, if pages are full. A login page that is too old leads there.
pub(crate) fn missing_page(alloc: Global, registry: &Registry) -> Result<Option<Blob>, NoMemory>
    ensures { IfOk result (λ o. o ≡ spec.missing_page registry.now.full_pages registry.now.title) }
{
    if registry.full_pages() {
        Ok(Some(full_missing_page(alloc, registry.title())?))
    } else {
        Ok(None)
    }
}
