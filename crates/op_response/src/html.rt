// Writing the plain login page and the plain consent page.

ghost use Rattle.std.specs.Prelude.{◌≡◌, IfOk};
ghost use Rattle.sso_base.specs.Words.{word_text};
ghost use Rattle.op_response.specs.Pages as spec;

use http_reply::joined;
use oidc_words::{CONSENT_PATH, LOGIN_PATH, Scopes};
use op_exchange::{AGREE_FIELD, AGREE_VALUE, PASSWORD_FIELD, TURN_FIELD, USER_FIELD};
use sso_base::{Blob, NoMemory, Text, Word};
use std::alloc::Global;

fn again_note(again: bool) -> &'static str
    ensures { result.now ≡ spec.again_note again }
{
    if again {
        "<p>Wrong user or password.</p>"
    } else {
        ""
    }
}

// The login page of a turn, given the turn's text, with an action below the path of the issuer.
#[tactic(auto, unfolding(crate::specs::Pages::login_text))]
fn login_text(alloc: Global, prefix: &str, turn: &str, note: &str) -> Result<Blob, NoMemory>
    ensures { IfOk result (λ b. b ≡ spec.login_text prefix.now turn.now note.now) }
{
    let pieces = [
        "<!doctype html><title>Login</title><form method=\"post\" action=\"",
        prefix,
        LOGIN_PATH,
        "\"><input type=\"hidden\" name=\"",
        TURN_FIELD,
        "\" value=\"",
        turn,
        "\"><input name=\"",
        USER_FIELD,
        "\"><input type=\"password\" name=\"",
        PASSWORD_FIELD,
        "\"><button>Login</button></form>",
        note,
    ];
    Ok(Blob::from_vec(joined(alloc, &pieces)?.into_bytes()))
}

// The login page, with a note after a wrong password.
pub(crate) fn login_page(
    alloc: Global,
    prefix: &Text,
    turn: &Word,
    again: bool,
) -> Result<Blob, NoMemory>
    ensures { IfOk result (λ b. b ≡ spec.login_page prefix.now (word_text turn.now) again) }
{
    let turn = turn.to_text(alloc)?;
    login_text(alloc, prefix.as_str(), turn.as_str(), again_note(again))
}

// The consent page of a turn, given the turn's text, with an action below the path of the issuer: a client and scope values.
#[tactic(auto, unfolding(crate::specs::Pages::consent_text))]
fn consent_text(
    alloc: Global,
    prefix: &str,
    turn: &str,
    client: &str,
    scopes: &str,
) -> Result<Blob, NoMemory>
    ensures { IfOk result (λ b. b ≡ spec.consent_text prefix.now turn.now client.now scopes.now) }
{
    let pieces = [
        "<!doctype html><title>Consent</title><p>",
        client,
        ": ",
        scopes,
        "</p><form method=\"post\" action=\"",
        prefix,
        CONSENT_PATH,
        "\"><input type=\"hidden\" name=\"",
        TURN_FIELD,
        "\" value=\"",
        turn,
        "\"><button name=\"",
        AGREE_FIELD,
        "\" value=\"",
        AGREE_VALUE,
        "\">Yes</button><button name=\"",
        AGREE_FIELD,
        "\" value=\"no\">No</button></form>",
    ];
    Ok(Blob::from_vec(joined(alloc, &pieces)?.into_bytes()))
}

// The consent page, for a client given by its id.
pub(crate) fn consent_page(
    alloc: Global,
    prefix: &Text,
    turn: &Word,
    client: &Text,
    scopes: &Scopes,
) -> Result<Blob, NoMemory>
    ensures { IfOk result (λ b. b ≡ spec.consent_page prefix.now (word_text turn.now) client.now scopes.now) }
{
    let turn = turn.to_text(alloc)?;
    let scopes = scopes.to_text(alloc)?;
    consent_text(
        alloc,
        prefix.as_str(),
        turn.as_str(),
        client.as_str(),
        scopes.as_str(),
    )
}
