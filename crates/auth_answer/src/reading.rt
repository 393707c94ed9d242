// Reading a form as an authorization response.

ghost use Rattle.std.specs.Prelude.{◌≡◌, ◌⊎◌, Ok, Err, IfOk, IfErr, IsErrAnd, OnOk, option_map, option_and_then};
ghost use Rattle.sso_base.specs.Words.{word_of_text};
ghost use Rattle.request_params.specs.Form.{form_pairs};
ghost use Rattle.auth_answer.specs.declared.heard.Heard.{Heard};
ghost use Rattle.auth_answer.specs.declared.no.AnswerNo.{AnswerNo};
ghost use Rattle.oidc_words.specs.Errors.{error_of};
ghost use Rattle.auth_answer.specs.Reading.{answer_read, HasAnswer, RefusesAnswer, IsHeard};
ghost use Rattle.auth_answer.specs.Parts.{heard_of_parts, with_pair, with_pairs};

use crate::heard::Heard;
use crate::no::AnswerNo;
use crate::parts::{PartName, Parts};
use form_urlencoded::parse;
use oidc_words::{AuthError, read_error};
use sso_base::{Text, Word};
use std::alloc::Global;

// Adds one more pair of a form, unless its name occurred before.
fn take(parts: &mut Parts, name: Text, value: Text) -> Result<(), AnswerNo>
    ensures ok { OnOk result (with_pair parts.old (name, value) ≡ Ok parts.new) }
    ensures err { IfErr result (λ e. with_pair parts.old (name, value) ≡ Err e) }
{
    let Some(known) = PartName::read(name.as_str()) else {
        return Ok(());
    };
    if parts.get(known).is_some() {
        return Err(AnswerNo::Twice(name));
    }
    parts.set(known, Some(value));
    Ok(())
}

// Adds the pairs of a form, one after another.
#[tactic(auto, unfolding(request_params::specs::Form::form_pairs))]
fn take_all(alloc: Global, parts: &mut Parts, form: &[u8]) -> Result<(), AnswerNo>
    ensures ok { OnOk result (with_pairs parts.old (form_pairs form.now) ≡ Ok parts.new) }
    ensures err { IfErr result (λ e. (e ≡ AnswerNo.NoMemory) ⊎ (with_pairs parts.old (form_pairs form.now) ≡ Err e)) }
{
    for pair in parse(alloc, form).into_owned() {
        let (name, value) = pair?;
        take(parts, Text::from_string(name), Text::from_string(value))?;
    }
    Ok(())
}

// The word whose text the state is, if there is one.
fn state_of(state: &Option<Text>) -> Option<Word>
    ensures { result ≡ option_and_then word_of_text state.now }
{
    match state {
        Some(state) => Word::read(state.as_str().as_bytes()),
        None => None,
    }
}

// The code of the error, if there is one.
fn error_in(error: &Option<Text>) -> Option<AuthError>
    ensures { result ≡ option_map error_of error.now }
{
    match error {
        Some(error) => Some(read_error(error.as_str())),
        None => None,
    }
}

// The response that the parameters make up.
fn heard_of(parts: Parts) -> Heard
    ensures { result ≡ heard_of_parts parts }
{
    let Parts {
        state,
        error,
        code,
        access,
        id,
    } = parts;
    Heard {
        state: state_of(&state),
        error: error_in(&error),
        code,
        access,
        id,
    }
}

// The response in a form, or the error.
#[tactic(auto, using(crate::proofs::TakenInOrder::taken_ok, crate::proofs::TakenInOrder::taken_err))]
fn read(alloc: Global, form: &[u8]) -> Result<Heard, AnswerNo>
    ensures answers { IfOk result (λ heard. answer_read form.now ≡ Ok heard) }
    ensures refuses { IfErr result (λ e. (e ≡ AnswerNo.NoMemory) ⊎ (answer_read form.now ≡ Err e)) }
{
    let mut parts = Parts::new();
    take_all(alloc, &mut parts, form)?;
    Ok(heard_of(parts))
}

/// Reads an authorization response from a form: the query of the redirect, or the fragment as a page posts it (OpenID Connect
/// Core 1.0, 3.1.2.5 to 3.1.2.7 and 3.2.2.5; OAuth 2.0 Multiple Response Type Encoding Practices, 2.1; the URL Standard, 5.1).
///
/// The parts are the values of `state`, `error`, `code`, `access_token` and `id_token`; pairs with other names are ignored (RFC
/// 6749, 4.1.2). Returns [`AnswerNo::Twice`] with the first repeated name among these, if and only if there is one; there is no
/// other error. An empty value counts as present. An empty `error`, or any other undefined code, is [`AuthError::Other`]. A
/// `state` that is not the text of a word counts as absent, also if it is empty. In names and values, `+` is a space, escapes
/// are decoded, and invalid UTF-8 becomes U+FFFD. So each text is UTF-8.
pub fn read_answer(alloc: Global, form: &[u8]) -> Result<Heard, AnswerNo>
    ensures answers { IfOk result (λ heard. answer_read form.now ≡ Ok heard) }
    ensures answer { IfOk result (λ heard. HasAnswer form.now heard) }
    ensures values { IfOk result (λ heard. IsHeard heard) }
    ensures accepts { (heard : Heard) → HasAnswer form.now heard → IfErr result (λ e. e ≡ AnswerNo.NoMemory) }
    ensures refuses { IfErr result (λ e. (e ≡ AnswerNo.NoMemory) ⊎ (answer_read form.now ≡ Err e)) }
    ensures cause { IfErr result (λ e. (e ≡ AnswerNo.NoMemory) ⊎ RefusesAnswer form.now e) }
    ensures refused { (why : AnswerNo) → RefusesAnswer form.now why → IsErrAnd result (λ e. (e ≡ AnswerNo.NoMemory) ⊎ (e ≡ why)) }
{
    read(alloc, form)
}
