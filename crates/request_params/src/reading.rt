// Reading a form as an authorization request.

ghost use Rattle.std.specs.Prelude.{◌≡◌, ◌⊎◌, Ok, Err, IfOk, IfErr, IsErrAnd, OnOk};
ghost use Rattle.request_params.specs.declared.params.Params.{Params};
ghost use Rattle.request_params.specs.declared.no.AskNo.{AskNo};
ghost use Rattle.request_params.specs.Names.{AreTexts};
ghost use Rattle.request_params.specs.Form.{form_pairs};
ghost use Rattle.request_params.specs.Reading.{request_read, HasRequest, RefusesForm};
ghost use Rattle.request_params.specs.OnePair.{with_pair, with_pairs};

use crate::name::ParamName;
use crate::no::AskNo;
use crate::params::Params;
use form_urlencoded::parse;
use sso_base::Text;
use std::alloc::Global;

// Adds one more pair of a form, unless its name occurred before.
fn take(params: &mut Params, name: Text, value: Text) -> Result<(), AskNo>
    ensures ok { OnOk result (with_pair params.old (name, value) ≡ Ok params.new) }
    ensures err { IfErr result (λ e. with_pair params.old (name, value) ≡ Err e) }
{
    if value.as_str().is_empty() {
        return Ok(());
    }
    let Some(known) = ParamName::read(name.as_str()) else {
        return Ok(());
    };
    if params.get(known).is_some() {
        return Err(AskNo::Twice(name));
    }
    params.set(known, Some(value));
    Ok(())
}

// Adds the pairs of a form, one after another.
#[tactic(auto, unfolding(crate::specs::Form::form_pairs))]
fn take_all(alloc: Global, params: &mut Params, form: &[u8]) -> Result<(), AskNo>
    ensures ok { OnOk result (with_pairs params.old (form_pairs form.now) ≡ Ok params.new) }
    ensures err { IfErr result (λ e. (e ≡ AskNo.NoMemory) ⊎ (with_pairs params.old (form_pairs form.now) ≡ Err e)) }
{
    for pair in parse(alloc, form).into_owned() {
        let (name, value) = pair?;
        take(params, Text::from_string(name), Text::from_string(value))?;
    }
    Ok(())
}

// The parameters of a form, or the error.
#[tactic(auto, using(crate::proofs::InOrder::taken_read))]
fn read(alloc: Global, form: &[u8]) -> Result<Params, AskNo>
    ensures answers { IfOk result (λ params. request_read form.now ≡ Ok params) }
    ensures refuses { IfErr result (λ e. (e ≡ AskNo.NoMemory) ⊎ (request_read form.now ≡ Err e)) }
{
    let mut params = Params::new();
    take_all(alloc, &mut params, form)?;
    Ok(params)
}

/// Reads the parameters of an authorization request from a form, the query or the body of the request (OpenID Connect Core
/// 1.0, 3.1.2.1; RFC 6749, 3.1; the URL Standard, 5.1).
///
/// Pairs with other names and pairs with an empty value are ignored. Returns [`AskNo::Twice`] with the first repeated name, if
/// and only if there is one; there is no other error. In names and values, `+` is a space, escapes are decoded, and invalid
/// UTF-8 becomes U+FFFD. So each parameter is UTF-8.
pub fn read_request(alloc: Global, form: &[u8]) -> Result<Params, AskNo>
    ensures answers { IfOk result (λ params. request_read form.now ≡ Ok params) }
    ensures request { IfOk result (λ params. HasRequest form.now params) }
    ensures texts { IfOk result (λ params. AreTexts params) }
    ensures accepts { (params : Params) → HasRequest form.now params → IfErr result (λ e. e ≡ AskNo.NoMemory) }
    ensures refuses { IfErr result (λ e. (e ≡ AskNo.NoMemory) ⊎ (request_read form.now ≡ Err e)) }
    ensures cause { IfErr result (λ e. (e ≡ AskNo.NoMemory) ⊎ RefusesForm form.now e) }
    ensures refused { (why : AskNo) → RefusesForm form.now why → IsErrAnd result (λ e. (e ≡ AskNo.NoMemory) ⊎ (e ≡ why)) }
{
    read(alloc, form)
}
