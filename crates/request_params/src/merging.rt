// Merging the parameters of a request object with those outside it.

ghost use Rattle.std.specs.Prelude.{◌≡◌, ◌⊎◌, true, Ok, Err, IfOk, IfErr, IsErrAnd, OnOk};
ghost use Rattle.std.specs.Option.{option_or};
ghost use Rattle.sso_base.specs.Refusals.{first_refusal};
ghost use Rattle.request_params.specs.Names.{param_of};
ghost use Rattle.request_params.specs.AllNames.{with_all};
ghost use Rattle.oidc_words.specs.Scopes.{openid_word};
ghost use Rattle.request_params.specs.Merging.{states_word, differ, merge_refusals, merged, request_merged, IsMerged, RefusesMerge};
ghost use Rattle.request_params.specs.declared.params.Params.{Params};
ghost use Rattle.request_params.specs.declared.no.AskNo.{AskNo};

use crate::name::{ALL_NAMES, ParamName};
use crate::no::AskNo;
use crate::params::Params;
use oidc_words::{OPENID, has_word};
use sso_base::{NoMemory, Text, copied_text};
use std::alloc::Global;

// Whether there is a scope that has the word `openid`.
fn is_openid(scope: &Option<Text>) -> bool
    ensures { result ≡ states_word openid_word scope.now }
{
    match scope {
        Some(scope) => has_word(scope.as_str(), OPENID),
        None => false,
    }
}

// Whether a parameter is absent outside the request object, or differs in it.
fn is_another(outer: &Option<Text>, inner: &Option<Text>) -> bool
    ensures { result ≡ differ outer.now inner.now }
{
    match (outer, inner) {
        (None, _) => true,
        (Some(_), None) => false,
        (Some(outer), Some(inner)) => !outer.equals(inner.as_str()),
    }
}

// The error of the first condition that is true.
fn refused(alloc: Global, outer: &Params, inner: &Params) -> Result<(), AskNo>
    ensures ok { OnOk result (first_refusal (merge_refusals outer.now inner.now) ≡ Ok tt) }
    ensures err { IfErr result (λ e. (e ≡ AskNo.NoMemory) ⊎ (first_refusal (merge_refusals outer.now inner.now) ≡ Err e)) }
{
    if is_another(&outer.client_id, &inner.client_id) {
        let name = ParamName::ClientId.as_str();
        return Err(AskNo::Differs(Text::new(alloc, name)?));
    }
    if is_another(&outer.response_type, &inner.response_type) {
        let name = ParamName::ResponseType.as_str();
        return Err(AskNo::Differs(Text::new(alloc, name)?));
    }
    if !is_openid(&outer.scope) {
        return Err(AskNo::OuterScope);
    }
    Ok(())
}

// The inner parameter if it is present, otherwise the outer one.
fn first_there(
    alloc: Global,
    inner: &Option<Text>,
    outer: &Option<Text>,
) -> Result<Option<Text>, NoMemory>
    ensures { IfOk result (λ o. o ≡ option_or inner.now outer.now) }
{
    match inner {
        Some(text) => Ok(Some(text.copy(alloc)?)),
        None => copied_text(alloc, outer),
    }
}

// Sets the parameters of these names.
fn set_all(
    alloc: Global,
    names: &[ParamName],
    params: &mut Params,
    outer: &Params,
    inner: &Params,
) -> Result<(), NoMemory>
    ensures { OnOk result (params.new ≡ with_all (λ name. option_or (param_of name inner.now) (param_of name outer.now)) names.now params.old) }
{
    for name in names {
        let value = first_there(alloc, inner.get(*name), outer.get(*name))?;
        params.set(*name, value);
    }
    Ok(())
}

// Each parameter of the request object, and the others from outside it.
fn put_over(alloc: Global, outer: &Params, inner: &Params) -> Result<Params, NoMemory>
    ensures { IfOk result (λ params. params ≡ merged outer.now inner.now) }
{
    let mut params = Params::new();
    set_all(alloc, &ALL_NAMES, &mut params, outer, inner)?;
    Ok(params)
}

// The whole request, or the error.
#[tactic(auto, unfolding(crate::specs::Merging::request_merged))]
fn whole(alloc: Global, outer: &Params, inner: &Params) -> Result<Params, AskNo>
    ensures answers { IfOk result (λ params. request_merged outer.now inner.now ≡ Ok params) }
    ensures refuses { IfErr result (λ e. (e ≡ AskNo.NoMemory) ⊎ (request_merged outer.now inner.now ≡ Err e)) }
{
    refused(alloc, outer, inner)?;
    Ok(put_over(alloc, outer, inner)?)
}

/// Merges the parameters of a request object, `inner`, with those outside it, `outer` (OpenID Connect Core 1.0, 6.1).
///
/// Each parameter is that of `inner` if it is present there, even if it is empty, otherwise that of `outer`. Returns
/// [`AskNo::Differs`] if and only if `client_id`, or then `response_type`, is absent in `outer` or has different values in
/// both. Returns [`AskNo::OuterScope`] if and only if neither is the case, and the `scope` of `outer` is absent or does not
/// have the word `openid`. Words are separated by single spaces.
pub fn merge(alloc: Global, outer: &Params, inner: &Params) -> Result<Params, AskNo>
    ensures answers { IfOk result (λ params. request_merged outer.now inner.now ≡ Ok params) }
    ensures merged { IfOk result (λ params. IsMerged outer.now inner.now params) }
    ensures accepts { (params : Params) → IsMerged outer.now inner.now params → IfErr result (λ e. e ≡ AskNo.NoMemory) }
    ensures refuses { IfErr result (λ e. (e ≡ AskNo.NoMemory) ⊎ (request_merged outer.now inner.now ≡ Err e)) }
    ensures cause { IfErr result (λ e. (e ≡ AskNo.NoMemory) ⊎ RefusesMerge outer.now inner.now e) }
    ensures refused { (why : AskNo) → RefusesMerge outer.now inner.now why → IsErrAnd result (λ e. (e ≡ AskNo.NoMemory) ⊎ (e ≡ why)) }
{
    whole(alloc, outer, inner)
}
