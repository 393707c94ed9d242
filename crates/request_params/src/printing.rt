// Writing the location of an authorization request.

ghost use Rattle.std.specs.Prelude.{◌≡◌, ◌++◌, map, IfOk};
ghost use Rattle.form_urlencoded.specs.Form.{pair_text};
ghost use Rattle.request_params.specs.Printing.{pairs_named, request_location};

use crate::location::with_query;
use crate::name::ParamName;
use crate::params::Params;
use sso_base::{NoMemory, Text};
use std::alloc::Global;

// The parameters that are written, in order.
const PRINTED_NAMES: [ParamName; 9] = [
    ParamName::ResponseType,
    ParamName::ClientId,
    ParamName::RedirectUri,
    ParamName::Scope,
    ParamName::State,
    ParamName::Nonce,
    ParamName::Prompt,
    ParamName::MaxAge,
    ParamName::Request,
];

// The parameters of these names that are present, as pairs.
fn pairs<'a>(
    alloc: Global,
    names: &[ParamName],
    params: &'a Params,
) -> Result<Vec<(&'a str, &'a str)>, NoMemory>
    ensures { IfOk result (λ v. map pair_text v.items ≡ pairs_named params.now names.now) }
{
    let mut pairs = Vec::new(alloc);
    for name in names {
        if let Some(value) = params.get(*name) {
            pairs.push((name.as_str(), value.as_str()))?;
        }
    }
    Ok(pairs)
}

/// The location to which a user agent is sent with an authorization request (OpenID Connect Core 1.0, 3.1.2.1; RFC 6749,
/// 4.1.1): the endpoint with the parameters in its query. It writes those that are present of `response_type`, `client_id`,
/// `redirect_uri`, `scope`, `state`, `nonce`, `prompt`, `max_age` and `request`, in this order. `response_mode`, `claims`,
/// `request_uri` and `registration` are not written.
#[tactic(auto, unfolding(crate::specs::Printing::request_location))]
pub fn print_request(alloc: Global, endpoint: &Text, params: &Params) -> Result<Text, NoMemory>
    ensures { IfOk result (λ t. t ≡ request_location endpoint.now params.now) }
{
    let pairs = pairs(alloc, &PRINTED_NAMES, params)?;
    with_query(alloc, endpoint, &pairs)
}
