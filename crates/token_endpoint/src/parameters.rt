// The parameters of a request's body: the pairs of a form (RFC 6749, 4.1.3; the URL Standard, 5.1).

ghost use Rattle.std.specs.Prelude.{◌≡◌, IfOk, option_map};
ghost use Rattle.request_params.specs.Reading.{first_repeated as first_repeated_of};

use request_params::Pair;
use sso_base::{NoMemory, Text};
use std::alloc::Global;
use std::collections::BTreeSet;

/// The first name that occurs again. A set has the names so far, so the time for a body of many names does not grow with the
/// square of their number.
pub(crate) fn first_repeated(alloc: Global, parameters: &[Pair]) -> Result<Option<&Text>, NoMemory>
    ensures { IfOk result (λ o. option_map (λ t. t.now) o ≡ first_repeated_of parameters.now) }
{
    let mut names = BTreeSet::new(alloc);
    for parameter in parameters {
        if !names.insert(parameter.0.as_str())? {
            return Ok(Some(&parameter.0));
        }
    }
    Ok(None)
}
