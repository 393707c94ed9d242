// The fields of the forms that the provider's own pages post (the URL Standard, 5.1).

ghost use Rattle.std.specs.Prelude.{◌≡◌, IfOk};
ghost use Rattle.op_request.specs.PostedForms as spec;

use op_exchange::{AGREE_FIELD, PASSWORD_FIELD, TURN_FIELD, USER_FIELD};
use request_params::{Pair, posted, read_pairs, value_of};
use sso_base::{Blob, NoMemory};
use std::alloc::Global;

// The fields of the form that was posted.
pub(crate) fn posted_fields(alloc: Global, body: &Option<Blob>) -> Result<Vec<Pair>, NoMemory>
    ensures { IfOk result (λ v. v.items ≡ spec.fields_of body.now) }
{
    read_pairs(alloc, posted(body))
}

// How many fields have the name.
fn count(fields: &[Pair], name: &str) -> usize
    ensures { result ≡ spec.count name.now fields.now }
{
    let mut count = 0;
    for field in fields {
        if field.0.as_str() == name {
            count += 1;
        }
    }
    count
}

// Whether the name occurs more than once.
fn stands_twice(fields: &[Pair], name: &str) -> bool
    ensures { result ≡ spec.stands_twice name.now fields.now }
{
    count(fields, name) > 1
}

// Whether a name of the login form occurs twice.
pub(crate) fn repeats_in_login(fields: &[Pair]) -> bool
    ensures { result ≡ spec.repeats_one spec.login_names fields.now }
{
    stands_twice(fields, TURN_FIELD)
        || stands_twice(fields, USER_FIELD)
        || stands_twice(fields, PASSWORD_FIELD)
}

// Whether a name of the consent form occurs twice.
pub(crate) fn repeats_in_consent(fields: &[Pair]) -> bool
    ensures { result ≡ spec.repeats_one spec.consent_names fields.now }
{
    stands_twice(fields, TURN_FIELD) || stands_twice(fields, AGREE_FIELD)
}

// The value of the field with this name; empty if it is absent.
pub(crate) fn field<'a>(fields: &'a [Pair], name: &str) -> &'a str
    ensures { result.now ≡ spec.field name.now fields.now }
{
    match value_of(fields, name) {
        Some(value) => value.as_str(),
        None => "",
    }
}
