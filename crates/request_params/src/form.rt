// The form of a request.

ghost use Rattle.std.specs.Prelude.{◌≡◌};
ghost use Rattle.request_params.specs.Form as spec;

use sso_base::{Ask, Blob, Method};

/// The form that was posted: the body, or empty if there is none.
pub fn posted(body: &Option<Blob>) -> &[u8]
    ensures { result.now ≡ spec.posted body.now }
{
    match body {
        Some(form) => form.as_bytes(),
        None => &[],
    }
}

/// The form of a request: the body of a POST, otherwise the query (OpenID Connect Core 1.0, 3.1.2.1).
pub fn form_of(ask: &Ask) -> &[u8]
    ensures { result.now ≡ spec.form_of ask.now.method ask.now }
{
    match ask.method {
        Method::Post => posted(&ask.body),
        _ => ask.query.as_bytes(),
    }
}
