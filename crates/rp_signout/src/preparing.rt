// Reading the request in an HTTP request.

ghost use Rattle.std.specs.Prelude.{◌≡◌, IfOk};
ghost use Rattle.op_exchange.specs.declared.ask.OpAsk.TheVariants as op_ask;
ghost use Rattle.op_request.specs.PostedForms as forms;
ghost use Rattle.rp_signout.specs.Prepared as spec;

use crate::pages::WORD_FIELD;
use crate::routes::{Route, route_asked};
use client_registry::Registry;
use core_stack::Provides;
use op_exchange::{AGREE_FIELD, AGREE_VALUE, OpAsk};
use request_params::{Pair, form_of, posted, read_pairs, value_of};
use signout_answer::EndAsk;
use sso_base::{Ask, Blob, NoMemory, Word};
use std::alloc::Global;

// How many fields have the name.
fn count(fields: &[Pair], name: &str) -> usize
    ensures { result ≡ forms.count name.now fields.now }
{
    let mut count = 0;
    for field in fields {
        if field.0.as_str() == name {
            count += 1;
        }
    }
    count
}

// Whether the name occurs more than once.
fn stands_twice(fields: &[Pair], name: &str) -> bool
    ensures { result ≡ forms.stands_twice name.now fields.now }
{
    count(fields, name) > 1
}

// Whether a name of the form occurs twice.
fn repeats_in_confirm(fields: &[Pair]) -> bool
    ensures { result ≡ forms.repeats_one spec.confirm_names fields.now }
{
    stands_twice(fields, WORD_FIELD) || stands_twice(fields, AGREE_FIELD)
}

// The value of the field with this name; empty if it is absent.
fn field<'a>(fields: &'a [Pair], name: &str) -> &'a str
    ensures { result.now ≡ forms.field name.now fields.now }
{
    match value_of(fields, name) {
        Some(value) => value.as_str(),
        None => "",
    }
}

// The sign-out with this session, for the inner core.
fn sign_out<P: Provides>(alloc: Global, session: Option<Word>) -> Result<P::Ask, NoMemory>
    ensures { IfOk result (λ a. a ≡ P.from_op (op_ask.SignOut session)) }
{
    P::from_plain(alloc, OpAsk::SignOut { session })
}

// The request of a posted form.
fn confirm<P: Provides>(
    alloc: Global,
    request: &Ask,
    fields: &[Pair],
) -> Result<EndAsk<P::Ask>, NoMemory>
    ensures { IfOk result (λ a. a ≡ spec.confirm_asked P.from_op request.now fields.now) }
{
    let inner = sign_out::<P>(alloc, request.second)?;
    if repeats_in_confirm(fields) {
        return Ok(EndAsk::Confirm {
            word: None,
            agree: false,
            session: request.second,
            inner,
        });
    }
    Ok(EndAsk::Confirm {
        word: Word::read(field(fields, WORD_FIELD).as_bytes()),
        agree: field(fields, AGREE_FIELD) == AGREE_VALUE,
        session: request.second,
        inner,
    })
}

// The fields of the form that was posted.
fn posted_fields(alloc: Global, body: &Option<Blob>) -> Result<Vec<Pair>, NoMemory>
    ensures { IfOk result (λ v. v.items ≡ forms.fields_of body.now) }
{
    read_pairs(alloc, posted(body))
}

// The request at a route.
fn asked_at<P: Provides>(
    alloc: Global,
    registry: &Registry,
    request: &Ask,
    route: Option<Route>,
) -> Result<EndAsk<P::Ask>, NoMemory>
    ensures { IfOk result (λ a. a ≡ spec.end_asked P.prepared P.from_op registry.now request.now route) }
{
    match route {
        None => Ok(EndAsk::Through(P::prepare(alloc, registry, request)?)),
        Some(Route::Start) => Ok(EndAsk::Start {
            form: Blob::new(alloc, form_of(request))?,
            session: request.second,
        }),
        Some(Route::Confirm) => {
            let fields = posted_fields(alloc, &request.body)?;
            confirm::<P>(alloc, request, &fields)
        }
    }
}

/// Reads a request. The path is the issuer's path without a last `/`, followed by one of these. Any other request, also one with
/// another method, is one for the inner core.
///
/// | Request | Result |
/// |---|---|
/// | GET or POST `/end_session` | a request to end a session, as the query or the posted form |
/// | POST `/end_session/confirm` with `word`, `agree` | the answer to a question, agreed if and only if `agree` is `yes` |
///
/// An answer in which one of these names occurs twice is one to no question.
pub(crate) fn prepare_end<P: Provides>(
    alloc: Global,
    registry: &Registry,
    request: &Ask,
) -> Result<EndAsk<P::Ask>, NoMemory>
    ensures { IfOk result (λ a. a ≡ spec.end_asked P.prepared P.from_op registry.now request.now (spec.route_asked registry.now.prefix request.now)) }
{
    let route = route_asked(registry.prefix(), request);
    asked_at::<P>(alloc, registry, request, route)
}
