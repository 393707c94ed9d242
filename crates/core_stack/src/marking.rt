// The turn that an entry begins or ends, and the code that it makes, with the mark of the authorization request.

ghost use Rattle.std.specs.Prelude.{◌≡◌, option_map, if◌then◌else◌, None};
ghost use Rattle.std.specs.Option.{option_copied};
ghost use Rattle.core_stack.specs.Marks as spec;

use crate::marks::{CodeMark, TurnMark};
use auth_request::Verdict;
use op_exchange::{OpAsk, OpReply};
use sso_base::{Moment, Word};

/// Whether a request is an authorization request that may be answered.
pub fn is_wish(ask: Option<&OpAsk>) -> bool
    ensures { result ≡ spec.is_wish (option_copied ask.entry) }
{
    matches!(
        ask,
        Some(OpAsk::Authorize {
            verdict: Verdict::Grant(_),
            ..
        })
    )
}

/// The turn that a form was posted for.
pub fn turn_named(ask: Option<&OpAsk>) -> Option<Word>
    ensures { result ≡ spec.named_in (option_copied ask.entry) }
{
    match ask {
        Some(OpAsk::Login { turn, .. } | OpAsk::Consent { turn, .. }) => *turn,
        _ => None,
    }
}

/// Whether the provider gave a reply that ends the turn of its form.
pub fn ends_turn(given: Option<&OpReply>) -> bool
    ensures { result ≡ spec.ends_by (option_copied given.entry) }
{
    match given {
        Some(given) => given.ends_turn(),
        None => false,
    }
}

/// The turn that a form ends.
pub fn turn_ended(ends: bool, named: Option<Word>) -> Option<Word>
    ensures { result ≡ (if ends then named else None) }
{
    if ends { named } else { None }
}

// The turn of a page.
fn page_turn(reply: &OpReply) -> Option<Word>
    ensures { result ≡ spec.page_turn reply.now }
{
    match reply {
        OpReply::LoginPage { turn, .. } | OpReply::ConsentPage { turn, .. } => Some(*turn),
        _ => None,
    }
}

// The row of a turn, if there is one.
fn turn_of<M: Drop>(turn: Option<Word>, mark: M, begun: Moment) -> Option<TurnMark<M>>
    ensures { result ≡ option_map (λ w. spec.turn_mark w mark begun) turn }
{
    match turn {
        Some(turn) => Some(TurnMark { turn, mark, begun }),
        None => None,
    }
}

// The row of a code, if there is one.
fn code_of<M: Drop>(code: Option<Word>, mark: M, issued: Moment) -> Option<CodeMark<M>>
    ensures { result ≡ option_map (λ w. spec.code_mark w mark issued) code }
{
    match code {
        Some(code) => Some(CodeMark { code, mark, issued }),
        None => None,
    }
}

/// The turn that an entry begins: the provider gave a page to an authorization request that may be answered.
pub fn turn_begun<M: Drop>(
    given: Option<&OpReply>,
    wish: bool,
    mark: M,
    at: Moment,
) -> Option<TurnMark<M>>
    ensures { result ≡ spec.turn_row (option_copied given.entry) wish mark at }
{
    match given {
        Some(given) if wish => turn_of(page_turn(given), mark, at),
        _ => None,
    }
}

/// The code that an entry makes: the provider gave an authorization response that has it.
pub fn code_made<M: Drop>(given: Option<&OpReply>, mark: M, at: Moment) -> Option<CodeMark<M>>
    ensures { result ≡ spec.code_row (option_copied given.entry) mark at }
{
    match given {
        Some(given) => code_of(given.code(), mark, at),
        None => None,
    }
}
