// Writing the line of a reply.

ghost use Rattle.std.specs.Prelude.{◌≡◌, IfOk};
ghost use Rattle.op_response.specs.Lines as spec;

use auth_answer::Answer;
use auth_request::PageNo;
use http_reply::concatenated;
use oidc_words::{INVALID_TOKEN, error_text, spaced};
use op_exchange::OpReply;
use sso_base::{NoMemory, Text};
use std::alloc::Global;

// The reason of an error page.
pub(crate) fn page_word(why: PageNo) -> &'static str
    ensures { result.now ≡ spec.page_word why }
{
    match why {
        PageNo::Client => "client",
        PageNo::Redirect => "redirect",
        PageNo::Twice => "twice",
        PageNo::Turn => "turn",
        PageNo::Browser => "browser",
    }
}

fn answer_words(alloc: Global, answer: &Answer) -> Result<Text, NoMemory>
    ensures { IfOk result (λ t. t ≡ spec.answer_words answer.now) }
{
    let words = [
        (true, "answer"),
        (answer.code.is_some(), "code"),
        (answer.id.is_some(), "id_token"),
        (answer.access.is_some(), "token"),
    ];
    spaced(alloc, &words)
}

// `signout` and the number of messages that it sends.
fn signed_out(alloc: Global, messages: usize) -> Result<Text, NoMemory>
    ensures { IfOk result (λ t. t ≡ spec.signed_out messages) }
{
    let count = messages.to_string(alloc)?;
    concatenated(alloc, "signout ", count.as_str())
}

/// The line of this reply in the text of a replay, without its index and its role:
///
/// - `login`, `login again`, `consent`;
/// - `answer` with its parts in the order `code`, `id_token` and `token`; `error` with the code; `page` with the reason;
/// - `tokens`; `refused` with the code; `info`, `info invalid_token`, `info no_token`;
/// - `signout` with the number of messages; `metadata`, `keys`, `nothing`, `full`.
///
/// It shows no word, token or claim.
#[tactic(auto, unfolding(crate::specs::Lines::line_of))]
pub fn op_line(alloc: Global, reply: &OpReply) -> Result<Text, NoMemory>
    ensures { IfOk result (λ t. t ≡ spec.line_of reply.now) }
{
    match reply {
        OpReply::LoginPage { again: false, .. } => Text::new(alloc, "login"),
        OpReply::LoginPage { again: true, .. } => Text::new(alloc, "login again"),
        OpReply::ConsentPage { .. } => Text::new(alloc, "consent"),
        OpReply::Answered { answer, .. } => answer_words(alloc, answer),
        OpReply::Refused { refusal, .. } => concatenated(alloc, "error ", error_text(refusal.code)),
        OpReply::ErrorPage { why } => concatenated(alloc, "page ", page_word(*why)),
        OpReply::Tokens { .. } => Text::new(alloc, "tokens"),
        OpReply::TokenRefused { code } => concatenated(alloc, "refused ", code.as_str()),
        OpReply::Info { .. } => Text::new(alloc, "info"),
        OpReply::InfoRefused { given: true } => concatenated(alloc, "info ", INVALID_TOKEN),
        OpReply::InfoRefused { given: false } => Text::new(alloc, "info no_token"),
        OpReply::SignedOut { messages } => signed_out(alloc, messages.count()),
        OpReply::Metadata { .. } => Text::new(alloc, "metadata"),
        OpReply::Keys => Text::new(alloc, "keys"),
        OpReply::NotHere => Text::new(alloc, "nothing"),
        OpReply::Full => Text::new(alloc, "full"),
    }
}
