// The UserInfo request and response.

ghost use Rattle.std.specs.Prelude.{◌≡◌, ◌⊎◌, ℕ, List, Ok, Err, IfOk, IfErr, IsFalse};
ghost use Rattle.userinfo.specs.Request.{info_message};
ghost use Rattle.userinfo.specs.Answer.{sub_in, info_read, hides_memory, IsUserInfo};

use crate::no::InfoNo;
use claim_set::{ClaimSet, read_claims};
use sso_base::{Answered, Message, NoMemory, Text};
use std::alloc::Global;

/// The request for UserInfo: a GET to the endpoint, whose header is `Bearer`, a space and the access token (OpenID
/// Connect Core 1.0, 5.3.1; RFC 6750, 2.1).
#[tactic(auto, unfolding(crate::specs::Request::info_message))]
pub fn print_info(alloc: Global, endpoint: &Text, access: &Text) -> Result<Message, NoMemory>
    ensures { IfOk result (λ m. m ≡ info_message endpoint.now access.now) }
{
    let mut header = String::from_str(alloc, "Bearer ")?;
    header.push_str(access.as_str())?;
    Ok(Message {
        to: endpoint.copy(alloc)?,
        auth: Some(Text::from_string(header)),
        body: None,
    })
}

// The subject among claims.
fn subject_in(claims: &ClaimSet) -> Result<Text, InfoNo>
    ensures ok { IfOk result (λ t. sub_in claims.now ≡ Ok t) }
    ensures err { IfErr result (λ e. (e ≡ InfoNo.NoMemory) ⊎ (sub_in claims.now ≡ Err e)) }
    ensures memory_is_outermost { IfErr result (λ e. IsFalse (hides_memory e)) }
{
    match claims.text("sub")? {
        Some(sub) => Ok(sub),
        None => Err(InfoNo::NoSub),
    }
}

// The subject in a response, or the first error that applies.
#[tactic(auto, unfolding(crate::specs::Answer::info_read))]
fn subject_of(alloc: Global, answer: &Answered) -> Result<Text, InfoNo>
    ensures ok { IfOk result (λ t. info_read answer.now ≡ Ok t) }
    ensures err { IfErr result (λ e. (e ≡ InfoNo.NoMemory) ⊎ (info_read answer.now ≡ Err e)) }
    ensures memory_is_outermost { IfErr result (λ e. IsFalse (hides_memory e)) }
{
    if answer.status != 200 {
        return Err(InfoNo::Status(answer.status));
    }
    let claims = read_claims(alloc, answer.body.as_bytes())?;
    subject_in(&claims)
}

/// The subject in a UserInfo response (OpenID Connect Core 1.0, 5.3.2 and 5.3.4).
///
/// A response is accepted if and only if its status is 200 and its body is a claim set whose `sub` is a string. For any other
/// response the first error that applies is returned, in the order of [`InfoNo`].
pub fn read_info(alloc: Global, answer: &Answered) -> Result<Text, InfoNo>
    ensures answers { IfOk result (λ t. info_read answer.now ≡ Ok t) }
    ensures info { IfOk result (λ t. IsUserInfo answer.now t) }
    ensures accepts { (t : List ℕ) → IsUserInfo answer.now t → IfErr result (λ e. e ≡ InfoNo.NoMemory) }
    ensures value { (t : List ℕ) → IsUserInfo answer.now t → IfOk result (λ u. u ≡ t) }
    ensures refuses { IfErr result (λ e. (e ≡ InfoNo.NoMemory) ⊎ (info_read answer.now ≡ Err e)) }
    ensures memory_is_outermost { IfErr result (λ e. IsFalse (hides_memory e)) }
{
    subject_of(alloc, answer)
}
