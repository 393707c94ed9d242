//! The outcome for a secret and a token.

ghost use Rattle.std.specs.Prelude.{◌≡◌, IfOk, codes};
ghost use Rattle.jws_compact.specs.Names.{jws_name};
ghost use Rattle.sso.specs.Answer.{without_feed, payload_answer, token_refusal, token_answer};

use crate::outcome::Outcome;
use crate::refusal::{Refusal, refused};
use jws_compact::{JwsNo, unseal};
use sso_base::{Blob, NoMemory};
use std::alloc::Global;

/// The most bytes of a secret.
const MOST_SECRET: usize = 128;

/// The bytes without their last, if that is a line feed.
fn without_feed(bytes: &[u8]) -> &[u8]
    ensures { result.now ≡ without_feed bytes.now }
{
    bytes.strip_suffix(b"\n").unwrap_or(bytes)
}

/// The outcome for a secret that is empty or too long.
#[tactic(auto, unfolding(crate::specs::Answer::token_text))]
fn refuse_secret(alloc: Global) -> Result<Outcome, NoMemory>
    ensures { IfOk result (λ outcome. outcome ≡ token_refusal (codes "Secret")) }
{
    let why = Refusal::Secret;
    refused(alloc, &why)
}

/// The outcome for a rejected token.
#[tactic(auto, unfolding(crate::specs::Answer::token_text))]
fn refuse_token(alloc: Global, why: JwsNo) -> Result<Outcome, NoMemory>
    ensures { IfOk result (λ outcome. outcome ≡ token_refusal (jws_name why)) }
{
    let why = Refusal::Token(why);
    refused(alloc, &why)
}

/// The outcome for a token with this payload.
fn opening(alloc: Global, payload: &[u8]) -> Result<Outcome, NoMemory>
    ensures { IfOk result (λ outcome. outcome ≡ payload_answer payload.now) }
{
    let mut text = payload.to_vec(alloc)?;
    text.push(b'\n')?;
    Ok(Outcome {
        status: 0,
        text: Blob::from_vec(text),
    })
}

/// The outcome for the contents of a secret's file and of a token's file.
#[tactic(auto, unfolding(crate::specs::Answer::token_answer))]
pub fn answer_token(alloc: Global, secret: &[u8], token: &[u8]) -> Result<Outcome, NoMemory>
    ensures { IfOk result (λ outcome. outcome ≡ token_answer secret.now token.now) }
{
    let secret = without_feed(secret);
    if secret.is_empty() || secret.len() > MOST_SECRET {
        return refuse_secret(alloc);
    }
    match unseal(alloc, secret, without_feed(token)) {
        Ok(unsealed) => opening(alloc, unsealed.payload.as_bytes()),
        Err(JwsNo::NoMemory) => Err(NoMemory),
        Err(why) => refuse_token(alloc, why),
    }
}
