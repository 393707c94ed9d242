// What is added to a reply. It allocates nothing.

ghost use Rattle.std.specs.Prelude.{◌≡◌};
ghost use Rattle.rp_answer.specs.Asked.{if_wanted};
ghost use Rattle.pkce_party.specs.Adding as spec;

use crate::key_text::KeyText;
use crate::known::Known;
use crate::reply::PartyReply;
use crate::rows::VerifierRow;
use oidc_words::Types;
use rp_exchange::RpReply;
use sso_base::Word;

// The challenge of the login that a reply begins.
fn challenge_for(wanted: bool, drawn: &Option<VerifierRow>, reply: &RpReply) -> Option<KeyText>
    ensures { result ≡ if_wanted wanted (spec.challenge_for drawn.now reply.now) }
{
    if !wanted {
        return None;
    }
    match (reply, drawn) {
        (RpReply::Ask { .. }, Some(row)) => Some(KeyText::of_word(&row.word).challenge()),
        _ => None,
    }
}

// The verifier of the login whose code a reply exchanges.
fn verifier_for(wanted: bool, held: &Option<Word>, reply: &RpReply) -> Option<KeyText>
    ensures { result ≡ if_wanted wanted (spec.verifier_for held.now reply.now) }
{
    if !wanted {
        return None;
    }
    match (reply, held) {
        (RpReply::Exchange { .. }, Some(word)) => Some(KeyText::of_word(word)),
        _ => None,
    }
}

/// The reply of the party inside, with what a party of this response type adds to it.
pub(crate) fn added(types: &Types, known: &Known, reply: RpReply) -> PartyReply
    ensures { result ≡ spec.added types.now known.now.drawn known.now.held reply }
{
    let challenge = challenge_for(types.code, &known.drawn, &reply);
    let verifier = verifier_for(types.code, &known.held, &reply);
    PartyReply {
        inner: reply,
        challenge,
        verifier,
    }
}
