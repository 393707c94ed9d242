// Facts that the types of a request give about its values, as lemmas for the proofs: texts are UTF-8, words have 32 bytes, and
// numbers their size.

ghost use Rattle.std.specs.Prelude.{◌<◌, ◌^◌, IfSome};
ghost use Rattle.sso_base.specs.Legal.{IsEntry};
ghost use Rattle.auth_request.specs.Values.{IsWishValue};
ghost use Rattle.op_exchange.specs.Values as spec;

use crate::ask::OpAsk;
use auth_request::{Verdict, Wish};
use sso_base::{
    Entry, know_entry, know_number_if, know_text_if, know_texts, know_texts_if, know_word,
    know_word_if,
};
use token_endpoint::{Grant, GrantNo};
use userinfo::Bearer;

// A number has 32 bits.
fn know_place(n: u32)
    ensures { n < 2 ^ 32 }
{}

// The same for an optional number.
fn know_place_if(n: Option<u32>)
    ensures { IfSome n (λ m. m < 2 ^ 32) }
{
    if let Some(n) = n {
        know_place(n);
    }
}

fn know_wish(wish: &Wish)
    ensures { IsWishValue wish.now }
{
    know_place(wish.client);
    let _redirect = wish.redirect.as_str();
    know_text_if(&wish.state);
    know_text_if(&wish.nonce);
    know_number_if(wish.max_age);
    know_texts_if(&wish.subs);
    know_texts(&wish.id_asked);
    know_texts(&wish.info_asked);
}

fn know_verdict(verdict: &Verdict)
    ensures { spec.IsVerdictValue verdict.now }
{
    match verdict {
        Verdict::Page(_) => {}
        Verdict::Refuse(refusal) => {
            let _redirect = refusal.redirect.as_str();
            know_text_if(&refusal.state);
        }
        Verdict::Grant(wish) => know_wish(wish),
    }
}

fn know_grant(grant: &Result<Grant, GrantNo>)
    ensures { spec.IsGrantValue grant.now }
{
    match grant {
        Ok(grant) => {
            know_place(grant.client);
            let _code = grant.code.as_str();
            let _redirect = grant.redirect.as_str();
        }
        Err(GrantNo::Twice(name) | GrantNo::Missing(name)) => {
            let _name = name.as_str();
        }
        Err(_) => {}
    }
}

fn know_bearer(bearer: &Bearer)
    ensures { spec.IsBearerValue bearer.now }
{
    if let Bearer::Given(word) = bearer {
        know_word(word);
    }
}

// A request holds values of its types.
fn know_ask(ask: &OpAsk)
    ensures { spec.IsOpAsk ask.now }
{
    match ask {
        OpAsk::Authorize {
            verdict,
            browser,
            session,
        } => {
            know_verdict(verdict);
            know_word_if(browser);
            know_word_if(session);
        }
        OpAsk::Login {
            turn,
            signed,
            browser,
            session,
        } => {
            know_word_if(turn);
            know_place_if(*signed);
            know_word_if(browser);
            know_word_if(session);
        }
        OpAsk::Consent {
            turn,
            browser,
            session,
            ..
        } => {
            know_word_if(turn);
            know_word_if(browser);
            know_word_if(session);
        }
        OpAsk::Token { grant } => know_grant(grant),
        OpAsk::Info { bearer } => know_bearer(bearer),
        OpAsk::SignOut { session } => know_word_if(session),
        OpAsk::Metadata | OpAsk::Keys | OpAsk::Twice | OpAsk::NotHere => {}
    }
}

/// An entry has a moment and four words, and its request holds values of its types. A lemma for the proofs; the call does
/// nothing.
pub fn know_op_entry(entry: &Entry<OpAsk>)
    ensures { IsEntry spec.IsOpAsk entry.now }
{
    know_entry(entry);
    know_ask(&entry.ask);
}
