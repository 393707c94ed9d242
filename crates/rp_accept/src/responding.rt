// The reply to an authorization response of a live login, from its own browser.

ghost use Rattle.std.specs.Prelude.{◌≡◌, IfOk};
ghost use Rattle.std.specs.Option.{option_copied};
ghost use Rattle.rp_answer.specs.Asked as asked;
ghost use Rattle.rp_answer.specs.Replies as spec;

use crate::setup::Setup;
use auth_answer::Heard;
use id_token::{Half, IdClaims, IdNo, IdRules, half_hash, judge_id};
use oidc_words::Types;
use rp_exchange::{Part, RpAsk, RpNo, RpReply, copied_id};
use rp_login::LoginRow;
use sso_base::{Entry, Moment, NoMemory, Text, Word};
use std::alloc::Global;
use token_endpoint::print_grant;

// The text, if it counts.
pub(crate) fn text_if(wanted: bool, text: &Option<Text>) -> Option<&Text>
    ensures { option_copied result ≡ asked.if_wanted wanted text.now }
{
    if !wanted {
        return None;
    }
    match text {
        Some(text) => Some(text),
        None => None,
    }
}

// The ID Token as it was read, if it counts.
fn id_if(wanted: bool, id: &Option<Result<IdClaims, IdNo>>) -> Option<&Result<IdClaims, IdNo>>
    ensures { option_copied result ≡ asked.if_wanted wanted id.now }
{
    if !wanted {
        return None;
    }
    match id {
        Some(id) => Some(id),
        None => None,
    }
}

// If there is a text, its half digest is required.
fn must_hash(text: Option<&Text>) -> Half
    ensures { result ≡ spec.must_hash (option_copied text.entry) }
{
    match text {
        Some(text) => Half::Must(half_hash(text.as_str().as_bytes())),
        None => Half::Free,
    }
}

// The first part that the response type has and the response lacks.
fn part_missing(types: &Types, heard: &Heard) -> Option<Part>
    ensures { result ≡ spec.part_missing types.now heard.now }
{
    if types.code && heard.code.is_none() {
        return Some(Part::Code);
    }
    if types.token && heard.access.is_none() {
        return Some(Part::Access);
    }
    if types.id_token && heard.id.is_none() {
        return Some(Part::Id);
    }
    None
}

impl Setup {
    // The rules for an ID Token of a login with this nonce and this start.
    pub(crate) fn rules_for(
        &self,
        alloc: Global,
        nonce: &Word,
        begun: Moment,
        token: Half,
        code: Half,
    ) -> Result<IdRules, NoMemory>
        ensures { IfOk result (λ r. r ≡ spec.rules_for self.now nonce.now begun token code) }
    {
        Ok(IdRules {
            issuer: self.provider().issuer.copy(alloc)?,
            client: self.client().id.copy(alloc)?,
            nonce: nonce.to_text(alloc)?,
            begun,
            max_age: self.party().max_age,
            token,
            code,
        })
    }

    // The code of a response, if its type has one.
    fn front_code<'a>(&self, heard: &'a Heard) -> Option<&'a Text>
        ensures { option_copied result ≡ spec.front_code self.now heard.now }
    {
        text_if(self.party().types.code, &heard.code)
    }

    // The access token of a response, if its type has one.
    fn front_access<'a>(&self, heard: &'a Heard) -> Option<&'a Text>
        ensures { option_copied result ≡ spec.front_access self.now heard.now }
    {
        text_if(self.party().types.token, &heard.access)
    }

    fn front_rules(
        &self,
        alloc: Global,
        login: &LoginRow,
        heard: &Heard,
    ) -> Result<IdRules, NoMemory>
        ensures { IfOk result (λ r. r ≡ spec.front_rules self.now login.now heard.now) }
    {
        let token = must_hash(self.front_access(heard));
        let code = must_hash(self.front_code(heard));
        self.rules_for(alloc, &login.nonce, login.begun, token, code)
    }

    // A token request for the code.
    fn exchange(
        &self,
        alloc: Global,
        entry: &Entry<RpAsk>,
        code: &Text,
    ) -> Result<RpReply, NoMemory>
        ensures { IfOk result (λ r. r ≡ spec.exchange self.now entry.now code.now) }
    {
        let client = self.client();
        let redirect = &self.party().redirect;
        Ok(RpReply::Exchange {
            pending: entry.fresh[0],
            message: print_grant(alloc, client, &self.provider().token, code, redirect)?,
        })
    }

    // Exchanges the code, or else uses the claims of the ID Token.
    fn exchange_or_enter(
        &self,
        alloc: Global,
        entry: &Entry<RpAsk>,
        heard: &Heard,
        code: Option<&Text>,
        claims: Option<&IdClaims>,
    ) -> Result<RpReply, NoMemory>
        ensures { IfOk result (λ r. r ≡ spec.exchange_or_enter self.now entry.now heard.now (option_copied code.entry) (option_copied claims.entry)) }
    {
        if let Some(code) = code {
            return self.exchange(alloc, entry, code);
        }
        let Some(claims) = claims else {
            return Ok(RpReply::Refused {
                why: RpNo::Missing(Part::Id),
            });
        };
        let access = self.front_access(heard);
        self.fetch_or_enter(alloc, entry, access, entry.fresh[0], &claims.sub)
    }

    // Verifies the claims of the response's ID Token.
    fn judge_front(
        &self,
        alloc: Global,
        entry: &Entry<RpAsk>,
        login: &LoginRow,
        heard: &Heard,
        claims: &IdClaims,
    ) -> Result<RpReply, NoMemory>
        ensures { IfOk result (λ r. r ≡ spec.front_verified self.now entry.now login.now heard.now claims.now) }
    {
        let rules = self.front_rules(alloc, login, heard)?;
        if let Err(why) = judge_id(&rules, claims, entry.at) {
            return Ok(RpReply::Refused { why: RpNo::Id(why) });
        }
        self.exchange_or_enter(alloc, entry, heard, self.front_code(heard), Some(claims))
    }

    // The response's ID Token, if its type has one.
    fn read_front(
        &self,
        alloc: Global,
        entry: &Entry<RpAsk>,
        login: &LoginRow,
        heard: &Heard,
        id: Option<&Result<IdClaims, IdNo>>,
    ) -> Result<RpReply, NoMemory>
        ensures { IfOk result (λ r. r ≡ spec.front_read self.now entry.now login.now heard.now (option_copied id.entry)) }
    {
        let Some(id) = id else {
            return self.exchange_or_enter(alloc, entry, heard, self.front_code(heard), None);
        };
        match id {
            Ok(claims) => self.judge_front(alloc, entry, login, heard, claims),
            Err(why) => Ok(RpReply::Refused {
                why: RpNo::Id(copied_id(alloc, why)?),
            }),
        }
    }

    /// The reply to a response of this live login, from its own browser. The claims of its ID Token are verified and its code
    /// is exchanged, if its type has them.
    pub fn reply_to_response(
        &self,
        alloc: Global,
        entry: &Entry<RpAsk>,
        login: &LoginRow,
        heard: &Heard,
        id: &Option<Result<IdClaims, IdNo>>,
    ) -> Result<RpReply, NoMemory>
        ensures { IfOk result (λ r. r ≡ spec.response_error self.now entry.now login.now heard.now id.now heard.now.error) }
    {
        if let Some(code) = heard.error {
            return Ok(RpReply::Refused {
                why: RpNo::Provider(code),
            });
        }
        if let Some(part) = part_missing(&self.party().types, heard) {
            return Ok(RpReply::Refused {
                why: RpNo::Missing(part),
            });
        }
        let id = id_if(self.party().types.id_token, id);
        self.read_front(alloc, entry, login, heard, id)
    }
}
