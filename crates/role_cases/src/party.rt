// The relying party of a run.

ghost use Rattle.std.specs.Prelude.{◌≡◌, ◌<◌, length, IfOk};

use crate::cores::Begins;
use crate::filling::bring;
use crate::in_turn::party_replies;
use crate::telling::{Telling, fill, step_told};
use case_lines::{
    Run, answered, field, moment, number, or_else, push_part, request, told, word_of,
    words_of_place,
};
use client_registry::{Provider, RegNo, Registry, read_registry};
use core_stack::Sending;
use rp_exchange::{RpAsk, RpNo, RpReply};
use rp_login::{Logins, PendingRow, SessionRow, Stage};
use rp_response::rp_line;
use sso_base::{CoreNo, Message, Moment, NoMemory, Text, copied_text};
use std::alloc::Global;

/// A relying party in a core, its registry, and its number there. (All is for any core: the prover would compare all parts of a core
/// with a name in each call.)
#[derive(Drop)]
pub struct RelyingParty<C: Begins> {
    registry: Registry,
    core: C,
    party: u32,
}

// ---- setting up

// UserInfo of the registry's provider; none if the authorization endpoint is another's.
fn userinfo_of(
    alloc: Global,
    provider: &Provider,
    authorize: Option<&str>,
) -> Result<Option<Text>, NoMemory> {
    match authorize {
        Some(_) => Ok(None),
        None => copied_text(alloc, &provider.userinfo),
    }
}

// The registry's provider. If an authorization endpoint is given, it has that one and no UserInfo.
fn provider_of(
    alloc: Global,
    registry: &Registry,
    authorize: Option<&str>,
) -> Result<Provider, NoMemory>
    ensures { IfOk result (λ p. p.issuer ≡ registry.now.provider.issuer) }
{
    let provider = registry.provider();
    let userinfo = userinfo_of(alloc, provider, authorize)?;
    let authorize = authorize.unwrap_or(provider.authorize.as_str());
    Ok(Provider {
        issuer: provider.issuer.copy(alloc)?,
        authorize: Text::new(alloc, authorize)?,
        token: provider.token.copy(alloc)?,
        userinfo,
    })
}

fn core_of<C: Begins>(
    alloc: Global,
    registry: &Registry,
    party: u32,
    authorize: Option<&str>,
) -> Result<C, NoMemory>
    requires { party < length registry.now.parties }
{
    let provider = provider_of(alloc, registry, authorize)?;
    C::begin(alloc, registry.copy(alloc)?, party, provider)
}

fn begun<C: Begins>(
    registry: Registry,
    core: Result<C, NoMemory>,
    party: u32,
) -> Result<Option<RelyingParty<C>>, NoMemory> {
    match core {
        Ok(core) => Ok(Some(RelyingParty {
            registry,
            core,
            party,
        })),
        Err(NoMemory) => Err(NoMemory),
    }
}

// The relying party with this number, if there is one.
fn party_of<C: Begins>(
    alloc: Global,
    registry: &Registry,
    party: u32,
    authorize: Option<&str>,
) -> Result<Option<RelyingParty<C>>, NoMemory> {
    if party >= registry.parties() {
        return Ok(None);
    }
    let registry = registry.copy(alloc)?;
    let core = core_of(alloc, &registry, party, authorize);
    begun(registry, core, party)
}

fn party_read<C: Begins>(
    alloc: Global,
    registry: &Result<Registry, RegNo>,
    name: &str,
    authorize: Option<&str>,
) -> Result<Option<RelyingParty<C>>, NoMemory> {
    match registry {
        Ok(registry) => match registry.find_party(name.as_bytes()) {
            Some(party) => party_of(alloc, registry, party, authorize),
            None => Ok(None),
        },
        Err(RegNo::NoMemory) => Err(NoMemory),
        Err(_) => Ok(None),
    }
}

impl<C: Begins> Telling for RelyingParty<C> {
    type Reply = C::Reply;

    fn tell(
        &self,
        alloc: Global,
        run: &mut Run,
        call: &str,
        reply: &C::Reply,
    ) -> Result<String, NoMemory> {
        if self.party >= self.registry.parties() {
            return told(alloc, "no party");
        }
        let messages = Self::messages_in(alloc, reply)?;
        run.keep(C::http(alloc, &self.registry, self.party, reply)?, messages);
        let line = rp_line(alloc, C::answer(reply))?;
        let mut out = run.told(alloc, call, line.as_str())?;
        if call == "why" {
            push_place(alloc, &mut out, C::answer(reply))?;
        }
        Ok(out)
    }

    fn try_nothing(&mut self, alloc: Global, at: Moment) -> Option<bool> {
        let Ok(asked) = C::from_plain(alloc, RpAsk::NotHere) else {
            return None;
        };
        let answer = self.core.step(alloc, at, words_of_place(1), asked);
        Self::nothing_found(&answer)
    }
}

impl<C: Begins> RelyingParty<C> {
    /// The relying party with this name and an empty history; none if the configuration is rejected or has no such party. Its
    /// logins begin at the authorization endpoint of the configuration's provider. If another one is given, they begin there,
    /// and its provider has no UserInfo.
    pub fn begin(
        alloc: Global,
        file: &str,
        name: &str,
        authorize: Option<&str>,
    ) -> Result<Option<RelyingParty<C>>, NoMemory> {
        let registry = read_registry(alloc, file.as_bytes());
        party_read(alloc, &registry, name, authorize)
    }

    /// The answer of the relying party to a call:
    ///
    /// | Call | Answer |
    /// |---|---|
    /// | `ask|MOMENT|METHOD|TARGET|BODY|BROWSER|SESSION` | the line of the reply |
    /// | `ask|MOMENT|tokens|EXCHANGE|STATUS|BODY` | the line of the reply to the token endpoint's answer in this exchange |
    /// | `ask|MOMENT|info|EXCHANGE|STATUS|BODY` | the line of the reply to UserInfo's answer in this exchange |
    /// | `send|..`, with the same fields | the line, the reply in HTTP, and the message in it |
    /// | `why|..`, with the same fields | the line, and the place of the earlier request that a refusal names |
    /// | `remembered|MOMENT|SID` | the place of the last logout token that named this session, and when it was accepted |
    /// | `stored|NAME` | the last logout token with this `jti`, and the last that named this session, also one that is forgotten |
    /// | `fill|MOMENT|COUNT` | how often nothing is found by requests for something that does not exist |
    /// | `bring|MOMENT|COUNT|codes` | the answers to the responses of COUNT logins, each with a code |
    /// | `bring|MOMENT|COUNT|ID Tokens` | the same at `blog`, each with an ID Token for alice |
    /// | `bring|MOMENT|COUNT|logout tokens` | the answers to COUNT logout tokens for alice at `shop`, each with its own `jti` |
    /// | `bring|MOMENT|COUNT|logout tokens of sessions` | the same, each for its own `sid`, from `s0` |
    /// | `in turn|MOMENT` | the lines of the replies of a new party to requests to begin, for who is logged in, and for nothing |
    /// | `held` | the entries of the tables for the words 1 to 63 |
    /// | `count` | how many requests were answered |
    pub fn answer(
        &mut self,
        alloc: Global,
        run: &mut Run,
        fields: &[&str],
    ) -> Result<String, NoMemory> {
        match (fields, moment(field(fields, 1))) {
            (["held"], _) => held(alloc, self.core.tables()),
            (["stored", name], _) => stored(alloc, self.core.tables(), name),
            (["count"], _) => Ok(self.core.count().to_string(alloc)?),
            (_, Some(at)) => self.answer_at(alloc, run, at, fields),
            _ => told(alloc, "no such call"),
        }
    }

    fn answer_at(
        &mut self,
        alloc: Global,
        run: &mut Run,
        at: Moment,
        fields: &[&str],
    ) -> Result<String, NoMemory> {
        match fields {
            ["fill", _, count] => fill(alloc, self, at, number(count)),
            ["bring", _, count, what] => bring(alloc, self, run, at, number(count), what),
            ["remembered", _, sid] => remembered(alloc, self.core.tables(), at, sid),
            ["in turn", _] => self.in_turn(alloc, at),
            [call @ ("ask" | "send" | "why"), _, asked @ ..] => {
                self.ask(alloc, run, at, call, asked)
            }
            _ => told(alloc, "no such call"),
        }
    }

    // ---- requests

    // Parses an answer of the token endpoint.
    fn tokens(&self, alloc: Global, exchange: &str, answer: &[&str]) -> Result<C::Ask, NoMemory> {
        if self.party >= self.registry.parties() {
            return C::from_plain(alloc, RpAsk::NotHere);
        }
        let answer = answered(alloc, answer)?;
        let exchange = word_of(exchange);
        C::prepare_tokens(alloc, &self.registry, self.party, exchange, &answer)
    }

    // Parses a request.
    fn requested(&self, alloc: Global, fields: &[&str]) -> Result<C::Ask, NoMemory> {
        if self.party >= self.registry.parties() {
            return C::from_plain(alloc, RpAsk::NotHere);
        }
        let request = request(alloc, fields)?;
        C::prepare(alloc, &self.registry, self.party, &request)
    }

    // Parses an answer of UserInfo.
    fn info(alloc: Global, exchange: &str, answer: &[&str]) -> Result<C::Ask, NoMemory> {
        let answer = answered(alloc, answer)?;
        C::prepare_info(alloc, word_of(exchange), &answer)
    }

    // Parses a request, or an answer of the provider.
    fn asked(&self, alloc: Global, fields: &[&str]) -> Result<C::Ask, NoMemory> {
        match fields {
            ["tokens", exchange, answer @ ..] => self.tokens(alloc, exchange, answer),
            ["info", exchange, answer @ ..] => Self::info(alloc, exchange, answer),
            _ => self.requested(alloc, fields),
        }
    }

    // The lines of the replies of a new party of the registry's provider.
    fn in_turn(&self, alloc: Global, at: Moment) -> Result<String, NoMemory> {
        if self.party >= self.registry.parties() {
            return told(alloc, "no party");
        }
        let provider = provider_of(alloc, &self.registry, None)?;
        let registry = self.registry.copy(alloc)?;
        party_replies(alloc, registry, self.party, provider, at)
    }

    /// The answer to the call `ask`, `send` or `why`: about a request, or about an answer of the provider.
    pub fn ask(
        &mut self,
        alloc: Global,
        run: &mut Run,
        at: Moment,
        call: &str,
        fields: &[&str],
    ) -> Result<String, NoMemory> {
        let asked = self.asked(alloc, fields)?;
        let answer = self.core.step(alloc, at, run.words(), asked);
        step_told(alloc, run, call, self, &answer)
    }

    // ---- replies

    fn nothing_found(answer: &Result<C::Reply, CoreNo>) -> Option<bool> {
        match answer {
            Ok(reply) => Some(matches!(C::answer(reply), RpReply::NotHere)),
            Err(CoreNo::NoMemory) => None,
            Err(CoreNo::JournalFull(_)) => Some(false),
        }
    }

    // The message to the provider after a reply, if there is one.
    fn messages_in(alloc: Global, reply: &C::Reply) -> Result<Vec<Message>, NoMemory> {
        let mut messages = Vec::new(alloc);
        if let Some(sending) = C::message(alloc, reply)? {
            let Sending { message, .. } = sending;
            messages.push(message)?;
        }
        Ok(messages)
    }
}

// The place of the earlier request that a refusal names.
fn place_named(why: &RpNo) -> Option<u64> {
    match why {
        RpNo::Seen(place) | RpNo::EndedSid(place) => Some(*place),
        _ => None,
    }
}

// Adds that place.
fn push_place(alloc: Global, out: &mut String, reply: &RpReply) -> Result<(), NoMemory> {
    let RpReply::Refused { why } = reply else {
        return Ok(());
    };
    if let Some(place) = place_named(why) {
        out.push_str(format!(in alloc; ", place {place}")?.as_str())?;
    }
    Ok(())
}

// ---- table entries

fn push_row(alloc: Global, out: &mut String, kind: &str, number: u32) -> Result<(), NoMemory> {
    push_part(out, ", ", kind)?;
    out.push_str(number.to_string(alloc)?.as_str())?;
    Ok(())
}

fn push_session(
    alloc: Global,
    out: &mut String,
    number: u32,
    row: &SessionRow,
) -> Result<(), NoMemory> {
    push_row(alloc, out, "session ", number)?;
    let (sub, entered) = (row.sub.as_str(), row.entered.seconds());
    out.push_str(format!(in alloc; " of {sub} since {entered}")?.as_str())?;
    Ok(())
}

// What a pending exchange waits for.
fn stage_name(row: &PendingRow) -> &'static str {
    match row.stage {
        Stage::Tokens => "exchange ",
        Stage::Info => "fetch ",
    }
}

// Adds the entries of the tables for the word with this number.
fn push_held(
    alloc: Global,
    out: &mut String,
    tables: &Logins,
    number: u32,
) -> Result<(), NoMemory> {
    let word = case_lines::word(number);
    if tables.login(word).is_some() {
        push_row(alloc, out, "login ", number)?;
    }
    if let Some(row) = tables.pending(word) {
        push_row(alloc, out, stage_name(row), number)?;
    }
    if let Some(row) = tables.session(word) {
        push_session(alloc, out, number, row)?;
    }
    Ok(())
}

fn held(alloc: Global, tables: Option<&Logins>) -> Result<String, NoMemory> {
    let Some(tables) = tables else {
        return told(alloc, "no tables");
    };
    let mut out = String::new(alloc);
    for number in 1..64u32 {
        push_held(alloc, &mut out, tables, number)?;
    }
    or_else(out, "nothing")
}

// The logout token that named this session last, if it is remembered.
fn remembered(
    alloc: Global,
    tables: Option<&Logins>,
    at: Moment,
    sid: &str,
) -> Result<String, NoMemory> {
    let Some(tables) = tables else {
        return told(alloc, "no tables");
    };
    match tables.live_dead(sid.as_bytes(), at) {
        Some(row) => {
            let (place, accepted) = (row.place, row.accepted.seconds());
            Ok(format!(in alloc; "place {place} at {accepted}")?)
        }
        None => told(alloc, "nothing"),
    }
}

fn push_stored(
    alloc: Global,
    out: &mut String,
    kind: &str,
    place: u64,
    at: Moment,
) -> Result<(), NoMemory> {
    push_part(out, ", ", kind)?;
    let accepted = at.seconds();
    out.push_str(format!(in alloc; " of place {place} at {accepted}")?.as_str())?;
    Ok(())
}

// The rows of this name: of a logout token, and of a session that one named.
fn stored(alloc: Global, tables: Option<&Logins>, name: &str) -> Result<String, NoMemory> {
    let Some(tables) = tables else {
        return told(alloc, "no tables");
    };
    let mut out = String::new(alloc);
    if let Some(row) = tables.seen(name.as_bytes()) {
        push_stored(alloc, &mut out, "token", row.place, row.accepted)?;
    }
    if let Some(row) = tables.dead(name.as_bytes()) {
        push_stored(alloc, &mut out, "sid", row.place, row.accepted)?;
    }
    or_else(out, "nothing")
}
