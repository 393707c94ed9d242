// The tables of a relying party are filled.

use crate::cores::Begins;
use crate::party::RelyingParty;
use crate::sealed;
use case_lines::{Run, told};
use sso_base::{Moment, NoMemory, Text, Word};
use std::alloc::Global;

// The number of a word, which is written in its last four bytes.
fn number_of(word: Word) -> u32 {
    let bytes = word.bytes();
    u32::from_be_bytes([bytes[28], bytes[29], bytes[30], bytes[31]])
}

// A begun login: the words of its browser, its state and its nonce.
#[derive(Clone, Copy)]
struct Begun {
    browser: Word,
    state: Word,
    nonce: Word,
}

fn begin<C: Begins>(
    alloc: Global,
    party: &mut RelyingParty<C>,
    run: &mut Run,
    at: Moment,
) -> Result<Begun, NoMemory> {
    let [browser, state, nonce, _] = run.words();
    party.ask(alloc, run, at, "ask", &["GET", "/login"])?;
    Ok(Begun {
        browser,
        state,
        nonce,
    })
}

// A login, and its response with a code. Returns the answer to the latter.
fn bring_code<C: Begins>(
    alloc: Global,
    party: &mut RelyingParty<C>,
    run: &mut Run,
    at: Moment,
) -> Result<String, NoMemory> {
    let begun = begin(alloc, party, run, at)?;
    let (browser, state) = (begun.browser.to_text(alloc)?, begun.state.to_text(alloc)?);
    let target = format!(in alloc; "/cb?code=a&state={}", state.as_str())?;
    let fields = ["GET", target.as_str(), "-", browser.as_str()];
    party.ask(alloc, run, at, "ask", &fields)
}

// The ID Token for a login of alice at `blog`.
fn id_token(alloc: Global, at: Moment, nonce: Word) -> Result<Option<Text>, NoMemory> {
    let (at, nonce) = (at.seconds(), number_of(nonce));
    let name = format!(in alloc; "blog,blog-client,alice,{nonce},{at},-")?;
    sealed::token(alloc, name.as_str())
}

// The form of a login's response with this ID Token.
fn response(alloc: Global, token: &Option<Text>, state: Word) -> Result<String, NoMemory> {
    let state = state.to_text(alloc)?;
    let token = token_text(token);
    Ok(format!(in alloc; "id_token={token}&state={}", state.as_str())?)
}

fn token_text(token: &Option<Text>) -> &str {
    match token {
        Some(token) => token.as_str(),
        None => "none",
    }
}

// A login, and its response with an ID Token. Returns the answer to the latter.
fn bring_id_token<C: Begins>(
    alloc: Global,
    party: &mut RelyingParty<C>,
    run: &mut Run,
    at: Moment,
) -> Result<String, NoMemory> {
    let begun = begin(alloc, party, run, at)?;
    let token = id_token(alloc, at, begun.nonce)?;
    let form = response(alloc, &token, begun.state)?;
    let browser = begun.browser.to_text(alloc)?;
    let fields = ["POST", "/cb", form.as_str(), browser.as_str()];
    party.ask(alloc, run, at, "ask", &fields)
}

// A logout token at `shop` with these claims. Returns the answer to it.
fn bring_logout_token<C: Begins>(
    alloc: Global,
    party: &mut RelyingParty<C>,
    run: &mut Run,
    at: Moment,
    claims: &str,
) -> Result<String, NoMemory> {
    let seconds = at.seconds();
    let name = format!(in alloc; "logout shop,{seconds},{claims}")?;
    let token = sealed::token(alloc, name.as_str())?;
    let form = format!(in alloc; "logout_token={}", token_text(&token))?;
    party.ask(alloc, run, at, "ask", &["POST", "/logout", form.as_str()])
}

// The answer to the last request of one round.
fn bring_one<C: Begins>(
    alloc: Global,
    party: &mut RelyingParty<C>,
    run: &mut Run,
    at: Moment,
    what: &str,
    number: u32,
) -> Result<String, NoMemory> {
    match what {
        "codes" => bring_code(alloc, party, run, at),
        "ID Tokens" => bring_id_token(alloc, party, run, at),
        "logout tokens" => {
            let claims = format!(in alloc; "jti=a{number},sub=alice")?;
            bring_logout_token(alloc, party, run, at, claims.as_str())
        }
        "logout tokens of sessions" => {
            let claims = format!(in alloc; "jti=a{number},sid=s{number}")?;
            bring_logout_token(alloc, party, run, at, claims.as_str())
        }
        _ => told(alloc, "no such call"),
    }
}

/// Brings so many of these: `codes` and `ID Tokens`, each to a login that is begun for it, `logout tokens` or `logout tokens of
/// sessions`. Returns the answer to the first, and how many have that answer.
pub fn bring<C: Begins>(
    alloc: Global,
    party: &mut RelyingParty<C>,
    run: &mut Run,
    at: Moment,
    count: u32,
    what: &str,
) -> Result<String, NoMemory> {
    let first = bring_one(alloc, party, run, at, what, 0)?;
    let mut same: u32 = 1;
    for number in 1..count {
        let next = bring_one(alloc, party, run, at, what, number)?;
        if next.as_str() == first.as_str() {
            same = same.wrapping_add(1);
        }
    }
    Ok(format!(in alloc; "{}, {same} times", first.as_str())?)
}
