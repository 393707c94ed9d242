// Writes and reads answers to token requests.

use case_lines::{claim_refusal, hex_word, told, told_bytes, told_refusal};
use sso_base::{Answered, Blob, NoMemory, Text, Word};
use std::alloc::Global;
use token_endpoint::{TokenError, Tokens, TokensNo, print_token_error, print_tokens, read_tokens};

fn printed(alloc: Global, access: &Word, id: &str) -> Result<String, NoMemory> {
    let body = print_tokens(alloc, access, &Text::new(alloc, id)?)?;
    told_bytes(alloc, body.as_bytes())
}

/// `print_tokens|ACCESS|ID`: the body with the access token of a word, and an ID Token.
pub fn print(alloc: Global, access: &str, id: &str) -> Result<String, NoMemory> {
    match hex_word(access) {
        Some(access) => printed(alloc, &access, id),
        None => told(alloc, "no word"),
    }
}

fn error_named(code: &str) -> Option<TokenError> {
    match code {
        "invalid_request" => Some(TokenError::InvalidRequest),
        "invalid_client" => Some(TokenError::InvalidClient),
        "invalid_grant" => Some(TokenError::InvalidGrant),
        "unsupported_grant_type" => Some(TokenError::UnsupportedGrantType),
        _ => None,
    }
}

/// `print_token_error|CODE`: the body with an error.
pub fn print_error(alloc: Global, code: &str) -> Result<String, NoMemory> {
    match error_named(code) {
        Some(error) => {
            let body = print_token_error(alloc, error)?;
            told_bytes(alloc, body.as_bytes())
        }
        None => told(alloc, "no such error"),
    }
}

// The name of a refusal, and the member that it names.
fn refusal(why: &TokensNo) -> (&str, &str) {
    match why {
        TokensNo::Status(_) => ("Status", ""),
        TokensNo::Claims(why) => claim_refusal(why),
        TokensNo::Missing(name) => ("Missing", name.as_str()),
        TokensNo::NotBearer => ("NotBearer", ""),
        TokensNo::NoMemory => ("NoMemory", ""),
    }
}

fn told_tokens(alloc: Global, answer: &Result<Tokens, TokensNo>) -> Result<String, NoMemory> {
    match answer {
        Ok(tokens) => {
            let (access, id) = (tokens.access.as_str(), tokens.id.as_str());
            Ok(format!(in alloc; "access token {access:?}, ID Token {id:?}")?)
        }
        Err(TokensNo::Status(status)) => Ok(format!(in alloc; "Status {status}")?),
        Err(why) => told_refusal(alloc, refusal(why)),
    }
}

fn read_answer(alloc: Global, status: u16, body: Blob) -> Result<String, NoMemory> {
    let answer = read_tokens(alloc, &Answered { status, body });
    told_tokens(alloc, &answer)
}

/// `read_tokens|STATUS|BODY`: the tokens of an answer, or why it is refused.
pub fn read(alloc: Global, status: &str, body: &str) -> Result<String, NoMemory> {
    match status.parse::<u16>() {
        Ok(status) => read_answer(alloc, status, Blob::new(alloc, body.as_bytes())?),
        Err(_) => told(alloc, "no status"),
    }
}
