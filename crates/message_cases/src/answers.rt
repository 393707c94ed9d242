// The table of the answers of a sign-on: authorization responses, token requests, UserInfo requests, and their answers.

mod error_codes;
mod messages;
mod responses;
mod sample;
mod token_answers;
mod token_requests;
mod user_info;

use case_lines::{Cases, told};
use client_registry::{RegNo, Registry, read_registry};
use sso_base::NoMemory;
use std::alloc::Global;

/// The calls of this table, and their registry.
#[derive(Drop)]
pub struct AnswerCases {
    registry: Registry,
}

impl AnswerCases {
    /// The table with the sample's registry.
    pub fn new(alloc: Global) -> Result<AnswerCases, RegNo> {
        let file = sample::sample(alloc)?;
        let registry = read_registry(alloc, file.as_bytes())?;
        Ok(AnswerCases { registry })
    }
}

impl Cases for AnswerCases {
    fn answer(&mut self, alloc: Global, fields: &[&str]) -> Result<String, NoMemory> {
        let registry = &self.registry;
        match fields {
            ["read_grant", auth, body] => token_requests::read(alloc, registry, auth, body),
            ["print_grant", client, code, redirect] => {
                token_requests::print(alloc, registry, client, code, redirect)
            }
            ["print_tokens", access, id] => token_answers::print(alloc, access, id),
            ["print_token_error", code] => token_answers::print_error(alloc, code),
            ["read_tokens", status, body] => token_answers::read(alloc, status, body),
            ["info_claims", client, user, scopes, asked] => {
                user_info::info(alloc, registry, (client, user), scopes, asked)
            }
            ["held_claims", user, scopes, asked] => {
                user_info::held(alloc, registry, user, scopes, asked)
            }
            ["read_bearer", header] => user_info::bearer(alloc, header),
            ["print_info", endpoint, access] => user_info::print(alloc, endpoint, access),
            ["read_info", status, body] => user_info::read(alloc, status, body),
            _ => response_answer(alloc, fields),
        }
    }

    fn text(&self, name: &str) -> Option<&str> {
        sample::text(name)
    }
}

// The answers to the calls about authorization responses.
fn response_answer(alloc: Global, fields: &[&str]) -> Result<String, NoMemory> {
    match fields {
        ["error_codes"] => error_codes::all(alloc),
        ["error_text", name] => error_codes::text(alloc, name),
        ["read_error", text] => error_codes::read(alloc, text),
        ["print_answer", redirect, place, code, access, id, state] => {
            responses::print(alloc, (redirect, place), (code, access), id, state)
        }
        ["print_refusal", redirect, place, code, state] => {
            responses::refuse(alloc, (redirect, place), code, state)
        }
        ["read_answer", form] => responses::read(alloc, form),
        _ => told(alloc, "no such call"),
    }
}
