// The table of authorization requests: their parameters, their verification, their needs, and request objects.

mod judgement;
mod needs;
mod parameters;
pub mod request_objects;
mod sample;

use crate::urls;
use case_lines::{Cases, told};
use client_registry::{RegNo, Registry, read_registry};
use sso_base::NoMemory;
use std::alloc::Global;

/// The calls of this table, and their registry.
#[derive(Drop)]
pub struct RequestCases {
    registry: Registry,
}

impl RequestCases {
    /// The table with the sample's registry.
    pub fn new(alloc: Global) -> Result<RequestCases, RegNo> {
        let file = sample::sample(alloc)?;
        let registry = read_registry(alloc, file.as_bytes())?;
        Ok(RequestCases { registry })
    }
}

impl Cases for RequestCases {
    fn answer(&mut self, alloc: Global, fields: &[&str]) -> Result<String, NoMemory> {
        let registry = &self.registry;
        match fields {
            ["form", form] => parameters::form(alloc, form),
            ["merge", outer, inner] => parameters::merge_forms(alloc, outer, inner),
            ["location", endpoint, form] => parameters::location(alloc, endpoint, form),
            ["query", url, pairs] => parameters::query(alloc, url, pairs),
            ["fragment", url, pairs] => parameters::fragment(alloc, url, pairs),
            ["judge", changes] => judgement::judge_short(alloc, registry, changes),
            ["judge_whole", changes] => judgement::judge_whole(alloc, registry, changes),
            ["need", changes, session, at] => needs::need(alloc, registry, changes, session, at),
            ["needed_scopes", changes] => needs::scopes_needed(alloc, registry, changes),
            _ => object_answer(alloc, registry, fields),
        }
    }

    fn text(&self, name: &str) -> Option<&str> {
        sample::text(name)
    }
}

// The answers to the calls about request objects.
fn object_answer(alloc: Global, registry: &Registry, fields: &[&str]) -> Result<String, NoMemory> {
    match fields {
        ["object", id, claims] => request_objects::object(alloc, registry, id, claims),
        ["object_under", key, claims] => {
            request_objects::object_under(alloc, registry, key, claims)
        }
        ["unseal_request", object] => {
            request_objects::unseal(alloc, registry, "mail-client", object)
        }
        ["unseal_request", id, object] => request_objects::unseal(alloc, registry, id, object),
        ["seal_request", pairs] => request_objects::seal(alloc, registry, "mail-client", pairs),
        ["seal_request", id, pairs] => request_objects::seal(alloc, registry, id, pairs),
        _ => url_answer(alloc, fields),
    }
}

// The answers to the calls about URLs.
fn url_answer(alloc: Global, fields: &[&str]) -> Result<String, NoMemory> {
    match fields {
        ["url", text] => urls::url(alloc, text),
        ["same_server", one, other] => urls::same_server(alloc, one, other),
        ["query_names", url] => urls::query_names(alloc, url),
        ["urls", one, other] => urls::urls(alloc, one, other),
        _ => told(alloc, "no such call"),
    }
}
