// The table of registries: configurations, discovery documents, and queries of one.

mod configurations;
mod discovery;
mod registered;
mod sample;

use case_lines::{Cases, told};
use client_registry::{RegNo, Registry, read_registry};
use sso_base::NoMemory;
use std::alloc::Global;

/// The calls of this table, and their registry.
#[derive(Drop)]
pub struct RegistryCases {
    registry: Registry,
}

impl RegistryCases {
    /// The table with the sample's registry.
    pub fn new(alloc: Global) -> Result<RegistryCases, RegNo> {
        let file = sample::sample(alloc)?;
        let registry = read_registry(alloc, file.as_bytes())?;
        Ok(RegistryCases { registry })
    }
}

impl Cases for RegistryCases {
    fn answer(&mut self, alloc: Global, fields: &[&str]) -> Result<String, NoMemory> {
        match fields {
            ["registry", old, new] => configurations::registry(alloc, old, new),
            ["version", version, old, new] => configurations::version(alloc, version, old, new),
            ["secrets", version, old, new] => configurations::secrets(alloc, version, old, new),
            ["titles", version, old, new] => configurations::titles(alloc, version, old, new),
            ["settings", version, old, new] => configurations::settings(alloc, version, old, new),
            ["file", text] => configurations::file(alloc, text),
            ["users", count, text] => configurations::users(alloc, count, text),
            ["rows", users, clients, parties] => {
                configurations::rows(alloc, users, clients, parties)
            }
            ["provider"] => registered::provider(alloc, &self.registry),
            ["find", kind, name] => registered::find(alloc, &self.registry, kind, name),
            ["row", kind, number] => registered::row(alloc, &self.registry, kind, number),
            ["subject", client, user] => registered::subject(alloc, &self.registry, client, user),
            ["document"] => discovery::document(alloc, &self.registry),
            ["discovery", issuer, text] => discovery::discovery(alloc, issuer, text),
            ["less", name, members] => discovery::less(alloc, name, members),
            _ => told(alloc, "no such call"),
        }
    }

    fn text(&self, name: &str) -> Option<&str> {
        sample::text(name)
    }
}
