// The calls of the table `party`.

use crate::cores::Begins;
use crate::roles::{Role, Roles};
use crate::setup::{
    ELSEWHERE, ELSEWHERE_AUTHORIZE, LOCAL, configuration, configuration_with,
    configuration_with_pages,
};
use case_lines::number;
use sso_base::NoMemory;
use std::alloc::Global;

fn begin_provider<C: Begins>(alloc: Global, roles: &mut Roles<C>) -> Result<String, NoMemory> {
    let file = configuration(alloc, LOCAL)?;
    roles.begin_provider(alloc, file.as_str())
}

// The same if clients have two secrets.
fn begin_changing_provider<C: Begins>(
    alloc: Global,
    roles: &mut Roles<C>,
    secrets: &str,
) -> Result<String, NoMemory> {
    let file = configuration_with(alloc, secrets)?;
    roles.begin_provider(alloc, file.as_str())
}

// Begins a relying party of the provider of the cases.
fn begin_party<C: Begins>(
    alloc: Global,
    roles: &mut Roles<C>,
    name: &str,
) -> Result<String, NoMemory> {
    let file = configuration(alloc, LOCAL)?;
    roles.begin_party(alloc, file.as_str(), name, None)
}

// The same if its client has two secrets.
fn begin_changing_party<C: Begins>(
    alloc: Global,
    roles: &mut Roles<C>,
    name: &str,
    secrets: &str,
) -> Result<String, NoMemory> {
    let file = configuration_with(alloc, secrets)?;
    roles.begin_party(alloc, file.as_str(), name, None)
}

// The same with full pages.
fn begin_full_party<C: Begins>(
    alloc: Global,
    roles: &mut Roles<C>,
    name: &str,
) -> Result<String, NoMemory> {
    let file = configuration_with_pages(alloc)?;
    roles.begin_party(alloc, file.as_str(), name, None)
}

// Begins a relying party of the other provider.
fn begin_elsewhere<C: Begins>(
    alloc: Global,
    roles: &mut Roles<C>,
    name: &str,
) -> Result<String, NoMemory> {
    let file = configuration(alloc, ELSEWHERE)?;
    roles.begin_party(alloc, file.as_str(), name, Some(ELSEWHERE_AUTHORIZE))
}

/// The answer to a call: `party|NAME`, `party|NAME|elsewhere`, `party|NAME|full pages` and `provider` begin a role. With `two
/// secrets` or `old seals` at the end, clients have two secrets. A call after `provider` goes to the provider, and every other
/// call to the relying party, as often as `times|COUNT` before it says.
pub fn answer<C: Begins>(
    alloc: Global,
    roles: &mut Roles<C>,
    fields: &[&str],
) -> Result<String, NoMemory> {
    match fields {
        ["party", name] => begin_party(alloc, roles, name),
        ["party", name, "elsewhere"] => begin_elsewhere(alloc, roles, name),
        ["party", name, "full pages"] => begin_full_party(alloc, roles, name),
        ["party", name, secrets] => begin_changing_party(alloc, roles, name, secrets),
        ["provider"] => begin_provider(alloc, roles),
        ["provider", secrets @ ("two secrets" | "old seals")] => {
            begin_changing_provider(alloc, roles, secrets)
        }
        ["provider", call @ ..] => roles.ask_provider(alloc, call),
        ["times", count, call @ ..] => { roles.ask_often(alloc, Role::Party, number(count), call) }
        _ => roles.ask_party(alloc, fields),
    }
}
