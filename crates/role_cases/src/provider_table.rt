// The calls of the table `provider`.

use crate::configurations::configuration;
use crate::cores::Begins;
use crate::roles::{Role, Roles};
use case_lines::number;
use sso_base::NoMemory;
use std::alloc::Global;

fn begin<C: Begins>(alloc: Global, roles: &mut Roles<C>, name: &str) -> Result<String, NoMemory> {
    let file = configuration(alloc, name)?;
    roles.begin_provider(alloc, file.as_str())
}

/// The answer to a call: `provider|NAME` begins a provider, and every other call goes to it, as often as `times|COUNT` before it
/// says.
pub fn answer<C: Begins>(
    alloc: Global,
    roles: &mut Roles<C>,
    fields: &[&str],
) -> Result<String, NoMemory> {
    match fields {
        ["provider", name] => begin(alloc, roles, name),
        ["times", count, call @ ..] => {
            roles.ask_often(alloc, Role::Provider, number(count), call)
        }
        _ => roles.ask_provider(alloc, fields),
    }
}
