// The configuration with lines in the client of the shop.

use sample_configuration::{in_second_version, sample};
use sso_base::NoMemory;
use std::alloc::Global;

const LOGOUT: &str = "logout_session = true\n";

/// The configuration `sample` with these lines in the client `shop-client`. They are separated by ` / `.
pub fn configured(alloc: Global, lines: &str) -> Result<String, NoMemory> {
    let file = sample(alloc)?;
    let lines = lines.replace(alloc, " / ", "\n")?;
    let rows = [LOGOUT, lines.as_str(), "\n"].concat(alloc)?;
    Ok(file.replacen(alloc, LOGOUT, rows.as_str(), 1)?)
}

// The same in the second version, with these lines of the provider.
fn in_second(alloc: Global, lines: &str, provider: &str) -> Result<String, NoMemory> {
    let file = configured(alloc, lines)?;
    let second = in_second_version(alloc, file.as_str())?;
    Ok(second.replacen(alloc, "[provider]\n", provider, 1)?)
}

/// The same in the second version, with a history that lasts.
pub fn configured_lasting(alloc: Global, lines: &str) -> Result<String, NoMemory> {
    in_second(alloc, lines, "[provider]\nhistory = \"lasting\"\n")
}

/// The same in the second version, with full pages and a title.
pub fn configured_full(alloc: Global, lines: &str) -> Result<String, NoMemory> {
    let provider = "[provider]\npages = \"full\"\ntitle = \"Accounts\"\n";
    in_second(alloc, lines, provider)
}
