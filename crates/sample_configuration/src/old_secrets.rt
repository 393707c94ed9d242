// Configurations whose clients have an old secret too.

use sso_base::NoMemory;
use std::alloc::Global;

/// The line after which a client seals with its old secret.
pub const OLD_SEALS: &str = "seals = \"old\"\n";

/// The configuration in the second version, which has the keys `old_secret` and `seals` of a client.
pub fn in_second_version(alloc: Global, file: &str) -> Result<String, NoMemory> {
    Ok(file.replacen(alloc, "version = 1", "version = 2", 1)?)
}

/// The secret of the client of a party, as `shop-secret-shop-secret-shop-secret`, or its old secret, as
/// `shop-oldies-shop-oldies-shop-oldies`.
pub fn secret_of(alloc: Global, party: &str, is_old: bool) -> Result<String, NoMemory> {
    let word = if is_old { "oldies" } else { "secret" };
    Ok(format!(in alloc; "{party}-{word}-{party}-{word}-{party}-{word}")?)
}

/// The configuration with the old secret of the client of this party, and these lines after it. A configuration without this
/// client stays as it is.
pub fn with_old_secret(
    alloc: Global,
    file: &str,
    party: &str,
    lines: &str,
) -> Result<String, NoMemory> {
    let secret = secret_of(alloc, party, false)?;
    let old = secret_of(alloc, party, true)?;
    let row = ["secret = \"", secret.as_str(), "\"\n"].concat(alloc)?;
    let rows = [row.as_str(), "old_secret = \"", old.as_str(), "\"\n", lines].concat(alloc)?;
    Ok(file.replacen(alloc, row.as_str(), rows.as_str(), 1)?)
}

/// The configuration with the old secrets of the clients of `shop`, `news` and `mail`, and these lines after each.
pub fn with_old_secrets(alloc: Global, file: &str, lines: &str) -> Result<String, NoMemory> {
    let first = with_old_secret(alloc, file, "shop", lines)?;
    let second = with_old_secret(alloc, first.as_str(), "news", lines)?;
    with_old_secret(alloc, second.as_str(), "mail", lines)
}

/// The same in the second version.
pub fn with_two_secrets(alloc: Global, file: &str, lines: &str) -> Result<String, NoMemory> {
    let both = with_old_secrets(alloc, file, lines)?;
    in_second_version(alloc, both.as_str())
}
