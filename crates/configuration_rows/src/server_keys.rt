// The names of cookies, and the workers of servers: keys of the second version.

ghost use Rattle.std.specs.Prelude.{◌≡◌, ◌++◌, ◌&&◌, IfOk, OnOk};
ghost use Rattle.toml.specs.View.{view};
ghost use Rattle.configuration_rows.specs.Values.{url_at as url_in};
ghost use Rattle.configuration_rows.specs.Rows as spec;

use crate::keys::optional;
use crate::kind::{Kind, TextRule};
use crate::no::RegNo;
use crate::refusals::Refusals;
use crate::row::Row;
use crate::values::{text_or, url_at};
use crate::version::Version;
use sso_base::NoMemory;
use std::alloc::Global;
use toml::Value;

/// Whether the names of cookies begin with `__Host-` (RFC 6265bis, 4.1.3.2), in the second version.
pub fn host_cookies(version: Version, provider: &Value) -> bool
    ensures { result ≡ spec.host_cookies version (view provider.now) }
{
    match version {
        Version::First => false,
        Version::Second => text_or(provider, "cookies", "") == "host",
    }
}

// Whether names of cookies begin with `__Host-`, and the URL at a key is not https.
fn lacks_https(alloc: Global, host: bool, values: &Value, key: &str) -> Result<bool, NoMemory>
    ensures { IfOk result (λ b. b ≡ (host && spec.is_http (url_in key.now (view values.now)))) }
{
    if !host {
        return Ok(false);
    }
    match url_at(alloc, values, key)? {
        Some(url) => Ok(!url.secure),
        None => Ok(false),
    }
}

// Checks that the issuer is https, if names of cookies begin with `__Host-`.
fn issuer_rule(refusals: &mut Refusals, host: bool, values: &Value) -> Result<(), NoMemory>
    ensures { OnOk result (refusals.new ≡ refusals.old ++ spec.issuer_rule host (view values.now)) }
{
    let alloc = refusals.alloc();
    if !lacks_https(alloc, host, values, "issuer")? {
        return Ok(());
    }
    refusals.note(RegNo::WrongKind(Row::Provider.path(alloc, "cookies")?))
}

// Checks that the redirect URI of a party is https, if names of cookies begin with `__Host-`.
fn https_rule(refusals: &mut Refusals, host: bool, row: Row, values: &Value) -> Result<(), NoMemory>
    ensures { OnOk result (refusals.new ≡ refusals.old ++ spec.https_rule host row (view values.now)) }
{
    let alloc = refusals.alloc();
    if !lacks_https(alloc, host, values, "redirect_uri")? {
        return Ok(());
    }
    refusals.note(RegNo::BadUrl(row.path(alloc, "redirect_uri")?))
}

// Checks how many workers serve requests at the same time.
fn workers_key(refusals: &mut Refusals, row: Row, values: &Value) -> Result<(), NoMemory>
    ensures { OnOk result (refusals.new ≡ refusals.old ++ spec.workers_key row (view values.now)) }
{
    let workers = Kind::Number { least: 4, most: 64 };
    optional(refusals, row, values, "workers", workers)
}

// Checks the names of cookies and the workers of the provider, keys of the second version.
pub(crate) fn server_keys(
    refusals: &mut Refusals,
    version: Version,
    values: &Value,
) -> Result<(), NoMemory>
    ensures { OnOk result (refusals.new ≡ refusals.old ++ spec.server_keys version (view values.now)) }
{
    match version {
        Version::First => Ok(()),
        Version::Second => {
            let row = Row::Provider;
            optional(
                refusals,
                row,
                values,
                "cookies",
                Kind::Text(TextRule::Cookies),
            )?;
            issuer_rule(refusals, host_cookies(version, values), values)?;
            workers_key(refusals, row, values)
        }
    }
}

// Checks what a party's row has in the second version. `host` is true if names of cookies begin with `__Host-`.
pub(crate) fn party_keys(
    refusals: &mut Refusals,
    version: Version,
    host: bool,
    row: Row,
    values: &Value,
) -> Result<(), NoMemory>
    ensures { OnOk result (refusals.new ≡ refusals.old ++ spec.party_keys version host row (view values.now)) }
{
    match version {
        Version::First => Ok(()),
        Version::Second => {
            https_rule(refusals, host, row, values)?;
            workers_key(refusals, row, values)
        }
    }
}
