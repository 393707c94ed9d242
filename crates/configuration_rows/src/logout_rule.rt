// The rule for a client's logout URI and the parties that use the client.

ghost use Rattle.std.specs.Prelude.{◌≡◌, ◌++◌, map, codes, IfOk, OnOk};
ghost use Rattle.std.specs.List.{list_any};
ghost use Rattle.toml.specs.View.{view};
ghost use Rattle.configuration_rows.specs.Values.{text_at as text_in, url_at as url_in};
ghost use Rattle.configuration_rows.specs.Rows.{uses as uses_in, is_elsewhere as is_elsewhere_in, is_apart as is_apart_in, misplaced};
ghost use Rattle.configuration_rows.specs.Rows.{logout_rule as logout_rule_in};

use crate::no::RegNo;
use crate::refusals::Refusals;
use crate::row::Row;
use crate::values::{text_at, url_at};
use oidc_words::LEAVE_PATH;
use registered_url::WebUrl;
use sso_base::NoMemory;
use std::alloc::Global;
use toml::Value;

// Whether the party of this row uses the client with this id.
fn uses(id: &str, party: &Value) -> bool
    ensures { result ≡ uses_in id.now (view party.now) }
{
    match text_at(party, "client") {
        Some(client) => id == client,
        None => false,
    }
}

// Whether the party's redirect URI has another scheme, host or port.
fn is_elsewhere(alloc: Global, url: &WebUrl, party: &Value) -> Result<bool, NoMemory>
    ensures { IfOk result (λ b. b ≡ is_elsewhere_in url.now (url_in (codes "redirect_uri") (view party.now))) }
{
    match url_at(alloc, party, "redirect_uri")? {
        Some(other) => Ok(!url.is_same_server(&other)),
        None => Ok(false),
    }
}

// Whether the party uses the client and the logout URI does not fit it.
fn is_apart(alloc: Global, id: &str, url: &WebUrl, party: &Value) -> Result<bool, NoMemory>
    ensures { IfOk result (λ b. b ≡ is_apart_in id.now url.now (view party.now)) }
{
    if !uses(id, party) {
        return Ok(false);
    }
    if url.path.as_str() == LEAVE_PATH {
        return Ok(true);
    }
    is_elsewhere(alloc, url, party)
}

fn is_apart_from_one(
    alloc: Global,
    id: &str,
    url: &WebUrl,
    parties: &[Value],
) -> Result<bool, NoMemory>
    ensures { IfOk result (λ b. b ≡ list_any (is_apart_in id.now url.now) (map view parties.now)) }
{
    for party in parties {
        if is_apart(alloc, id, url, party)? {
            return Ok(true);
        }
    }
    Ok(false)
}

fn is_misplaced(alloc: Global, parties: &[Value], client: &Value) -> Result<bool, NoMemory>
    ensures { IfOk result (λ b. b ≡ misplaced (map view parties.now) (text_in (codes "id") (view client.now)) (url_in (codes "logout_uri") (view client.now))) }
{
    let Some(id) = text_at(client, "id") else {
        return Ok(false);
    };
    match url_at(alloc, client, "logout_uri")? {
        Some(url) => is_apart_from_one(alloc, id, &url, parties),
        None => Ok(false),
    }
}

// Checks the logout URI of a client. If a party uses the client, the URI has the scheme, host and port of that party's redirect
// URI, and its path is not the party's sign-out path.
pub(crate) fn logout_rule(
    refusals: &mut Refusals,
    parties: &[Value],
    row: Row,
    client: &Value,
) -> Result<(), NoMemory>
    ensures { OnOk result (refusals.new ≡ refusals.old ++ logout_rule_in (map view parties.now) row (view client.now)) }
{
    let alloc = refusals.alloc();
    if !is_misplaced(alloc, parties, client)? {
        return Ok(());
    }
    refusals.note(RegNo::WrongKind(row.path(alloc, "logout_uri")?))
}
