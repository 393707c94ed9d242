// The keys of the configuration, each with its rule, row by row, in the order of its table. The second version has nine more
// keys: three for a client, five for the provider and one for a party.

ghost use Rattle.std.specs.Prelude.{◌≡◌, ◌++◌, map, OnOk};
ghost use Rattle.toml.specs.Data.{table, no_members};
ghost use Rattle.toml.specs.View.{view};
ghost use Rattle.configuration_rows.specs.declared.kind.Kind.TheVariants as kind;
ghost use Rattle.configuration_rows.specs.declared.kind.TextRule.TheVariants as rule;
ghost use Rattle.configuration_rows.specs.Refusals.{each};
ghost use Rattle.configuration_rows.specs.Rows as spec;
ghost use Rattle.configuration_rows.specs.Versions.{version_in};

use crate::keys::{array, optional, required};
use crate::kind::{Alphabet, Kind, TextRule};
use crate::logout_rule::logout_rule;
use crate::party_rules::{redirect_rule, type_rule};
use crate::refusals::Refusals;
use crate::row::Row;
use crate::server_keys::{host_cookies, party_keys, server_keys};
use crate::values::{rows_at, table_at, text_or};
use crate::version::Version;
use sso_base::NoMemory;
use toml::Value;

// A text with only characters of this alphabet, of a length within these bounds.
fn name_of(alphabet: Alphabet, least: usize, most: usize) -> Kind
    ensures { result ≡ kind.Text (rule.Name alphabet least most) }
{
    Kind::Text(TextRule::Name {
        alphabet,
        least,
        most,
    })
}

// A text of hexadecimal digits that encodes a number of bytes within these bounds.
fn hex_of(least: usize, most: usize) -> Kind
    ensures { result ≡ kind.Text (rule.Hex least most) }
{
    Kind::Text(TextRule::Hex { least, most })
}

// Checks whether the histories last, a key of the second version.
fn history_key(refusals: &mut Refusals, version: Version, values: &Value) -> Result<(), NoMemory>
    ensures { OnOk result (refusals.new ≡ refusals.old ++ spec.history_key version (view values.now)) }
{
    match version {
        Version::First => Ok(()),
        Version::Second => optional(
            refusals,
            Row::Provider,
            values,
            "history",
            Kind::Text(TextRule::History),
        ),
    }
}

// Checks which pages users get and the title on them, keys of the second version.
fn page_keys(refusals: &mut Refusals, version: Version, values: &Value) -> Result<(), NoMemory>
    ensures { OnOk result (refusals.new ≡ refusals.old ++ spec.page_keys version (view values.now)) }
{
    match version {
        Version::First => Ok(()),
        Version::Second => {
            let row = Row::Provider;
            optional(refusals, row, values, "pages", Kind::Text(TextRule::Pages))?;
            optional(refusals, row, values, "title", Kind::Text(TextRule::Title))
        }
    }
}

fn provider_row(refusals: &mut Refusals, version: Version, values: &Value) -> Result<(), NoMemory>
    ensures { OnOk result (refusals.new ≡ refusals.old ++ spec.provider_row version (view values.now)) }
{
    let row = Row::Provider;
    required(refusals, row, values, "issuer", Kind::Issuer)?;
    required(
        refusals,
        row,
        values,
        "listen",
        name_of(Alphabet::Visible, 1, 64),
    )?;
    required(refusals, row, values, "salt", hex_of(16, 64))?;
    history_key(refusals, version, values)?;
    page_keys(refusals, version, values)?;
    server_keys(refusals, version, values)
}

fn user_row(refusals: &mut Refusals, place: usize, values: &Value) -> Result<(), NoMemory>
    ensures { OnOk result (refusals.new ≡ refusals.old ++ spec.user_row place (view values.now)) }
{
    let row = Row::User(place);
    let rounds = Kind::Number {
        least: 1,
        most: 1_000_000,
    };
    required(
        refusals,
        row,
        values,
        "id",
        name_of(Alphabet::UserId, 1, 64),
    )?;
    required(refusals, row, values, "salt", hex_of(1, 64))?;
    required(refusals, row, values, "rounds", rounds)?;
    required(refusals, row, values, "proof", hex_of(32, 32))?;
    optional(refusals, row, values, "claims", Kind::Claims)
}

// Checks the old secret of a client. It is required if the client seals with it.
fn old_secret_rule(
    refusals: &mut Refusals,
    seals_old: bool,
    row: Row,
    values: &Value,
) -> Result<(), NoMemory>
    ensures { OnOk result (refusals.new ≡ refusals.old ++ spec.old_secret_rule seals_old row (view values.now)) }
{
    let secret = name_of(Alphabet::Visible, 0, 128);
    if seals_old {
        required(refusals, row, values, "old_secret", secret)
    } else {
        optional(refusals, row, values, "old_secret", secret)
    }
}

// Checks the secrets of a client that only the second version has.
fn old_secret_keys(
    refusals: &mut Refusals,
    version: Version,
    row: Row,
    values: &Value,
) -> Result<(), NoMemory>
    ensures { OnOk result (refusals.new ≡ refusals.old ++ spec.old_secret_keys version row (view values.now)) }
{
    match version {
        Version::First => Ok(()),
        Version::Second => {
            let seals_old = text_or(values, "seals", "") == "old";
            old_secret_rule(refusals, seals_old, row, values)?;
            optional(refusals, row, values, "seals", Kind::Text(TextRule::Seals))
        }
    }
}

fn client_names(
    refusals: &mut Refusals,
    version: Version,
    row: Row,
    values: &Value,
) -> Result<(), NoMemory>
    ensures { OnOk result (refusals.new ≡ refusals.old ++ spec.client_names version row (view values.now)) }
{
    required(
        refusals,
        row,
        values,
        "id",
        name_of(Alphabet::ClientId, 1, 64),
    )?;
    required(
        refusals,
        row,
        values,
        "secret",
        name_of(Alphabet::Visible, 0, 128),
    )?;
    old_secret_keys(refusals, version, row, values)?;
    required(refusals, row, values, "redirect_uris", Kind::Urls)?;
    optional(refusals, row, values, "response_types", Kind::ResponseTypes)
}

fn client_settings(
    refusals: &mut Refusals,
    parties: &[Value],
    row: Row,
    values: &Value,
) -> Result<(), NoMemory>
    ensures { OnOk result (refusals.new ≡ refusals.old ++ spec.client_settings (map view parties.now) row (view values.now)) }
{
    optional(
        refusals,
        row,
        values,
        "subject",
        Kind::Text(TextRule::Subject),
    )?;
    optional(
        refusals,
        row,
        values,
        "consent",
        Kind::Text(TextRule::Consent),
    )?;
    optional(refusals, row, values, "logout_uri", Kind::Url)?;
    logout_rule(refusals, parties, row, values)?;
    optional(refusals, row, values, "logout_session", Kind::Flag)
}

// Checks the title of a client, a key of the second version.
fn title_key(
    refusals: &mut Refusals,
    version: Version,
    row: Row,
    values: &Value,
) -> Result<(), NoMemory>
    ensures { OnOk result (refusals.new ≡ refusals.old ++ spec.title_key version row (view values.now)) }
{
    match version {
        Version::First => Ok(()),
        Version::Second => optional(refusals, row, values, "title", Kind::Text(TextRule::Title)),
    }
}

fn client_row(
    refusals: &mut Refusals,
    version: Version,
    parties: &[Value],
    place: usize,
    values: &Value,
) -> Result<(), NoMemory>
    ensures { OnOk result (refusals.new ≡ refusals.old ++ spec.client_row version (map view parties.now) place (view values.now)) }
{
    client_names(refusals, version, Row::Client(place), values)?;
    client_settings(refusals, parties, Row::Client(place), values)?;
    title_key(refusals, version, Row::Client(place), values)
}

fn party_names(
    refusals: &mut Refusals,
    clients: &[Value],
    row: Row,
    values: &Value,
) -> Result<(), NoMemory>
    ensures { OnOk result (refusals.new ≡ refusals.old ++ spec.party_names (map view clients.now) row (view values.now)) }
{
    required(
        refusals,
        row,
        values,
        "name",
        name_of(Alphabet::PartyName, 1, 16),
    )?;
    required(refusals, row, values, "client", Kind::Text(TextRule::Any))?;
    required(refusals, row, values, "redirect_uri", Kind::Url)?;
    redirect_rule(refusals, clients, row, values)?;
    required(
        refusals,
        row,
        values,
        "listen",
        name_of(Alphabet::Visible, 1, 64),
    )
}

fn party_request(
    refusals: &mut Refusals,
    clients: &[Value],
    row: Row,
    values: &Value,
) -> Result<(), NoMemory>
    ensures { OnOk result (refusals.new ≡ refusals.old ++ spec.party_request (map view clients.now) row (view values.now)) }
{
    let max_age = Kind::Number {
        least: 0,
        most: 999_999_999,
    };
    optional(
        refusals,
        row,
        values,
        "response_type",
        Kind::Text(TextRule::ResponseType),
    )?;
    type_rule(refusals, clients, row, values)?;
    optional(refusals, row, values, "scope", Kind::Text(TextRule::Scope))?;
    optional(
        refusals,
        row,
        values,
        "prompt",
        Kind::Text(TextRule::Prompt),
    )?;
    optional(refusals, row, values, "max_age", max_age)
}

fn party_settings(refusals: &mut Refusals, row: Row, values: &Value) -> Result<(), NoMemory>
    ensures { OnOk result (refusals.new ≡ refusals.old ++ spec.party_settings row (view values.now)) }
{
    optional(refusals, row, values, "userinfo", Kind::Flag)?;
    optional(refusals, row, values, "signed", Kind::Flag)
}

fn party_row(
    refusals: &mut Refusals,
    version: Version,
    host: bool,
    clients: &[Value],
    place: usize,
    values: &Value,
) -> Result<(), NoMemory>
    ensures { OnOk result (refusals.new ≡ refusals.old ++ spec.party_row version host (map view clients.now) place (view values.now)) }
{
    party_names(refusals, clients, Row::Party(place), values)?;
    party_request(refusals, clients, Row::Party(place), values)?;
    party_settings(refusals, Row::Party(place), values)?;
    party_keys(refusals, version, host, Row::Party(place), values)
}

fn user_rows(refusals: &mut Refusals, users: &[Value]) -> Result<(), NoMemory>
    ensures { OnOk result (refusals.new ≡ refusals.old ++ each spec.user_row (map view users.now)) }
{
    for (place, user) in users.iter().enumerate() {
        user_row(refusals, place, user)?;
    }
    Ok(())
}

fn client_rows(
    refusals: &mut Refusals,
    version: Version,
    parties: &[Value],
    clients: &[Value],
) -> Result<(), NoMemory>
    ensures { OnOk result (refusals.new ≡ refusals.old ++ each (spec.client_row version (map view parties.now)) (map view clients.now)) }
{
    for (place, client) in clients.iter().enumerate() {
        client_row(refusals, version, parties, place, client)?;
    }
    Ok(())
}

fn party_rows(
    refusals: &mut Refusals,
    version: Version,
    host: bool,
    clients: &[Value],
    parties: &[Value],
) -> Result<(), NoMemory>
    ensures { OnOk result (refusals.new ≡ refusals.old ++ each (spec.party_row version host (map view clients.now)) (map view parties.now)) }
{
    for (place, party) in parties.iter().enumerate() {
        party_row(refusals, version, host, clients, place, party)?;
    }
    Ok(())
}

// Checks the provider of a configuration.
fn provider(
    refusals: &mut Refusals,
    version: Version,
    root: &Value,
    empty: &Value,
) -> Result<(), NoMemory>
    requires version { version ≡ version_in (view root.now) }
    requires empty { view empty.now ≡ table no_members }
    ensures { OnOk result (refusals.new ≡ refusals.old ++ spec.provider_rows (view root.now)) }
{
    provider_row(refusals, version, table_at(root, "provider", empty))
}

// Checks the users of a configuration: their array, and its rows. So it is for clients and parties.
fn users(refusals: &mut Refusals, root: &Value) -> Result<(), NoMemory>
    ensures { OnOk result (refusals.new ≡ refusals.old ++ spec.users_rows (view root.now)) }
{
    array(refusals, root, "user")?;
    user_rows(refusals, rows_at(root, "user"))
}

fn clients(refusals: &mut Refusals, version: Version, root: &Value) -> Result<(), NoMemory>
    requires { version ≡ version_in (view root.now) }
    ensures { OnOk result (refusals.new ≡ refusals.old ++ spec.clients_rows (view root.now)) }
{
    array(refusals, root, "client")?;
    client_rows(
        refusals,
        version,
        rows_at(root, "party"),
        rows_at(root, "client"),
    )
}

fn parties(
    refusals: &mut Refusals,
    version: Version,
    root: &Value,
    empty: &Value,
) -> Result<(), NoMemory>
    requires version { version ≡ version_in (view root.now) }
    requires empty { view empty.now ≡ table no_members }
    ensures { OnOk result (refusals.new ≡ refusals.old ++ spec.parties_rows (view root.now)) }
{
    array(refusals, root, "party")?;
    let host = host_cookies(version, table_at(root, "provider", empty));
    party_rows(
        refusals,
        version,
        host,
        rows_at(root, "client"),
        rows_at(root, "party"),
    )
}

/// Appends the errors of the rows of a configuration of this version, in order. `empty` is an empty table.
#[tactic(auto, unfolding(crate::specs::Rows::rows_refusals))]
pub fn judge_rows(
    refusals: &mut Refusals,
    version: Version,
    root: &Value,
    empty: &Value,
) -> Result<(), NoMemory>
    requires version { version ≡ version_in (view root.now) }
    requires empty { view empty.now ≡ table no_members }
    ensures { OnOk result (refusals.new ≡ refusals.old ++ spec.rows_refusals (view root.now)) }
{
    provider(refusals, version, root, empty)?;
    users(refusals, root)?;
    clients(refusals, version, root)?;
    parties(refusals, version, root, empty)
}
