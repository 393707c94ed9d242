// A configuration is read, or refused for the first reason that fits.

ghost use Rattle.std.specs.Prelude.{◌≡◌, ◌⊎◌, [], map, Some, None, Ok, Err, IfOk, IfErr};
ghost use Rattle.toml.specs.View.{view};
ghost use Rattle.client_registry.specs.Reading.{document_in, registry_read, rows_read, records_read};
ghost use Rattle.client_registry.specs.Configuration.{provider_table, configuration_of, salt_of};
ghost use Rattle.configuration_rows.specs.Rows.{rows_refusals};
ghost use Rattle.configuration_rows.specs.Versions.{version_in};
ghost use Rattle.client_registry.specs.Records as spec;
ghost use Rattle.client_registry.specs.Rules.{subjects_refusals, subjects_at, rows_broken};
ghost use Rattle.configuration_rows.specs.Refusals.{least};
ghost use Rattle.client_registry.specs.Registered.{IsRegistry, AllHoldClaims};

use crate::records::{Client, Party, User};
use crate::registry::Registry;
use crate::rows::{
    clients_of, full_pages_of, lasting_of, parties_of, provider_of, provider_title, settings_of,
    url_in, users_of, without_slash,
};
use crate::rules::judge_records;
use crate::subjects::{Subjects, subjects_of};
use configuration_rows::RegNo;
use configuration_rows::refusals::Refusals;
use configuration_rows::rows::judge_rows;
use configuration_rows::values::{hex_at, rows_at, table_at, text_or};
use configuration_rows::version::{Version, version_of};
use sso_base::{NoMemory, Text};
use std::alloc::Global;
use toml::{Table, Value};

// The greatest size of a configuration, in bytes.
const MOST: usize = 1_048_576;

// The table of which the bytes are the TOML text.
#[tactic(auto, using(crate::proofs::Documents::document_read, crate::proofs::Documents::document_refused))]
fn document(alloc: Global, bytes: &[u8]) -> Result<Value, RegNo>
    ensures ok { IfOk result (λ v. document_in bytes.now ≡ Some (view v)) }
    ensures err { IfErr result (λ e. (e ≡ RegNo.NoMemory) ⊎ ((e ≡ RegNo.NotToml) × (document_in bytes.now ≡ None))) }
{
    match toml::table_from_slice(alloc, bytes) {
        Ok(table) => Ok(Value::Table(table)),
        Err(error) => {
            if error.is_memory() {
                Err(RegNo::NoMemory)
            } else {
                Err(RegNo::NotToml)
            }
        }
    }
}

// Goes on where nothing was noted, and else answers what is answered.
#[tactic(auto, using(crate::proofs::Guiltless::nothing))]
fn unless_guilty(refusals: Refusals) -> Result<(), RegNo>
    ensures ok { IfOk result (λ u. refusals ≡ []) }
    ensures err { IfErr result (λ e. least refusals ≡ Some e) }
{
    match refusals.least() {
        Some(refusal) => Err(refusal),
        None => Ok(()),
    }
}

// The records of a configuration's rows.
#[derive(Drop)]
struct Rows {
    users: Vec<User>,
    clients: Vec<Client>,
    parties: Vec<Party>,
}

fn rows_of(alloc: Global, version: Version, root: &Value) -> Result<Rows, NoMemory>
    requires { version ≡ version_in (view root.now) }
    ensures users { IfOk result (λ r. r.users.items ≡ spec.users_of (view root.now)) }
    ensures claims { IfOk result (λ r. AllHoldClaims r.users.items) }
    ensures clients { IfOk result (λ r. r.clients.items ≡ spec.clients_of (view root.now)) }
    ensures parties { IfOk result (λ r. r.parties.items ≡ spec.parties_of (view root.now)) }
{
    let users = users_of(alloc, rows_at(root, "user"))?;
    let clients = clients_of(alloc, version, rows_at(root, "client"))?;
    let parties = parties_of(alloc, version, &clients, rows_at(root, "party"))?;
    Ok(Rows {
        users,
        clients,
        parties,
    })
}

fn judge_rules(alloc: Global, issuer: &str, rows: &Rows) -> Result<(), RegNo>
    ensures ok { IfOk result (λ u. rows_broken issuer.now rows.now ≡ []) }
    ensures err { IfErr result (λ e. (e ≡ RegNo.NoMemory) ⊎ (least (rows_broken issuer.now rows.now) ≡ Some e)) }
{
    let mut refusals = Refusals::new(alloc);
    judge_records(
        &mut refusals,
        issuer,
        &rows.users,
        &rows.clients,
        &rows.parties,
    )?;
    unless_guilty(refusals)
}

// The subjects of the users at each client, where those at one client differ.
fn judged_subjects(alloc: Global, salt: &[u8], rows: &Rows) -> Result<Vec<Subjects>, RegNo>
    ensures ok { IfOk result (λ v. v.items ≡ map (subjects_at salt.now rows.now.users.items) rows.now.clients.items) }
    ensures none { IfOk result (λ v. subjects_refusals salt.now rows.now.users.items rows.now.clients.items ≡ []) }
    ensures err { IfErr result (λ e. (e ≡ RegNo.NoMemory) ⊎ (least (subjects_refusals salt.now rows.now.users.items rows.now.clients.items) ≡ Some e)) }
{
    let mut refusals = Refusals::new(alloc);
    let subjects = subjects_of(&mut refusals, salt, &rows.users, &rows.clients)?;
    unless_guilty(refusals)?;
    Ok(subjects)
}

// The registry of records that keep all rules.
#[tactic(auto, unfolding(crate::specs::Configuration::configuration_of))]
fn registry_of(
    alloc: Global,
    version: Version,
    root: &Value,
    provider: &Value,
    rows: Rows,
    subjects: Vec<Subjects>,
) -> Result<Registry, NoMemory>
    requires version { version ≡ version_in (view root.now) }
    requires provider { view provider.now ≡ provider_table (view root.now) }
    requires users { rows.users.items ≡ spec.users_of (view root.now) }
    requires clients { rows.clients.items ≡ spec.clients_of (view root.now) }
    requires parties { rows.parties.items ≡ spec.parties_of (view root.now) }
    requires subjects { subjects.items ≡ map (subjects_at (salt_of (view root.now)) (spec.users_of (view root.now))) (spec.clients_of (view root.now)) }
    requires registry { IsRegistry (configuration_of (view root.now)) }
    ensures { IfOk result (λ r. r ≡ configuration_of (view root.now)) }
{
    let url = url_in(alloc, provider, "issuer")?;
    let title = provider_title(alloc, version, provider, url.host.as_str())?;
    Ok(Registry {
        provider: provider_of(alloc, text_or(provider, "issuer", ""))?,
        prefix: Text::new(alloc, without_slash(url.path.as_str()))?,
        listen: Text::new(alloc, text_or(provider, "listen", ""))?,
        secure: url.secure,
        users: rows.users,
        clients: rows.clients,
        parties: rows.parties,
        subjects,
        lasting: lasting_of(version, provider),
        full_pages: full_pages_of(version, provider),
        title,
        settings: settings_of(version, provider),
    })
}

// The registry of a configuration whose rows keep their rules.
#[tactic(auto, using(crate::proofs::Registering::registered), unfolding(crate::specs::Reading::records_read, crate::specs::Reading::subjects_read))]
fn records(
    alloc: Global,
    version: Version,
    root: &Value,
    provider: &Value,
) -> Result<Registry, RegNo>
    requires version { version ≡ version_in (view root.now) }
    requires provider { view provider.now ≡ provider_table (view root.now) }
    requires guiltless { rows_refusals (view root.now) ≡ [] }
    ensures ok { IfOk result (λ r. records_read (view root.now) ≡ Ok r) }
    ensures err { IfErr result (λ e. (e ≡ RegNo.NoMemory) ⊎ (records_read (view root.now) ≡ Err e)) }
{
    let rows = rows_of(alloc, version, root)?;
    judge_rules(alloc, text_or(provider, "issuer", ""), &rows)?;
    let salt = hex_at(alloc, provider, "salt")?;
    let subjects = judged_subjects(alloc, &salt, &rows)?;
    Ok(registry_of(alloc, version, root, provider, rows, subjects)?)
}

// The registry of a configuration of this version.
#[tactic(auto, unfolding(crate::specs::Reading::rows_read))]
fn configured(alloc: Global, version: Version, root: &Value) -> Result<Registry, RegNo>
    requires { version ≡ version_in (view root.now) }
    ensures ok { IfOk result (λ r. rows_read (view root.now) ≡ Ok r) }
    ensures err { IfErr result (λ e. (e ≡ RegNo.NoMemory) ⊎ (rows_read (view root.now) ≡ Err e)) }
{
    let empty = Value::Table(Table::new(alloc));
    let mut refusals = Refusals::new(alloc);
    judge_rows(&mut refusals, version, root, &empty)?;
    unless_guilty(refusals)?;
    records(alloc, version, root, table_at(root, "provider", &empty))
}

/// Reads a configuration, in TOML.
///
/// # Errors
///
/// The first one that applies, in the order of [`RegNo`]. Of several with the same number, the first in the order of the rows
/// is returned. The order is: the provider, each user, each client and each party, and within a row key by key.
pub fn read_registry(alloc: Global, bytes: &[u8]) -> Result<Registry, RegNo>
    ensures answers { IfOk result (λ r. registry_read bytes.now ≡ Ok r) }
    ensures registry { IfOk result (λ r. IsRegistry r) }
    ensures refuses { IfErr result (λ e. (e ≡ RegNo.NoMemory) ⊎ (registry_read bytes.now ≡ Err e)) }
{
    if bytes.len() > MOST {
        return Err(RegNo::TooLong);
    }
    let root = document(alloc, bytes)?;
    match version_of(&root) {
        Some(version) => configured(alloc, version, &root),
        None => Err(RegNo::Version),
    }
}
