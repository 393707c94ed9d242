// Reads configurations.

use crate::registries::sample::{ALONE, changed};
use case_lines::{told, told_refusal, written};
use client_registry::{Client, RegNo, Registry, read_registry};
use sso_base::{NoMemory, Text};
use std::alloc::Global;

// The name of a refusal, and its text, or the first of several texts.
fn refusal(why: &RegNo) -> (&str, &str) {
    match why {
        RegNo::NoMemory => ("NoMemory", ""),
        RegNo::TooLong => ("TooLong", ""),
        RegNo::NotToml => ("NotToml", ""),
        RegNo::Version => ("Version", ""),
        RegNo::Missing(path) => ("Missing", path.as_str()),
        RegNo::WrongKind(path) => ("WrongKind", path.as_str()),
        RegNo::BadUrl(path) => ("BadUrl", path.as_str()),
        RegNo::Twice(name) => ("Twice", name.as_str()),
        RegNo::ShortSecret(client) => ("ShortSecret", client.as_str()),
        RegNo::TooMany(kind) => ("TooMany", kind.as_str()),
        RegNo::MixedHosts(client) => ("MixedHosts", client.as_str()),
        RegNo::UnknownClient(party) => ("UnknownClient", party.as_str()),
        RegNo::SubjectClash(client, _, _) => ("SubjectClash", client.as_str()),
    }
}

// The numbers of rows, and whether the histories last.
fn counts(alloc: Global, registry: &Registry) -> Result<String, NoMemory> {
    let (users, clients) = (registry.users(), registry.clients());
    let parties = registry.parties();
    let lasting = if registry.lasting() { ", lasting" } else { "" };
    Ok(format!(in alloc; "{users} users, {clients} clients, {parties} parties{lasting}")?)
}

fn told_registry(alloc: Global, answer: &Result<Registry, RegNo>) -> Result<String, NoMemory> {
    match answer {
        Ok(registry) => counts(alloc, registry),
        Err(why) => told_refusal(alloc, refusal(why)),
    }
}

// The number of rows of a file, or why it is rejected.
fn read(alloc: Global, file: &[u8]) -> Result<String, NoMemory> {
    let answer = read_registry(alloc, file);
    told_registry(alloc, &answer)
}

// The sample with the first OLD replaced by NEW.
fn sample_with(alloc: Global, old: &str, new: &str) -> Result<String, NoMemory> {
    let old = case_lines::given(old).unwrap_or("");
    let new = case_lines::given(new).unwrap_or("");
    let new = written(alloc, new.replace(alloc, " / ", "\n")?.as_str())?;
    changed(alloc, old, new.as_str())
}

/// `registry|OLD|NEW`: the sample with the first OLD replaced by NEW. ` / ` is a line feed.
pub fn registry(alloc: Global, old: &str, new: &str) -> Result<String, NoMemory> {
    let file = sample_with(alloc, old, new)?;
    read(alloc, file.as_bytes())
}

// The same with this version.
fn sample_of(alloc: Global, version: &str, old: &str, new: &str) -> Result<String, NoMemory> {
    let file = sample_with(alloc, old, new)?;
    let line = ["version = ", version].concat(alloc)?;
    Ok(
        file.as_str()
            .replacen(alloc, "version = 1", line.as_str(), 1)?,
    )
}

/// `version|VERSION|OLD|NEW`: the same with this version.
pub fn version(alloc: Global, version: &str, old: &str, new: &str) -> Result<String, NoMemory> {
    let file = sample_of(alloc, version, old, new)?;
    read(alloc, file.as_bytes())
}

fn told_secrets(alloc: Global, client: &Client) -> Result<String, NoMemory> {
    let (secret, sealing) = (client.secret.as_str(), client.sealing().as_str());
    let old = client.old_secret.as_ref().map_or("-", Text::as_str);
    Ok(format!(in alloc; "secret {secret}, old secret {old}, seals with {sealing}")?)
}

fn first_secrets(alloc: Global, answer: &Result<Registry, RegNo>) -> Result<String, NoMemory> {
    match answer {
        Ok(registry) if 0 < registry.clients() => told_secrets(alloc, registry.client(0)),
        Ok(_) => told(alloc, "no client"),
        Err(why) => told_refusal(alloc, refusal(why)),
    }
}

/// `secrets|VERSION|OLD|NEW`: the secrets of its first client, and the one with which that seals.
pub fn secrets(alloc: Global, version: &str, old: &str, new: &str) -> Result<String, NoMemory> {
    let file = sample_of(alloc, version, old, new)?;
    let answer = read_registry(alloc, file.as_bytes());
    first_secrets(alloc, &answer)
}

fn told_titles(alloc: Global, registry: &Registry) -> Result<String, NoMemory> {
    let pages = if registry.full_pages() {
        "full"
    } else {
        "plain"
    };
    let title = registry.title().as_str();
    let client = if 0 < registry.clients() {
        registry.client(0).title.as_str()
    } else {
        "-"
    };
    Ok(format!(in alloc; "{pages} pages, provider {title}, first client {client}")?)
}

fn all_titles(alloc: Global, answer: &Result<Registry, RegNo>) -> Result<String, NoMemory> {
    match answer {
        Ok(registry) => told_titles(alloc, registry),
        Err(why) => told_refusal(alloc, refusal(why)),
    }
}

/// `titles|VERSION|OLD|NEW`: its pages, and the titles of the provider and of its first client.
pub fn titles(alloc: Global, version: &str, old: &str, new: &str) -> Result<String, NoMemory> {
    let file = sample_of(alloc, version, old, new)?;
    let answer = read_registry(alloc, file.as_bytes());
    all_titles(alloc, &answer)
}

fn told_settings(alloc: Global, registry: &Registry) -> Result<String, NoMemory> {
    let cookies = if registry.host_cookies() {
        "host"
    } else {
        "plain"
    };
    let workers = registry.workers();
    let first = if 0 < registry.parties() {
        registry.party(0).settings.workers
    } else {
        0
    };
    Ok(format!(in alloc; "{cookies} cookies, {workers} workers, first party {first}")?)
}

fn all_settings(alloc: Global, answer: &Result<Registry, RegNo>) -> Result<String, NoMemory> {
    match answer {
        Ok(registry) => told_settings(alloc, registry),
        Err(why) => told_refusal(alloc, refusal(why)),
    }
}

/// `settings|VERSION|OLD|NEW`: the names of its cookies, and the workers of the provider and of its first party.
pub fn settings(alloc: Global, version: &str, old: &str, new: &str) -> Result<String, NoMemory> {
    let file = sample_of(alloc, version, old, new)?;
    let answer = read_registry(alloc, file.as_bytes());
    all_settings(alloc, &answer)
}

/// `file|TEXT`: a whole file. ` / ` is a line feed.
pub fn file(alloc: Global, text: &str) -> Result<String, NoMemory> {
    let lines = text.replace(alloc, " / ", "\n")?;
    let file = case_lines::bytes(alloc, lines.as_str())?;
    read(alloc, file.as_slice())
}

// A row of each kind, with `%` for its number.
const USER: &str = r#"[[user]]
id = "%"
salt = "00"
rounds = 1
proof = "0000000000000000000000000000000000000000000000000000000000000000"
"#;

const CLIENT: &str = r#"[[client]]
id = "%"
secret = "shop-secret-shop-secret-shop-secret-%"
redirect_uris = ["https://a.b/%"]
"#;

const PARTY: &str = r#"[[party]]
name = "%"
client = "%"
redirect_uri = "https://a.b/%"
listen = "a.b:443"
"#;

// Adds the row with this number.
fn push_row(alloc: Global, file: &mut String, row: &str, number: u32) -> Result<(), NoMemory> {
    let number = number.to_string(alloc)?;
    let row = row.replace(alloc, "%", number.as_str())?;
    file.push_str(row.as_str())?;
    Ok(())
}

// Adds `count` rows, with the numbers from 0.
fn push_rows(alloc: Global, file: &mut String, row: &str, count: &str) -> Result<(), NoMemory> {
    for number in 0..count.parse::<u32>().unwrap_or(0) {
        push_row(alloc, file, row, number)?;
    }
    Ok(())
}

/// `users|COUNT|TEXT`: a file with this text, and after it COUNT users. ` / ` is a line feed.
pub fn users(alloc: Global, count: &str, text: &str) -> Result<String, NoMemory> {
    let first = written(alloc, text.replace(alloc, " / ", "\n")?.as_str())?;
    let mut file = [ALONE, first.as_str(), "\n"].concat(alloc)?;
    push_rows(alloc, &mut file, USER, count)?;
    read(alloc, file.as_bytes())
}

/// `rows|USERS|CLIENTS|PARTIES`: a file with these numbers of rows.
pub fn rows(alloc: Global, users: &str, clients: &str, parties: &str) -> Result<String, NoMemory> {
    let mut file = String::from_str(alloc, ALONE)?;
    push_rows(alloc, &mut file, USER, users)?;
    push_rows(alloc, &mut file, CLIENT, clients)?;
    push_rows(alloc, &mut file, PARTY, parties)?;
    read(alloc, file.as_bytes())
}
