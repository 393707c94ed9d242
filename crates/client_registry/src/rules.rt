// Rules about the records of a configuration whose rows satisfy their own rules.

ghost use Rattle.std.specs.Prelude.{◌≡◌, ◌++◌, OnOk, slice_get};
ghost use Rattle.configuration_rows.specs.declared.no.RegNo.TheVariants as no;
ghost use Rattle.configuration_rows.specs.Refusals.{note_if, each};
ghost use Rattle.client_registry.specs.Rules as spec;

use crate::places::{is_again, party_place, redirect_place, secret_place, use_place, user_place};
use crate::records::{Client, Party, User};
use crate::rows::client_place;
use configuration_rows::RegNo;
use configuration_rows::refusals::Refusals;
use registered_url::WebUrl;
use sso_base::{NoMemory, Text, Texts};

// Notes that the name occurs twice, if it does.
fn note_twice(refusals: &mut Refusals, name: &str, twice: bool) -> Result<(), NoMemory>
    ensures { OnOk result (refusals.new ≡ refusals.old ++ note_if twice (no.Twice name.now)) }
{
    if !twice {
        return Ok(());
    }
    let name = Text::new(refusals.alloc(), name)?;
    refusals.note(RegNo::Twice(name))
}

// Notes that there are too many of a kind, if there are.
fn note_size(refusals: &mut Refusals, kind: &str, many: bool) -> Result<(), NoMemory>
    ensures { OnOk result (refusals.new ≡ refusals.old ++ note_if many (no.TooMany kind.now)) }
{
    if !many {
        return Ok(());
    }
    let kind = Text::new(refusals.alloc(), kind)?;
    refusals.note(RegNo::TooMany(kind))
}

fn users_twice(refusals: &mut Refusals, users: &[User]) -> Result<(), NoMemory>
    ensures { OnOk result (refusals.new ≡ refusals.old ++ each (spec.user_twice users.now) users.now) }
{
    for (place, user) in users.iter().enumerate() {
        let first = user_place(users, user.id.as_str().as_bytes());
        note_twice(refusals, user.id.as_str(), is_again(place, first))?;
    }
    Ok(())
}

#[tactic(auto, using(sso_base::proofs::ListSteps::drop_at))]
fn redirects_twice(
    refusals: &mut Refusals,
    clients: &[Client],
    place: usize,
    uris: &Texts,
) -> Result<(), NoMemory>
    ensures { OnOk result (refusals.new ≡ refusals.old ++ spec.redirects_twice clients.now place uris.now) }
{
    for number in 0..uris.count() {
        let uri = uris.at(number);
        let first = redirect_place(clients, uri);
        note_twice(refusals, uri, is_again(place, first))?;
    }
    Ok(())
}

// Notes that the old secret of a client is a secret of an earlier client, or the client's own secret, if it is.
fn old_twice(
    refusals: &mut Refusals,
    clients: &[Client],
    place: usize,
    client: &Client,
) -> Result<(), NoMemory>
    ensures { OnOk result (refusals.new ≡ refusals.old ++ spec.old_twice clients.now place client.now client.now.old_secret) }
{
    match &client.old_secret {
        Some(old) => {
            let old = old.as_str();
            let first = secret_place(clients, old);
            let twice = is_again(place, first) || client.secret.as_str() == old;
            note_twice(refusals, client.id.as_str(), twice)
        }
        None => Ok(()),
    }
}

fn client_twice(
    refusals: &mut Refusals,
    issuer: &str,
    clients: &[Client],
    place: usize,
    client: &Client,
) -> Result<(), NoMemory>
    ensures { OnOk result (refusals.new ≡ refusals.old ++ spec.client_twice issuer.now clients.now place client.now) }
{
    let id = client.id.as_str();
    let first = client_place(clients, id.as_bytes());
    note_twice(refusals, id, is_again(place, first) || id == issuer)?;
    let first_secret = secret_place(clients, client.secret.as_str());
    note_twice(refusals, id, is_again(place, first_secret))?;
    old_twice(refusals, clients, place, client)?;
    redirects_twice(refusals, clients, place, &client.redirects)
}

fn clients_twice(refusals: &mut Refusals, issuer: &str, clients: &[Client]) -> Result<(), NoMemory>
    ensures { OnOk result (refusals.new ≡ refusals.old ++ each (spec.client_twice issuer.now clients.now) clients.now) }
{
    for (place, client) in clients.iter().enumerate() {
        client_twice(refusals, issuer, clients, place, client)?;
    }
    Ok(())
}

// Notes that an earlier party uses the client with this number, if one does.
fn use_twice(
    refusals: &mut Refusals,
    clients: &[Client],
    parties: &[Party],
    place: usize,
    number: u32,
) -> Result<(), NoMemory>
    ensures { OnOk result (refusals.new ≡ refusals.old ++ spec.use_twice parties.now place number (slice_get clients.now number)) }
{
    match clients.get(number as usize) {
        Some(client) => {
            let first = use_place(parties, number);
            note_twice(refusals, client.id.as_str(), is_again(place, first))
        }
        None => Ok(()),
    }
}

fn party_twice(
    refusals: &mut Refusals,
    clients: &[Client],
    parties: &[Party],
    place: usize,
    party: &Party,
) -> Result<(), NoMemory>
    ensures { OnOk result (refusals.new ≡ refusals.old ++ spec.party_twice clients.now parties.now place party.now) }
{
    let name = party.name.as_str();
    let first = party_place(parties, name.as_bytes());
    note_twice(refusals, name, is_again(place, first) || name == "op")?;
    use_twice(refusals, clients, parties, place, party.client)
}

fn parties_twice(
    refusals: &mut Refusals,
    clients: &[Client],
    parties: &[Party],
) -> Result<(), NoMemory>
    ensures { OnOk result (refusals.new ≡ refusals.old ++ each (spec.party_twice clients.now parties.now) parties.now) }
{
    for (place, party) in parties.iter().enumerate() {
        party_twice(refusals, clients, parties, place, party)?;
    }
    Ok(())
}

fn is_short(secret: &Text) -> bool
    ensures { result ≡ spec.is_short secret.now }
{
    secret.as_str().len() < 32
}

fn is_short_old(old: &Option<Text>) -> bool
    ensures { result ≡ spec.is_short_old old.now }
{
    match old {
        Some(old) => is_short(old),
        None => false,
    }
}

fn short_secrets(refusals: &mut Refusals, clients: &[Client]) -> Result<(), NoMemory>
    ensures { OnOk result (refusals.new ≡ refusals.old ++ each spec.short_secret clients.now) }
{
    for client in clients {
        if is_short(&client.secret) || is_short_old(&client.old_secret) {
            let id = client.id.copy(refusals.alloc())?;
            refusals.note(RegNo::ShortSecret(id))?;
        }
    }
    Ok(())
}

// Notes that the user at this index is one too many, and that its claims are too long, if so.
fn user_size(refusals: &mut Refusals, place: usize, user: &User) -> Result<(), NoMemory>
    ensures { OnOk result (refusals.new ≡ refusals.old ++ spec.user_size place user.now) }
{
    note_size(refusals, "user", place == 512)?;
    note_size(refusals, "claims", user.claims.as_bytes().len() > 2048)
}

fn user_sizes(refusals: &mut Refusals, users: &[User]) -> Result<(), NoMemory>
    ensures { OnOk result (refusals.new ≡ refusals.old ++ each spec.user_size users.now) }
{
    for (place, user) in users.iter().enumerate() {
        user_size(refusals, place, user)?;
    }
    Ok(())
}

// The sector of a client: the host of its redirect URIs (OpenID Connect Core 1.0, 8.1).
pub(crate) fn sector_of(urls: &[WebUrl]) -> &str
    ensures { result.now ≡ spec.sector_of urls.now }
{
    match urls.first() {
        Some(url) => url.host.as_str(),
        None => "",
    }
}

fn has_two_hosts(urls: &[WebUrl]) -> bool
    ensures { result ≡ spec.has_two_hosts urls.now }
{
    let sector = sector_of(urls);
    for url in urls {
        if url.host.as_str() != sector {
            return true;
        }
    }
    false
}

fn mixed_hosts(refusals: &mut Refusals, clients: &[Client]) -> Result<(), NoMemory>
    ensures { OnOk result (refusals.new ≡ refusals.old ++ each spec.mixed_hosts clients.now) }
{
    for client in clients {
        if client.pairwise && has_two_hosts(client.redirect_urls.as_slice()) {
            let id = client.id.copy(refusals.alloc())?;
            refusals.note(RegNo::MixedHosts(id))?;
        }
    }
    Ok(())
}

fn unknown_clients(
    refusals: &mut Refusals,
    clients: usize,
    parties: &[Party],
) -> Result<(), NoMemory>
    ensures { OnOk result (refusals.new ≡ refusals.old ++ each (spec.unknown_client clients) parties.now) }
{
    for party in parties {
        if party.client as usize == clients {
            let name = party.name.copy(refusals.alloc())?;
            refusals.note(RegNo::UnknownClient(name))?;
        }
    }
    Ok(())
}

// Appends the errors of the records by their numbers and, within a number, in the order of the table.
#[tactic(auto, unfolding(crate::specs::Rules::records_refusals))]
pub(crate) fn judge_records(
    refusals: &mut Refusals,
    issuer: &str,
    users: &[User],
    clients: &[Client],
    parties: &[Party],
) -> Result<(), NoMemory>
    ensures { OnOk result (refusals.new ≡ refusals.old ++ spec.records_refusals issuer.now users.now clients.now parties.now) }
{
    users_twice(refusals, users)?;
    clients_twice(refusals, issuer, clients)?;
    parties_twice(refusals, clients, parties)?;
    short_secrets(refusals, clients)?;
    user_sizes(refusals, users)?;
    note_size(refusals, "client", clients.len() > 128)?;
    note_size(refusals, "party", parties.len() > 64)?;
    mixed_hosts(refusals, clients)?;
    unknown_clients(refusals, clients.len(), parties)
}
