// The registry: an accepted configuration.

ghost use Rattle.std.specs.Prelude.{◌≡◌, ◌<◌, length, Some, IfSome, IfOk};
ghost use Rattle.client_registry.specs.Configuration.{subject_at};
ghost use Rattle.client_registry.specs.Numbers.{user_at, client_at, party_at};
ghost use Rattle.client_registry.specs.Registered.{IsRegistry};
ghost use Rattle.client_registry.specs.Records.{client_place};
ghost use Rattle.client_registry.specs.Rules.{user_place, redirect_place, party_place};

use crate::places::{party_place, redirect_place, user_place};
use crate::records::{Client, Party, Provider, Settings, User};
use crate::rows::client_place;
use crate::subjects::Subjects;
use sso_base::{NoMemory, Text};
use std::alloc::Global;
use std::marker::Model;

/// An accepted configuration: the provider, its users, its clients and their relying parties, seen as the record of
/// them. Rows have numbers, from 0, in the order of the file.
#[derive(Drop)]
pub struct Registry {
    pub(crate) provider: Provider,
    pub(crate) prefix: Text,
    pub(crate) listen: Text,
    pub(crate) secure: bool,
    pub(crate) users: Vec<User>,
    pub(crate) clients: Vec<Client>,
    pub(crate) parties: Vec<Party>,
    pub(crate) subjects: Vec<Subjects>,
    pub(crate) lasting: bool,
    pub(crate) full_pages: bool,
    pub(crate) title: Text,
    pub(crate) settings: Settings,
}

impl Model for Registry {
    ghost use Rattle.client_registry.specs.Configuration.{Configuration};
    ghost use Rattle.client_registry.specs.Registered.{IsRegistry};

    ghost Value = { Configuration };

    ghost view = { λ r. record {
      provider = r.provider;
      prefix = r.prefix;
      listen = r.listen;
      secure = r.secure;
      users = r.users.items;
      clients = r.clients.items;
      parties = r.parties.items;
      subjects = r.subjects.items;
      lasting = r.lasting;
      full_pages = r.full_pages;
      title = r.title;
      settings = r.settings;
    } };

    ghost invariant = { λ r. IsRegistry (record {
      provider = r.provider;
      prefix = r.prefix;
      listen = r.listen;
      secure = r.secure;
      users = r.users.items;
      clients = r.clients.items;
      parties = r.parties.items;
      subjects = r.subjects.items;
      lasting = r.lasting;
      full_pages = r.full_pages;
      title = r.title;
      settings = r.settings;
    }) };
}

impl Registry {
    /// The provider's endpoints.
    pub fn provider(&self) -> &Provider
        ensures provider { result.now ≡ self.now.provider }
        ensures registry { IsRegistry self.now }
    {
        &self.provider
    }

    /// The path of the issuer without a last `/`.
    pub fn prefix(&self) -> &Text
        ensures { result.now ≡ self.now.prefix }
    {
        &self.prefix
    }

    /// Where the provider listens, as `HOST:PORT`.
    pub fn listen(&self) -> &Text
        ensures { result.now ≡ self.now.listen }
    {
        &self.listen
    }

    /// Whether the issuer is https.
    pub fn secure(&self) -> bool
        ensures { result ≡ self.now.secure }
    {
        self.secure
    }

    /// Whether the histories of the provider and its parties last. If so, they are not stored, and their limit is out of reach.
    pub fn lasting(&self) -> bool
        ensures { result ≡ self.now.lasting }
    {
        self.lasting
    }

    /// Whether users get full pages, and not plain ones.
    pub fn full_pages(&self) -> bool
        ensures { result ≡ self.now.full_pages }
    {
        self.full_pages
    }

    /// The title of the provider on its pages: from 1 to 80 bytes, or the host of its issuer.
    pub fn title(&self) -> &Text
        ensures { result.now ≡ self.now.title }
    {
        &self.title
    }

    /// Whether the names of cookies begin with `__Host-` (RFC 6265bis, 4.1.3.2). If so, the issuer and the redirect URIs of the
    /// parties are https.
    pub fn host_cookies(&self) -> bool
        ensures names { result ≡ self.now.settings.host_cookies }
        ensures registry { IsRegistry self.now }
    {
        self.settings.host_cookies
    }

    /// How many requests the provider serves at the same time, from 4 to 64.
    pub fn workers(&self) -> u32
        ensures count { result ≡ self.now.settings.workers }
        ensures registry { IsRegistry self.now }
    {
        self.settings.workers
    }

    /// How many users there are, at most 512.
    pub fn users(&self) -> u32
        ensures count { result ≡ length self.now.users }
        ensures registry { IsRegistry self.now }
    {
        self.users.len() as u32
    }

    /// How many clients there are, at most 128.
    pub fn clients(&self) -> u32
        ensures count { result ≡ length self.now.clients }
        ensures registry { IsRegistry self.now }
    {
        self.clients.len() as u32
    }

    /// How many parties there are, at most 64.
    pub fn parties(&self) -> u32
        ensures count { result ≡ length self.now.parties }
        ensures registry { IsRegistry self.now }
    {
        self.parties.len() as u32
    }

    /// The user of this number.
    pub fn user(&self, index: u32) -> &User
        requires { index < length self.now.users }
        ensures { user_at self.now index ≡ Some result.now }
    {
        &self.users[index as usize]
    }

    /// The client of this number.
    pub fn client(&self, index: u32) -> &Client
        requires { index < length self.now.clients }
        ensures { client_at self.now index ≡ Some result.now }
    {
        &self.clients[index as usize]
    }

    /// The party of this number.
    pub fn party(&self, index: u32) -> &Party
        requires { index < length self.now.parties }
        ensures { party_at self.now index ≡ Some result.now }
    {
        &self.parties[index as usize]
    }

    /// The number of the user with this id. `None` if and only if no user has it.
    pub fn find_user(&self, id: &[u8]) -> Option<u32>
        ensures { result ≡ user_place id.now self.now.users }
    {
        let place = user_place(&self.users, id)?;
        Some(place as u32)
    }

    /// The number of the client with this id. `None` if and only if no client has it.
    pub fn find_client(&self, id: &[u8]) -> Option<u32>
        ensures { result ≡ client_place id.now self.now.clients }
    {
        let place = client_place(&self.clients, id)?;
        Some(place as u32)
    }

    /// The number of the client that has this redirection URI (RFC 6749, 3.1.2.2). `None` if and only if no client has it.
    pub fn client_of_uri(&self, uri: &str) -> Option<u32>
        ensures client { result ≡ redirect_place uri.now self.now.clients }
        ensures known { IfSome result (λ n. n < length self.now.clients) }
    {
        let place = redirect_place(&self.clients, uri)?;
        Some(place as u32)
    }

    /// The number of the party with this name. `None` if and only if no party has it.
    pub fn find_party(&self, name: &[u8]) -> Option<u32>
        ensures { result ≡ party_place name.now self.now.parties }
    {
        let place = party_place(&self.parties, name)?;
        Some(place as u32)
    }

    /// The subject of a user at a client, by their numbers (OpenID Connect Core 1.0, 8).
    pub fn subject(&self, client: u32, user: u32) -> &Text
        requires client { client < length self.now.clients }
        requires user { user < length self.now.users }
        ensures { result.now ≡ subject_at self.now client user }
    {
        self.subjects[client as usize].at(user as usize)
    }

    /// An equal registry.
    pub fn copy(&self, alloc: Global) -> Result<Registry, NoMemory>
        ensures { IfOk result (λ r. r ≡ self.now) }
    {
        Ok(Registry {
            provider: self.provider.copy(alloc)?,
            prefix: self.prefix.copy(alloc)?,
            listen: self.listen.copy(alloc)?,
            secure: self.secure,
            users: copied_users(alloc, &self.users)?,
            clients: copied_clients(alloc, &self.clients)?,
            parties: copied_parties(alloc, &self.parties)?,
            subjects: copied_subjects(alloc, &self.subjects)?,
            lasting: self.lasting,
            full_pages: self.full_pages,
            title: self.title.copy(alloc)?,
            settings: self.settings,
        })
    }
}

fn copied_users(alloc: Global, users: &[User]) -> Result<Vec<User>, NoMemory>
    ensures { IfOk result (λ v. v.items ≡ users.now) }
{
    let mut copied = Vec::new(alloc);
    for user in users {
        copied.push(user.copy(alloc)?)?;
    }
    Ok(copied)
}

fn copied_clients(alloc: Global, clients: &[Client]) -> Result<Vec<Client>, NoMemory>
    ensures { IfOk result (λ v. v.items ≡ clients.now) }
{
    let mut copied = Vec::new(alloc);
    for client in clients {
        copied.push(client.copy(alloc)?)?;
    }
    Ok(copied)
}

fn copied_parties(alloc: Global, parties: &[Party]) -> Result<Vec<Party>, NoMemory>
    ensures { IfOk result (λ v. v.items ≡ parties.now) }
{
    let mut copied = Vec::new(alloc);
    for party in parties {
        copied.push(party.copy(alloc)?)?;
    }
    Ok(copied)
}

fn copied_subjects(alloc: Global, subjects: &[Subjects]) -> Result<Vec<Subjects>, NoMemory>
    ensures { IfOk result (λ v. v.items ≡ subjects.now) }
{
    let mut copied = Vec::new(alloc);
    for row in subjects {
        copied.push(row.copy(alloc)?)?;
    }
    Ok(copied)
}
