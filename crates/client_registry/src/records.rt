// What a configuration states about the provider, its users, its clients and their relying parties.

ghost use Rattle.std.specs.Prelude.{◌≡◌, IfOk};
ghost use Rattle.client_registry.specs.Secrets.{sealing};

use oidc_words::Types;
use registered_url::{WebUrl, WebUrls};
use sso_base::{Blob, NoMemory, Text, Texts, copied_text};
use std::alloc::Global;

/// The endpoints of an OpenID provider (OpenID Connect Discovery 1.0, 3).
#[derive(Drop)]
pub struct Provider {
    /// The issuer: a URL of at most 200 bytes without a query.
    pub issuer: Text,
    /// The authorization endpoint.
    pub authorize: Text,
    /// The token endpoint.
    pub token: Text,
    /// The UserInfo endpoint.
    pub userinfo: Option<Text>,
}

/// A user. A password is verified with PBKDF2 and the salt (RFC 8018).
#[derive(Drop)]
pub struct User {
    /// From 1 to 64 of `a-z 0-9 . _ @ -`.
    pub id: Text,
    /// From 1 to 64 bytes.
    pub salt: Blob,
    /// From 1 to 1,000,000.
    pub rounds: u32,
    /// The PBKDF2 output for the password.
    pub proof: [u8; 32],
    /// The JSON text of the user's claims, of at most 2,048 bytes (OpenID Connect Core 1.0, 5.1).
    pub claims: Blob,
}

/// A client (OpenID Connect Core 1.0, 3.1.2.1; RFC 6749, 2).
#[derive(Drop)]
pub struct Client {
    /// From 1 to 64 of `A-Z a-z 0-9 . _ ~ -`.
    pub id: Text,
    /// From 32 to 128 characters of visible ASCII.
    pub secret: Text,
    /// Another secret, while the secret is changed: also from 32 to 128 characters of visible ASCII. Both are accepted.
    pub old_secret: Option<Text>,
    /// Whether the old secret is the one that seals tokens and requests, and with which the client logs in. It is true only if
    /// there is one.
    pub seals_old: bool,
    /// From 1 to 16 redirect URIs.
    pub redirects: Texts,
    /// Which response types it has, in the order `code`, `id_token`, `id_token token`, `code id_token`, `code token`,
    /// `code id_token token`.
    pub types: [bool; 6],
    /// Whether its subjects are pairwise (OpenID Connect Core 1.0, 8.1).
    pub pairwise: bool,
    /// Whether the user must consent.
    pub asks_consent: bool,
    /// The logout URI (OpenID Connect Back-Channel Logout 1.0, 2.2).
    pub logout: Option<Text>,
    /// Whether logout tokens for it have a `sid`.
    pub logout_session: bool,
    /// The stored parts of the redirect URIs, in their order.
    pub redirect_urls: WebUrls,
    /// The stored parts of the logout URI.
    pub logout_url: Option<WebUrl>,
    /// The title on pages: from 1 to 80 bytes, or the id.
    pub title: Text,
}

/// Settings of a whole configuration, keys of the second version.
#[derive(Clone, Copy)]
pub struct Settings {
    /// Whether the names of cookies begin with `__Host-` (RFC 6265bis, 4.1.3.2). If so, the issuer and the redirect URIs of the
    /// parties are https.
    pub host_cookies: bool,
    /// How many requests the provider serves at the same time, from 4 to 64.
    pub workers: u32,
}

/// Settings of a party, keys of the second version.
#[derive(Clone, Copy)]
pub struct PartySettings {
    /// How many requests the party serves at the same time, from 4 to 64.
    pub workers: u32,
}

/// A relying party.
#[derive(Drop)]
pub struct Party {
    /// From 1 to 16 of `a-z 0-9`.
    pub name: Text,
    /// The number of its client, counted from 0.
    pub client: u32,
    /// The redirect URI of its requests: one of its client's.
    pub redirect: Text,
    /// Where it listens, as `HOST:PORT`.
    pub listen: Text,
    /// The response type of its requests.
    pub types: Types,
    /// The scope of its requests.
    pub scope: Text,
    /// The `prompt` of its requests, if they have one (OpenID Connect Core 1.0, 3.1.2.1).
    pub prompt: Option<Text>,
    /// The `max_age` of its requests, in seconds.
    pub max_age: Option<u64>,
    /// Whether it requests UserInfo.
    pub userinfo: bool,
    /// Whether its requests are signed (OpenID Connect Core 1.0, 6.1).
    pub signed: bool,
    /// The stored parts of the redirect URI.
    pub redirect_url: WebUrl,
    /// Its settings.
    pub settings: PartySettings,
}

// A copy of the URL, if there is one.
fn copied_url(alloc: Global, url: &Option<WebUrl>) -> Result<Option<WebUrl>, NoMemory>
    ensures { IfOk result (λ o. o ≡ url.now) }
{
    match url {
        Some(url) => Ok(Some(url.copy(alloc)?)),
        None => Ok(None),
    }
}

impl Provider {
    /// A copy of the provider.
    pub fn copy(&self, alloc: Global) -> Result<Provider, NoMemory>
        ensures { IfOk result (λ p. p ≡ self.now) }
    {
        Ok(Provider {
            issuer: self.issuer.copy(alloc)?,
            authorize: self.authorize.copy(alloc)?,
            token: self.token.copy(alloc)?,
            userinfo: copied_text(alloc, &self.userinfo)?,
        })
    }
}

impl User {
    /// A copy of the user.
    pub fn copy(&self, alloc: Global) -> Result<User, NoMemory>
        ensures { IfOk result (λ u. u ≡ self.now) }
    {
        Ok(User {
            id: self.id.copy(alloc)?,
            salt: self.salt.copy(alloc)?,
            rounds: self.rounds,
            proof: self.proof,
            claims: self.claims.copy(alloc)?,
        })
    }
}

impl Client {
    /// A copy of the client.
    pub fn copy(&self, alloc: Global) -> Result<Client, NoMemory>
        ensures { IfOk result (λ c. c ≡ self.now) }
    {
        Ok(Client {
            id: self.id.copy(alloc)?,
            secret: self.secret.copy(alloc)?,
            old_secret: copied_text(alloc, &self.old_secret)?,
            seals_old: self.seals_old,
            redirects: self.redirects.copy(alloc)?,
            types: self.types,
            pairwise: self.pairwise,
            asks_consent: self.asks_consent,
            logout: copied_text(alloc, &self.logout)?,
            logout_session: self.logout_session,
            redirect_urls: self.redirect_urls.copy(alloc)?,
            logout_url: copied_url(alloc, &self.logout_url)?,
            title: self.title.copy(alloc)?,
        })
    }

    /// The secret under which tokens are sealed for the client, and with which it logs in at the token endpoint: the old secret
    /// if that one seals, otherwise the secret.
    pub fn sealing(&self) -> &Text
        ensures { result.now ≡ sealing self.now }
    {
        if !self.seals_old {
            return &self.secret;
        }
        match &self.old_secret {
            Some(old) => old,
            None => &self.secret,
        }
    }
}

impl Party {
    /// A copy of the party.
    pub fn copy(&self, alloc: Global) -> Result<Party, NoMemory>
        ensures { IfOk result (λ p. p ≡ self.now) }
    {
        Ok(Party {
            name: self.name.copy(alloc)?,
            client: self.client,
            redirect: self.redirect.copy(alloc)?,
            listen: self.listen.copy(alloc)?,
            types: self.types,
            scope: self.scope.copy(alloc)?,
            prompt: copied_text(alloc, &self.prompt)?,
            max_age: self.max_age,
            userinfo: self.userinfo,
            signed: self.signed,
            redirect_url: self.redirect_url.copy(alloc)?,
            settings: self.settings,
        })
    }
}
