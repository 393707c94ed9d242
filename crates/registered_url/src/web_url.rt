// The stored parts of URLs.

ghost use Rattle.std.specs.Prelude.{◌≡◌, ◌<◌, [], ◌∷◌, ◌++◌, length, IfOk, OnOk, OnErr, slice_get, Some};
ghost use Rattle.registered_url.specs.Rule.{is_same_server};

use sso_base::{NoMemory, Text, copied_text};
use std::alloc::Global;
use std::marker::Model;

/// The stored parts of a URL whose scheme is http or https.
#[derive(Drop)]
pub struct WebUrl {
    /// Whether the scheme is https.
    pub secure: bool,
    /// The host as the URL serializes it: in lower case, an IPv6 address in brackets.
    pub host: Text,
    /// The port; 443 or 80 if none is written.
    pub port: u16,
    /// The path, percent-encoded, from its first `/`.
    pub path: Text,
    /// The query, percent-encoded, without its `?`, if there is a `?`.
    pub query: Option<Text>,
}

impl WebUrl {
    /// Whether the other URL has the same scheme, host and port.
    pub fn is_same_server(&self, other: &WebUrl) -> bool
        ensures { result ≡ is_same_server self.now other.now }
    {
        self.secure == other.secure
            && self.host.as_str() == other.host.as_str()
            && self.port == other.port
    }

    /// A copy of the URL.
    pub fn copy(&self, alloc: Global) -> Result<WebUrl, NoMemory>
        ensures { IfOk result (λ u. u ≡ self.now) }
    {
        Ok(WebUrl {
            secure: self.secure,
            host: self.host.copy(alloc)?,
            port: self.port,
            path: self.path.copy(alloc)?,
            query: copied_text(alloc, &self.query)?,
        })
    }
}

/// A list of URLs. The model is that list.
#[derive(Drop)]
pub struct WebUrls {
    items: Vec<WebUrl>,
}

impl Model for WebUrls {
    ghost use Rattle.std.specs.Prelude.{List};
    ghost use Rattle.registered_url.specs.declared.web_url.WebUrl.{WebUrl};

    ghost Value = { List WebUrl };

    ghost view = { λ u. u.items.items };
}

impl WebUrls {
    /// An empty list.
    pub fn new(alloc: Global) -> WebUrls
        ensures { result ≡ [] }
    {
        WebUrls {
            items: Vec::new(alloc),
        }
    }

    /// Adds a URL at the end. On `NoMemory` the list is unchanged.
    pub fn push(&mut self, url: WebUrl) -> Result<(), NoMemory>
        ensures ok { OnOk result (self.new ≡ self.old ++ url ∷ []) }
        ensures err { OnErr result (self.new ≡ self.old) }
    {
        self.items.push(url)?;
        Ok(())
    }

    /// How many URLs there are.
    pub fn count(&self) -> usize
        ensures { result ≡ length self.now }
    {
        self.items.len()
    }

    /// The URL at this index, counted from 0.
    pub fn at(&self, place: usize) -> &WebUrl
        requires { place < length self.now }
        ensures { slice_get self.now place ≡ Some result.now }
    {
        &self.items[place]
    }

    /// The URLs as a slice.
    pub fn as_slice(&self) -> &[WebUrl]
        ensures { result.now ≡ self.now }
    {
        self.items.as_slice()
    }

    /// A copy of the list.
    pub fn copy(&self, alloc: Global) -> Result<WebUrls, NoMemory>
        ensures { IfOk result (λ u. u ≡ self.now) }
    {
        let mut copied = WebUrls::new(alloc);
        for url in &self.items {
            copied.push(url.copy(alloc)?)?;
        }
        Ok(copied)
    }
}
