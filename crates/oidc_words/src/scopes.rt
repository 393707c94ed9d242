// Scope values.

ghost use Rattle.std.specs.Prelude.{◌≡◌, map, IfOk};
ghost use Rattle.oidc_words.specs.Scopes as spec;

use crate::words::{are_words, is_one_of, spaced, words_of};
use sso_base::{NoMemory, Text};
use std::alloc::Global;

/// The scope value of OpenID Connect (OpenID Connect Core 1.0, 3.1.2.1).
pub const OPENID: &str = "openid";

const PROFILE: &str = "profile";

const EMAIL: &str = "email";

const ADDRESS: &str = "address";

const PHONE: &str = "phone";

/// The scope values, in order (OpenID Connect Core 1.0, 3.1.2.1 and 5.4).
pub const SCOPE_WORDS: [&str; 5] = [OPENID, PROFILE, EMAIL, ADDRESS, PHONE];

/// A set of scope values (OpenID Connect Core 1.0, 3.1.2.1 and 5.4).
#[derive(Clone, Copy, PartialEq, Eq)]
pub struct Scopes {
    pub openid: bool,
    pub profile: bool,
    pub email: bool,
    pub address: bool,
    pub phone: bool,
}

impl Scopes {
    /// No scope value.
    pub fn none() -> Scopes
        ensures { result ≡ spec.no_scopes }
    {
        Scopes {
            openid: false,
            profile: false,
            email: false,
            address: false,
            phone: false,
        }
    }

    /// Every scope value.
    pub fn all() -> Scopes
        ensures { result ≡ spec.all_scopes }
    {
        Scopes {
            openid: true,
            profile: true,
            email: true,
            address: true,
            phone: true,
        }
    }

    /// The scope values among words. Other words are ignored.
    pub fn among(words: &[&str]) -> Scopes
        ensures { result ≡ spec.scopes_among (map (λ w. w.now) words.now) }
    {
        Scopes {
            openid: is_one_of(OPENID, words),
            profile: is_one_of(PROFILE, words),
            email: is_one_of(EMAIL, words),
            address: is_one_of(ADDRESS, words),
            phone: is_one_of(PHONE, words),
        }
    }

    /// The text of these scope values, in order, separated by one space each.
    pub fn to_text(self, alloc: Global) -> Result<Text, NoMemory>
        ensures { IfOk result (λ t. t ≡ spec.scope_text self) }
    {
        let words = [
            (self.openid, OPENID),
            (self.profile, PROFILE),
            (self.email, EMAIL),
            (self.address, ADDRESS),
            (self.phone, PHONE),
        ];
        spaced(alloc, &words)
    }

    /// The union of both sets.
    #[tactic(auto, unfolding(crate::specs::Scopes::joined))]
    pub fn joined(self, other: Scopes) -> Scopes
        ensures { result ≡ spec.joined self other }
    {
        Scopes {
            openid: self.openid || other.openid,
            profile: self.profile || other.profile,
            email: self.email || other.email,
            address: self.address || other.address,
            phone: self.phone || other.phone,
        }
    }

    /// Whether this set contains each scope value of the other.
    pub fn covers(self, other: Scopes) -> bool
        ensures { result ≡ spec.covers self other }
    {
        (self.openid || !other.openid)
            && (self.profile || !other.profile)
            && (self.email || !other.email)
            && (self.address || !other.address)
            && (self.phone || !other.phone)
    }
}

/// Whether the text consists of known scope values, each at most once, separated by one space each, with `openid` among them
/// (OpenID Connect Core 1.0, 5.4).
pub fn is_scope(alloc: Global, text: &str) -> Result<bool, NoMemory>
    ensures { IfOk result (λ b. b ≡ spec.is_scope text.now) }
{
    let words = words_of(alloc, text)?;
    Ok(are_words(&SCOPE_WORDS, &words) && is_one_of(OPENID, &words))
}
