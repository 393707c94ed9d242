// Standard claims: which scope values request them, and the kinds of their values.

ghost use Rattle.std.specs.Prelude.{◌≡◌};
ghost use Rattle.oidc_words.specs.Words.{is_one_of as is_one_of_texts};
ghost use Rattle.oidc_words.specs.Claims as spec;

use crate::scopes::Scopes;
use crate::words::is_one_of;
use sso_base::Texts;

/// The kind of a claim's value (OpenID Connect Core 1.0, 5.1).
#[derive(Clone, Copy, PartialEq, Eq)]
pub enum ClaimKind {
    Text,
    /// True or false.
    Flag,
    /// A number of seconds.
    Seconds,
    /// An object of texts (OpenID Connect Core 1.0, 5.1.1).
    Address,
}

#[tactic(auto, unfolding(crate::specs::Claims::profile_claims))]
fn is_profile_claim(name: &str) -> bool
    ensures { result ≡ is_one_of_texts spec.profile_claims name.now }
{
    is_one_of(
        name,
        &[
            "name",
            "family_name",
            "given_name",
            "middle_name",
            "nickname",
            "preferred_username",
            "profile",
            "picture",
            "website",
            "gender",
            "birthdate",
            "zoneinfo",
            "locale",
            "updated_at",
        ],
    )
}

#[tactic(auto, unfolding(crate::specs::Claims::email_claims))]
fn is_email_claim(name: &str) -> bool
    ensures { result ≡ is_one_of_texts spec.email_claims name.now }
{
    is_one_of(name, &["email", "email_verified"])
}

#[tactic(auto, unfolding(crate::specs::Claims::address_claims))]
fn is_address_claim(name: &str) -> bool
    ensures { result ≡ is_one_of_texts spec.address_claims name.now }
{
    is_one_of(name, &["address"])
}

#[tactic(auto, unfolding(crate::specs::Claims::phone_claims))]
fn is_phone_claim(name: &str) -> bool
    ensures { result ≡ is_one_of_texts spec.phone_claims name.now }
{
    is_one_of(name, &["phone_number", "phone_number_verified"])
}

impl Scopes {
    /// Whether these scope values request the claim of this name (OpenID Connect Core 1.0, 5.4).
    #[tactic(auto, unfolding(crate::specs::Claims::is_claim_of))]
    pub fn ask_for(self, name: &str) -> bool
        ensures { result ≡ spec.is_claim_of self name.now }
    {
        (self.profile && is_profile_claim(name))
            || (self.email && is_email_claim(name))
            || (self.address && is_address_claim(name))
            || (self.phone && is_phone_claim(name))
    }

    /// The scope values that request the claim of this name.
    #[tactic(auto, unfolding(crate::specs::Claims::scopes_with))]
    pub fn with_claim(name: &str) -> Scopes
        ensures { result ≡ spec.scopes_with name.now }
    {
        Scopes {
            openid: false,
            profile: is_profile_claim(name),
            email: is_email_claim(name),
            address: is_address_claim(name),
            phone: is_phone_claim(name),
        }
    }

    /// The scope values that request at least one of these claims.
    #[tactic(auto, using(crate::proofs::Joining::one_more), unfolding(crate::specs::Claims::scopes_with_any))]
    pub fn with_claims(names: &Texts) -> Scopes
        ensures { result ≡ spec.scopes_with_any names.now }
    {
        let mut scopes = Scopes::none();
        for place in 0..names.count() {
            scopes = scopes.joined(Scopes::with_claim(names.at(place)));
        }
        scopes
    }
}

/// Whether the name is a standard claim: some scope value requests it (OpenID Connect Core 1.0, 5.1 and 5.4).
pub fn is_standard_claim(name: &str) -> bool
    ensures { result ≡ spec.is_standard_claim name.now }
{
    Scopes::all().ask_for(name)
}

#[tactic(auto, unfolding(crate::specs::Claims::flag_claims))]
fn is_flag_claim(name: &str) -> bool
    ensures { result ≡ is_one_of_texts spec.flag_claims name.now }
{
    is_one_of(name, &["email_verified", "phone_number_verified"])
}

#[tactic(auto, unfolding(crate::specs::Claims::seconds_claims))]
fn is_seconds_claim(name: &str) -> bool
    ensures { result ≡ is_one_of_texts spec.seconds_claims name.now }
{
    is_one_of(name, &["updated_at"])
}

/// The kind of the value of a standard claim (OpenID Connect Core 1.0, 5.1). `None` if and only if no scope value requests the
/// claim.
pub fn kind_of_claim(name: &str) -> Option<ClaimKind>
    ensures { result ≡ spec.kind_of name.now }
{
    if is_flag_claim(name) {
        return Some(ClaimKind::Flag);
    }
    if is_seconds_claim(name) {
        return Some(ClaimKind::Seconds);
    }
    if is_address_claim(name) {
        return Some(ClaimKind::Address);
    }
    if is_standard_claim(name) {
        return Some(ClaimKind::Text);
    }
    None
}
