//! What an authorization request still needs before it is answered: that the user logs in, that the user consents, or nothing
//! (OpenID Connect Core 1.0, 3.1.2.1 to 3.1.2.4).
//!
//! | Module | What it has |
//! |---|---|
//! | `standing` | [`Standing`], the session that a request comes with |
//! | `need` | [`Need`], what is needed |
//! | `deciding` | [`decide`] returns the need; [`needed_scopes`] are the scope values of a consent |
//! | `law` | laws about needs, for the crates above |
#![tactic(auto)]

mod deciding;
mod law;
mod need;
mod standing;

pub use deciding::{decide, needed_scopes};
pub use law::{
    answered_requests_are_answerable, given_consent_is_not_asked, refusals_have_their_causes,
    silent_requests_show_no_page,
};
pub use need::Need;
pub use standing::Standing;
