//! Honest logins in a world with any other requests, and their outcome. It has no running code.
//!
//! | Module | What it has | Its definitions, in `specs/` |
//! |---|---|---|
//! | | the conditions of an honest login, one by one | `Conditions` |
//! | | the words that a request presents; being in time; no logout | `Shown`, `InTime`, `Alive` |
//! | | the visitor who logs in; the login, place by place | `Login` |
//! | | the outcome: `GoesWell`, and `HonestLoginsSucceed` in a world | `Outcome` |
//! | `law` | a lemma: the provider accepts a party's own authorization requests | `OwnWish` |
#![tactic(auto)]

mod law;

pub use law::own_requests_are_granted;
