//! The rows of a configuration file: its keys, each with its rule, and the errors of the rows.
//!
//! A configuration is TOML. Its keys are in one module, row by row, in the order in which errors of one kind are reported. The
//! second version has nine more keys: three for a client, five for the provider and one for a party.
//!
//! | Module | What it has |
//! |---|---|
//! | `no` | [`RegNo`], why a configuration is rejected |
//! | `refusals` | errors in their order, and the one that is reported |
//! | `version` | [`version::Version`], the versions of a configuration |
//! | `row` | the rows, and the paths of their keys |
//! | `values` | values at keys, each of the requested kind |
//! | `claims` | a user's claims |
//! | `kind` | the kinds of values, and how a value violates the rule of its key |
//! | `keys` | the errors of a row at one key |
//! | `logout_rule`, `party_rules` | rules about a client and the parties that use it |
//! | `server_keys` | the names of cookies, and the workers of servers |
//! | `law` | the error that is reported, stated as a law |
//! | `rows` | the keys of both versions |
#![tactic(auto)]

pub mod claims;
mod keys;
pub mod kind;
mod law;
mod logout_rule;
mod no;
pub mod party_rules;
pub mod refusals;
pub mod row;
pub mod rows;
pub mod server_keys;
pub mod values;
pub mod version;

pub use law::the_least_is_answered;
pub use no::RegNo;
