//! Configurations of the tables of cases: the rows that the programs of cases join as needed, and whole configurations.
//! `[PROVIDER, ALICE, SHOP_CLIENT].concat(alloc)?` is a whole file, and the lines after a row belong to it.
//!
//! | Module | What it has |
//! |---|---|
//! | `rows` | rows of configurations |
//! | `whole` | [`sample`], the configuration of `examples/sample.toml`, and [`news_alone`], a part of it |
//! | `old_secrets` | configurations whose clients have an old secret too, as [`with_two_secrets`], and the secrets |
//! | `full_pages` | [`with_full_pages`], a configuration with full pages |
#![tactic(auto)]

mod full_pages;
mod old_secrets;
mod rows;
mod whole;

pub use full_pages::with_full_pages;
pub use old_secrets::{
    OLD_SEALS, in_second_version, secret_of, with_old_secret, with_old_secrets, with_two_secrets,
};
pub use rows::{
    ALICE, ALICES_CLAIMS, ANY_CLIENT, BOB, ESCAPED_CLIENT, MAIL_CLIENT, MAIL_PARTY, NEWS_CLIENT,
    NEWS_PARTY, PROVIDER, SHOP_CLIENT, SHOP_PARTY,
};
pub use whole::{news_alone, sample};
