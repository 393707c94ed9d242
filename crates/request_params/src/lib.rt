//! The parameters of authorization requests: reading them from forms, merging them with those of a request object, and writing
//! the location to which a user agent is sent (OpenID Connect Core 1.0, 3.1.2.1 and 6.1).
//!
//! | Module | What it has |
//! |---|---|
//! | `name` | [`ParamName`], the names of the parameters, and [`ALL_NAMES`] |
//! | `params` | [`Params`], the parameters of a request |
//! | `no` | [`AskNo`], why a request is rejected |
//! | `form` | [`form_of`] returns the form of a request |
//! | `pairs` | [`read_pairs`] reads the pairs of a form, [`value_of`] looks one up |
//! | `reading` | [`read_request`] reads a form as a request |
//! | `merging` | [`merge`] merges the parameters of a request object with those outside it |
//! | `location` | [`with_query`] and [`with_fragment`] append pairs to a URL |
//! | `printing` | [`print_request`] writes the location of a request |
//! | `scheme` | [`scheme_of`] is the scheme of an `Authorization` header; [`split_once`] splits bytes at the first given byte |
//! | `law` | laws about requests, for the crates above |
#![tactic(auto)]

mod form;
mod law;
mod location;
mod merging;
mod name;
mod no;
mod pairs;
mod params;
mod printing;
mod reading;
mod scheme;

pub use form::{form_of, posted};
pub use law::{
    forms_have_their_parameters, merged_parameters_agree, parameters_have_names,
    printed_requests_are_read, refused_forms_repeat_a_name, refused_merges_have_a_cause,
    signed_requests_are_whole,
};
pub use location::{with_fragment, with_query};
pub use merging::merge;
pub use name::{ALL_NAMES, ParamName};
pub use no::AskNo;
pub use pairs::{Pair, read_pairs, value_of};
pub use params::Params;
pub use printing::print_request;
pub use reading::read_request;
pub use scheme::{scheme_of, split_once};
