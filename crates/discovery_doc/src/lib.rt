//! The metadata of an OpenID provider, written and read (OpenID Connect Discovery 1.0, 3 and 4).
//!
//! The document is a JSON object. Its URL is the issuer without a last `/`, followed by `/.well-known/openid-configuration`.
//! URLs in it are absolute.
//!
//! | Module | What it has |
//! |---|---|
//! | `printing` | [`print_discovery`] writes the document of a registry's provider |
//! | `reading` | [`read_discovery`] reads a provider's endpoints from a document |
//! | `no` | [`DiscNo`], why a document is rejected |
//! | `law` | laws about documents, for the crates above |
#![tactic(auto)]

mod law;
mod no;
mod printing;
mod reading;

pub use law::{
    printed_metadata_is_read, read_documents_have_the_metadata, read_documents_name_the_provider,
    refused_documents_have_the_first_reason,
};
pub use no::DiscNo;
pub use printing::print_discovery;
pub use reading::read_discovery;
