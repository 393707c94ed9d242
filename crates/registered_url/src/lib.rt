//! URLs that may be registered with an OpenID provider, and the parts of them that are stored.
//!
//! Such a URL is https, or http on this machine (OpenID Connect Discovery 1.0, 3; RFC 6749, 3.1.2). It is parsed as the URL
//! Standard says, so the stored parts are normalized: the host in lower case, the path percent-encoded, a default port filled
//! in.
//!
//! | Module | What it has |
//! |---|---|
//! | `web_url` | [`WebUrl`] and [`WebUrls`], the stored parts of URLs |
//! | `reading` | [`read_url`] reads a text that satisfies the rule for URLs |
//! | `query` | the names in a URL's query |
//! | `law` | the rule, stated as a law |
#![tactic(auto)]

mod law;
mod query;
mod reading;
mod web_url;

pub use law::urls_keep_the_rule;
pub use reading::{UrlNo, read_url};
pub use web_url::{WebUrl, WebUrls};
