// Why a configuration is rejected.

ghost use Rattle.std.specs.Prelude.{◌≡◌};
ghost use Rattle.configuration_rows.specs.Refusals.{number};

use sso_base::{NoMemory, Text};

/// Why a configuration is rejected, or `NoMemory`. If several reasons apply, the first in this order is returned; among errors
/// of one kind, the first in the order of the file's table.
///
/// A path is written as `client[0].secret`: the index of a row counts from 0, and a value inside an array has no index.
#[derive(Drop)]
pub enum RegNo {
    /// Memory ran out.
    NoMemory,
    /// The file has more than 1,048,576 bytes.
    TooLong,
    /// The bytes are not TOML in UTF-8.
    NotToml,
    /// `version` is neither the integer 1 nor the integer 2.
    Version,
    /// The key at this path is absent, and it is neither optional nor has a default.
    Missing(Text),
    /// The value at this path has another kind, or violates its rule.
    WrongKind(Text),
    /// The text at this path violates the rule for URLs, or a party's redirect URI violates its own.
    BadUrl(Text),
    /// One of these, with that id or name:
    ///
    /// - a user id, client id, party name or redirect URI occurs twice;
    /// - a client's id is the issuer;
    /// - a secret of this client, the old one included, is a secret of an earlier client, or both its secrets are equal;
    /// - two parties use this client;
    /// - a party has the name `op`.
    Twice(Text),
    /// A secret of the client with this id, the old one included, has fewer than 32 characters.
    ShortSecret(Text),
    /// There are more than 512 of `user`, 128 of `client` or 64 of `party`, or the `claims` of a user have more than
    /// 2,048 bytes as JSON.
    TooMany(Text),
    /// The client with this id is pairwise, and its redirect URIs have different hosts (OpenID Connect Core 1.0, 8.1).
    MixedHosts(Text),
    /// The party of this name uses an unknown client.
    UnknownClient(Text),
    /// At the client with the first id, the users with the other two ids have the same subject.
    SubjectClash(Text, Text, Text),
}

impl From<NoMemory> for RegNo {
    ghost use Rattle.std.specs.Prelude.{◌≡◌};
    ghost use Rattle.configuration_rows.specs.declared.no.RegNo.TheVariants as no;

    ghost from_gives = { λ _ e. e ≡ no.NoMemory };

    fn from(_error: NoMemory) -> RegNo {
        RegNo::NoMemory
    }
}

impl RegNo {
    // The position of this kind of error in the order in which errors are reported.
    pub(crate) fn number(&self) -> u8
        ensures { result ≡ number self.now }
    {
        match self {
            RegNo::NoMemory => 0,
            RegNo::TooLong => 1,
            RegNo::NotToml => 2,
            RegNo::Version => 3,
            RegNo::Missing(_) => 4,
            RegNo::WrongKind(_) => 5,
            RegNo::BadUrl(_) => 6,
            RegNo::Twice(_) => 7,
            RegNo::ShortSecret(_) => 8,
            RegNo::TooMany(_) => 9,
            RegNo::MixedHosts(_) => 10,
            RegNo::UnknownClient(_) => 11,
            RegNo::SubjectClash(_, _, _) => 12,
        }
    }
}
