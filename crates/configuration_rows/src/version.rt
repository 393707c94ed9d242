// The versions of a configuration.

ghost use Rattle.std.specs.Prelude.{◌≡◌, IfSome};
ghost use Rattle.toml.specs.View.{view};
ghost use Rattle.configuration_rows.specs.Versions as spec;

use crate::values::natural_at;
use toml::Value;

/// A version of the configuration. The second has all keys of the first, and nine more: `old_secret`, `seals` and `title` of a
/// client, `history`, `pages`, `title`, `cookies` and `workers` of the provider, and `workers` of a party. In the first version
/// all nine are ignored.
#[derive(Clone, Copy)]
pub enum Version {
    /// The first.
    First,
    /// The second: a client may have two secrets, the histories may last, pages may be full and have titles, the names of cookies
    /// may begin with `__Host-`, and servers may have more workers.
    Second,
}

/// The version of a configuration; `None` if and only if `version` is neither the integer 1 nor the integer 2.
#[tactic(auto, unfolding(crate::specs::Versions::version_in))]
pub fn version_of(root: &Value) -> Option<Version>
    ensures version { result ≡ spec.version_of (view root.now) }
    ensures counts { IfSome result (λ version. version ≡ spec.version_in (view root.now)) }
{
    let number = natural_at(root, "version")?;
    if number == 1 {
        Some(Version::First)
    } else if number == 2 {
        Some(Version::Second)
    } else {
        None
    }
}
