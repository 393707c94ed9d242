// Laws: which configurations are rejected, and why; what is true of those that are accepted; the secrets that seal; and sets of
// clients.

ghost use Rattle.std.specs.Prelude.{◌≡◌, ◌≢◌, ◌<◌, ◌≤◌, ℕ, Bool, true, false, List, [], ◌++◌, length, Some, None, is_some, IfSome, Ok, Err};
ghost use Rattle.toml.specs.Data.{Data};
ghost use Rattle.configuration_rows.specs.declared.no.RegNo.{RegNo};
ghost use Rattle.configuration_rows.specs.declared.no.RegNo.TheVariants as no;
ghost use Rattle.configuration_rows.specs.Refusals.{IsLeast};
ghost use Rattle.registered_url.specs.Rule.{url_of};
ghost use Rattle.oidc_words.specs.Paths.{authorize_path, token_path, userinfo_path, keys_path};
ghost use Rattle.client_registry.specs.declared.records.Client.{Client};
ghost use Rattle.client_registry.specs.Records.{endpoint};
ghost use Rattle.client_registry.specs.Secrets.{sealing, has_secret};
ghost use Rattle.client_registry.specs.ClientSets.{no_clients, has_client, with_client};
ghost use Rattle.client_registry.specs.Configuration.{Configuration};
ghost use Rattle.client_registry.specs.Registered.{IsSecret, IsClient, IsRegistry};
ghost use Rattle.client_registry.specs.Reading.{document_in, registry_read, refusals_of, IsDocument, HasVersion, IsAccepted, IsOtherVersion};

/// A configuration that is not too long, is TOML and has version 1 or 2 is rejected if it has any error. The reported error has
/// the smallest number of all its errors, and is the first with that number in the table's order.
pub fn refused_configurations_have_the_least()
    ensures too_long { (b : List ℕ) → 1048576 < length b → registry_read b ≡ Err no.TooLong }
    ensures not_toml { (b : List ℕ) → length b ≤ 1048576 → document_in b ≡ None → registry_read b ≡ Err no.NotToml }
    ensures version { (b : List ℕ) → IsOtherVersion b → registry_read b ≡ Err no.Version }
    ensures refused { (b : List ℕ) (root : Data) (e : RegNo) → IsDocument b root → HasVersion root → IsLeast e (refusals_of root) → registry_read b ≡ Err e }
    ensures accepted { (b : List ℕ) (c : Configuration) → IsAccepted b c → registry_read b ≡ Ok c }
{}

/// The converse: each result has its cause.
pub fn refusals_have_their_causes()
    ensures too_long { (b : List ℕ) → registry_read b ≡ Err no.TooLong → 1048576 < length b }
    ensures not_toml { (b : List ℕ) → registry_read b ≡ Err no.NotToml → (length b ≤ 1048576) × (document_in b ≡ None) }
    ensures version { (b : List ℕ) → registry_read b ≡ Err no.Version → IsOtherVersion b }
    ensures refused { (b : List ℕ) (root : Data) (e : RegNo) → IsDocument b root → HasVersion root → registry_read b ≡ Err e → IsLeast e (refusals_of root) }
    ensures accepted { (b : List ℕ) (c : Configuration) → registry_read b ≡ Ok c → IsAccepted b c }
{}

/// Each endpoint of a registry's provider satisfies the rule for URLs, and so does the URL of its keys.
pub fn endpoints_keep_the_rule_for_urls()
    ensures authorize { (c : Configuration) → IsRegistry c → is_some (url_of c.provider.authorize) ≡ true }
    ensures token { (c : Configuration) → IsRegistry c → is_some (url_of c.provider.token) ≡ true }
    ensures userinfo { (c : Configuration) → IsRegistry c → IfSome c.provider.userinfo (λ t. is_some (url_of t) ≡ true) }
    ensures keys { (c : Configuration) → IsRegistry c → is_some (url_of (endpoint c.provider.issuer keys_path)) ≡ true }
{}

/// The path of each of these URLs is the path that is served: the issuer's path without its last slash, then the endpoint's
/// path.
pub fn advertised_paths_are_served()
    ensures authorize { (c : Configuration) → IsRegistry c → IfSome (url_of c.provider.authorize) (λ u. u.path ≡ c.prefix ++ authorize_path) }
    ensures token { (c : Configuration) → IsRegistry c → IfSome (url_of c.provider.token) (λ u. u.path ≡ c.prefix ++ token_path) }
    ensures userinfo { (c : Configuration) → IsRegistry c → IfSome c.provider.userinfo (λ t. IfSome (url_of t) (λ u. u.path ≡ c.prefix ++ userinfo_path)) }
    ensures keys { (c : Configuration) → IsRegistry c → IfSome (url_of (endpoint c.provider.issuer keys_path)) (λ u. u.path ≡ c.prefix ++ keys_path) }
{}

/// The secret that seals for a client is one of its secrets. In a registry it has from 32 to 128 characters of visible ASCII.
pub fn clients_seal_with_their_secrets()
    ensures own { (client : Client) → has_secret (sealing client) client ≡ true }
    ensures long { (client : Client) → IsClient client → IsSecret (sealing client) }
{}

/// A set of clients contains exactly those that were added.
pub fn sets_have_what_was_added()
    ensures none { (client : ℕ) → has_client client no_clients ≡ false }
    ensures room { length no_clients ≡ 128 }
    ensures added { (client : ℕ) (clients : List Bool) → client < length clients → has_client client (with_client client clients) ≡ true }
    ensures others { (client other : ℕ) (clients : List Bool) → client ≢ other → has_client client (with_client other clients) ≡ has_client client clients }
    ensures stays { (client : ℕ) (clients : List Bool) → length (with_client client clients) ≡ length clients }
{}
