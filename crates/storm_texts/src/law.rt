// Lemmas: the configuration and the trace of a storm are accepted.

ghost use Rattle.std.specs.Prelude.{◌≡◌, true, Ok, is_ok};
ghost use Rattle.client_registry.specs.Configuration.{Configuration};
ghost use Rattle.client_registry.specs.Reading.{registry_read};
ghost use Rattle.storm_texts.specs.Config.{config_text};
ghost use Rattle.storm_texts.specs.Parties.{KnowsParties};
ghost use Rattle.storm_texts.specs.Laws.{StormsAreAccepted};

/// The configuration of a storm is accepted, and has the parties of its logins. Every configuration with these parties accepts
/// the trace of a storm. The trace has the seed of the storm's number, and its lines take as many places as the storm counts.
pub fn storms_are_accepted()
    ensures configured { is_ok (registry_read config_text) ≡ true }
    ensures parties { (c : Configuration) → registry_read config_text ≡ Ok c → KnowsParties c }
    ensures trace { StormsAreAccepted }
{}
