// Laws about where a browser is sent after a sign-out.

ghost use Rattle.std.specs.Prelude.{◌≡◌, ℕ, List, Some, Ok, true};
ghost use Rattle.sso_base.specs.Words.{Text};
ghost use Rattle.client_registry.specs.Configuration.{Configuration};
ghost use Rattle.client_registry.specs.Reading.{registry_read};
ghost use Rattle.client_registry.specs.declared.records.Client.{Client};
ghost use Rattle.id_token.specs.Reading.{audience_in};
ghost use Rattle.end_request.specs.Hints.{is_hint_for, names};
ghost use Rattle.end_request.specs.declared.wish.EndWish.{EndWish};
ghost use Rattle.end_request.specs.Returning.{ReturnLists, returns_read, AreOfClients};
ghost use Rattle.end_request.specs.Ending.{end_read, location, IsRegisteredReturn};

/// If a browser is sent somewhere after a request, it is to a URI that is registered for a client whose ID Token the hint is, with the
/// request's state (RP-Initiated Logout 1.0, 2 and 3).
pub fn browsers_are_sent_to_registered_uris()
    ensures { (c : Configuration) (returns : ReturnLists) (form : List ℕ) (wish : EndWish) (to : Text)
        → end_read c returns form ≡ Ok wish → location wish ≡ Some to → IsRegisteredReturn c returns form to }
{}

/// What is read from the bytes of a registry has one list for each of its clients, in their order: the URIs of the client's row, at most
/// 16, each of which satisfies the rule for URLs.
pub fn returns_are_those_of_the_clients()
    ensures { (bytes : List ℕ) (c : Configuration) (returns : ReturnLists)
        → registry_read bytes ≡ Ok c → returns_read bytes ≡ Ok returns → AreOfClients c returns }
{}

/// A client whose ID Token a hint is is in the audience that the text names, which is read before a key is tried.
pub fn hints_name_their_client()
    ensures { (issuer hint : Text) (client : Client) → is_hint_for issuer hint client ≡ true → names (audience_in hint) client.id ≡ true }
{}
