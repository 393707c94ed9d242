// Laws about texts that are sealed for a client.

ghost use Rattle.std.specs.Prelude.{◌≡◌, true, Ok, Err};
ghost use Rattle.sso_base.specs.Words.{Text};
ghost use Rattle.jws_compact.specs.declared.no.JwsNo.{JwsNo};
ghost use Rattle.jws_compact.specs.declared.no.JwsNo.TheVariants.{BadMac};
ghost use Rattle.jws_compact.specs.declared.unsealing.Unsealed.{Unsealed};
ghost use Rattle.jws_compact.specs.Jws.{opened, verdict};
ghost use Rattle.client_registry.specs.declared.records.Client.{Client};
ghost use Rattle.client_registry.specs.Secrets.{has_secret};
ghost use Rattle.client_keys.specs.Opening.{SealedFor, OpensFor, verdict_for};
ghost use Rattle.client_keys.specs.Laws.{TextsOfEachSecretAreOpened, MacsThatAreWrongUnderEachAreWrong};

/// A text is opened for a client if and only if it is sealed under one of the client's secrets. Its header and payload are
/// those that were sealed, whichever secret it was. So a text that opens under one of the secrets opens for the client, with
/// the same contents.
pub fn texts_open_for_their_client()
    ensures opens { (client : Client) (h p t : Text) → SealedFor client h p t → verdict_for client t ≡ Ok (opened h p) }
    ensures sealed { (client : Client) (t : Text) (u : Unsealed) → verdict_for client t ≡ Ok u → OpensFor client t u }
    ensures alike { TextsOfEachSecretAreOpened }
{}

/// A text is rejected for its MAC if and only if it has a wrong MAC under each secret of the client. Any other error is the
/// same under each secret.
pub fn refusals_hold_under_each_secret()
    ensures mac { (client : Client) (secret t : Text) → verdict_for client t ≡ Err BadMac → has_secret secret client ≡ true → verdict secret t ≡ Err BadMac }
    ensures macs { MacsThatAreWrongUnderEachAreWrong }
    ensures others { (key other t : Text) (e : JwsNo) → verdict key t ≡ Err e → (e ≡ BadMac → ⊥) → verdict other t ≡ Err e }
{}
