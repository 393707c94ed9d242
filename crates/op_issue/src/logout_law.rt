// Laws about logout tokens and the messages of a sign-out, for the crates above.

ghost use Rattle.std.specs.Prelude.{◌≡◌, ◌<◌, ◌^◌, ℕ};
ghost use Rattle.sso_base.specs.Words.{Word, IsWord};
ghost use Rattle.client_registry.specs.Configuration.{Configuration};
ghost use Rattle.logout_token.specs.Fitting.{HasTexts, IsSealable};
ghost use Rattle.op_issue.specs.declared.sign_out.SignOut.{SignOut};
ghost use Rattle.op_issue.specs.LogoutTokens.{logout_id, logout_claims};
ghost use Rattle.op_issue.specs.Ending.{MayEnd};
ghost use Rattle.op_issue.specs.LogoutLaws.{LogoutTokensAreReadBack, LogoutTokensAreOpened, LogoutFormsAreReadBack, IssuedLogoutTokensAreGood};
ghost use Rattle.op_issue.specs.LogoutLaws.{GoodLogoutTokensHaveTheirIssuer, GoodLogoutTokensHaveTheirClient, GoodLogoutTokensAreAlive};
ghost use Rattle.op_issue.specs.LogoutLaws.{AnsweredClientsAreNotified, MessagesAreInOrder};

/// Reading an issued logout token under the client's sealing secret returns the sealed claims. The claims are always short
/// enough, and values of their types. The token is opened for its client, as a `logout+jwt` with the text of these claims.
/// Reading the form of a logout request returns its token.
pub fn logout_tokens_are_read()
    ensures texts { (c : Configuration) (client : ℕ) (out : SignOut) → MayEnd c client out → HasTexts (logout_claims c client out) }
    ensures sealable { (c : Configuration) (client : ℕ) (out : SignOut) → MayEnd c client out → IsSealable (logout_claims c client out) }
    ensures read_back { LogoutTokensAreReadBack }
    ensures opened { LogoutTokensAreOpened }
    ensures form { LogoutFormsAreReadBack }
{}

/// The claims of a logout token are accepted by its client for 180 seconds: their life of 120 seconds plus 60 seconds of
/// leeway. They are not accepted with another issuer or client, or later.
pub fn logout_tokens_are_good()
    ensures good { IssuedLogoutTokensAreGood }
    ensures issuer { GoodLogoutTokensHaveTheirIssuer }
    ensures client { GoodLogoutTokensHaveTheirClient }
    ensures life { GoodLogoutTokensAreAlive }
{}

/// The identifier of a logout token determines the word of the sign-out and the client. So tokens of other words or of other
/// clients have other identifiers (OpenID Connect Back-Channel Logout 1.0, 2.4).
pub fn logout_tokens_have_own_identifiers()
    ensures { (v w : Word) (m n : ℕ) → IsWord v → IsWord w → m < 2 ^ 64 → n < 2 ^ 64 → logout_id v m ≡ logout_id w n → (v ≡ w) × (m ≡ n) }
{}

/// A message is sent if and only if it is to a client that the session has logged in to and that has a logout URI. The messages
/// are in the order of the registry: of any two, the first is to a client with a lower number.
pub fn messages_tell_answered_clients()
    ensures told { AnsweredClientsAreNotified }
    ensures in_order { MessagesAreInOrder }
{}
