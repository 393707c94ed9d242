// Laws about what the provider issues, for the crates above.

ghost use Rattle.op_issue.specs.Laws.{IssuedClaimsHaveTexts, IssuedClaimsAreSealable, IssuedTokensAreReadBack, IssuedTokensAreOpened, IssuedTokensAreGood};
ghost use Rattle.op_issue.specs.Laws.{GoodTokensHaveTheirIssuer, GoodTokensHaveTheirClient, GoodTokensHaveTheirNonce, GoodTokensAreAlive};

/// Reading an issued ID Token under the client's sealing secret returns the sealed claims. The claims are always short enough,
/// and values of their types. The token is opened for its client, as a JWT with the text of these claims.
pub fn issued_tokens_are_read()
    ensures texts { IssuedClaimsHaveTexts }
    ensures sealable { IssuedClaimsAreSealable }
    ensures read_back { IssuedTokensAreReadBack }
    ensures opened { IssuedTokensAreOpened }
{}

/// The wish's client accepts the issued claims for 360 seconds: their life of 300 seconds plus 60 seconds of leeway. It needs
/// the wish's nonce, the access token and the code that came with them, and a login within its `max_age`. The claims are not
/// accepted with another issuer, client or nonce, or later.
pub fn issued_tokens_are_good()
    ensures good { IssuedTokensAreGood }
    ensures issuer { GoodTokensHaveTheirIssuer }
    ensures client { GoodTokensHaveTheirClient }
    ensures nonce { GoodTokensHaveTheirNonce }
    ensures life { GoodTokensAreAlive }
{}
