// Laws of the histories of a relying party with proof keys.

ghost use Rattle.std.specs.Prelude.{◌≡◌, ◌↔◌, true, List, Some};
ghost use Rattle.sso_base.specs.Words.{Word};
ghost use Rattle.sso_base.specs.Rows.{row_of};
ghost use Rattle.sso_base.specs.Stands.{Stands};
ghost use Rattle.rp_answer.specs.Past.{RpPast};
ghost use Rattle.rp_answer.specs.Setup.{PartySetup};
ghost use Rattle.rp_answer.specs.Legal.{IsLegalRp, IsLegalHistory};
ghost use Rattle.pkce_party.specs.declared.rows.VerifierRow.{VerifierRow as Row};
ghost use Rattle.pkce_party.specs.Adding.{PartyPair, PartyPast, inner_past, inner_history, IsLegalPartyPast, IsLegalParty};
ghost use Rattle.pkce_party.specs.Verifiers.{verifier_name, verifier_made, verifier_kept, verifiers};
ghost use Rattle.pkce_party.specs.Laws.{AuthorizationRequestsHaveAChallenge, ChallengesAreInAuthorizationRequests};
ghost use Rattle.pkce_party.specs.Laws.{TokenRequestsHaveAVerifier, VerifiersAreInTokenRequests, VerifiersAreOfTheirLogin};
ghost use Rattle.pkce_party.specs.Laws.{VerifiersTellTheirWords, ChallengesAreInTheLocation, VerifiersAreInTheTokenRequest};

/// The verifier of a login is found after a past if and only if some pair drew it, and no later pair drew one for the same state or
/// ended the login.
pub fn rows_stand()
    ensures { (past : RpPast) (state : Word) (row : Row)
        → (row_of verifier_name state (verifiers past) ≡ Some row) ↔ Stands verifier_name verifier_made verifier_kept past state row }
{}

/// The party's history in a legal history is legal for the party, whatever it weighs, and within the limit if the history is. So all
/// that is proved of a relying party is true of the party inside.
pub fn inner_histories_are_legal()
    ensures past { (s : PartySetup) (past : PartyPast) → IsLegalPartyPast s past → IsLegalRp s (inner_past past) }
    ensures history { (s : PartySetup) (h : List PartyPair) → IsLegalParty s h → IsLegalHistory s (inner_history h) }
{}

/// In any legal history of a party whose response type has a code, each authorization request has the challenge of the verifier
/// that its entry drew: the text of its fourth random word (RFC 7636, 4.1 to 4.3). No other reply has a challenge.
pub fn authorization_requests_have_a_challenge()
    ensures have { AuthorizationRequestsHaveAChallenge }
    ensures only { ChallengesAreInAuthorizationRequests }
{}

/// In any legal history each token request has a verifier (RFC 7636, 4.5). No other reply has one.
pub fn token_requests_have_a_verifier()
    ensures have { TokenRequestsHaveAVerifier }
    ensures only { VerifiersAreInTokenRequests }
{}

/// In any legal history a verifier is sent only with the code of an authorization response that the browser brought that had begun
/// the login with its state. The authorization request of that login had the challenge of this verifier (RFC 7636, 4.5).
pub fn verifiers_are_of_their_login()
    ensures { VerifiersAreOfTheirLogin }
{}

/// The verifiers of any two drawn words are different if the words are. So no two logins have one verifier, if all drawn words are
/// different.
pub fn verifiers_tell_their_words()
    ensures { VerifiersTellTheirWords }
{}

/// The location of an authorization request is that of the party inside with the challenge and its method (RFC 7636, 4.3).
pub fn challenges_are_in_the_location()
    ensures { ChallengesAreInTheLocation }
{}

/// The body of a token request is that of the party inside with the verifier (RFC 7636, 4.5). The rest of the message is as it was.
pub fn verifiers_are_in_the_token_request()
    ensures { VerifiersAreInTheTokenRequest }
{}
