// Laws about the tables, for the crates above.

ghost use Rattle.std.specs.Prelude.{◌≡◌, ℕ, List, length};
ghost use Rattle.oidc_words.specs.declared.scopes.Scopes.{Scopes};
ghost use Rattle.oidc_words.specs.Scopes.{no_scopes};
ghost use Rattle.code_grant.specs.Consents.{no_consents, granted_to, with_grant};
ghost use Rattle.code_grant.specs.Laws.{RedeemedCodesAreRedeemable, RedeemableCodesAreRedeemed, RedeemedCodesAreSpent, SpentCodesStaySpent};
ghost use Rattle.code_grant.specs.Laws.{SpentCodesAreRefused, CodesAreRedeemedOnce, SecondUsesEndTheTokens, OtherClientsChangeNothing, OtherTokensStay};
ghost use Rattle.code_grant.specs.Laws.{RedemptionLooksAtOneRow, OtherIssuesDoNotCount, OtherRedemptionsDoNotCount, PurgesDoNotCount, GrantsAreJoined};
ghost use Rattle.code_grant.specs.Laws.{OtherGrantsStay};

/// A code is redeemed if and only if its own client redeems it with its own redirect URI, unspent and within 120 seconds (RFC
/// 6749, 4.1.2 and 4.1.3).
pub fn redeemed_codes_are_redeemable()
    ensures redeemable { RedeemedCodesAreRedeemable }
    ensures redeemed { RedeemableCodesAreRedeemed }
{}

/// A code is redeemed at most once (RFC 6749, 4.1.2). After its redemption it is spent, through all calls that do not issue its
/// word again, and a spent code is never redeemed.
pub fn codes_are_redeemed_once()
    ensures spent { RedeemedCodesAreSpent }
    ensures stays { SpentCodesStaySpent }
    ensures refused { SpentCodesAreRefused }
    ensures once { CodesAreRedeemedOnce }
{}

/// A second use of a code by its own client removes every access token issued for the code, at any moment and with any redirect
/// URI. A use by another client changes nothing. No use removes an access token of another code or of none (RFC 6749, 4.1.2).
pub fn second_uses_end_the_tokens()
    ensures own { SecondUsesEndTheTokens }
    ensures other { OtherClientsChangeNothing }
    ensures rest { OtherTokensStay }
{}

/// The result of redeeming a code depends only on the row of that code. No code with another word changes it, whoever has it,
/// and neither does a purge while the code is kept.
pub fn other_codes_do_not_count()
    ensures row { RedemptionLooksAtOneRow }
    ensures issued { OtherIssuesDoNotCount }
    ensures redeemed { OtherRedemptionsDoNotCount }
    ensures purged { PurgesDoNotCount }
{}

/// A user's grant to a client is added to the earlier ones, and nothing else changes.
pub fn grants_are_joined()
    ensures none { (user client : ℕ) → granted_to user client no_consents ≡ no_scopes }
    ensures room { length no_consents ≡ 65536 }
    ensures joined { GrantsAreJoined }
    ensures others { OtherGrantsStay }
    ensures long { (user client : ℕ) (scopes : Scopes) (consents : List Scopes) → length (with_grant user client scopes consents) ≡ length consents }
{}
