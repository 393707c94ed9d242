// What is true of families, their tokens and their clients.

ghost use Rattle.std.specs.Prelude.{◌≡◌, ◌≤◌, ℕ, false, List, ◌∷◌, ◌++◌, Some, Result, Ok};
ghost use Rattle.sso_base.specs.Words.{Word};
ghost use Rattle.sso_base.specs.Legal.{last_moment};
ghost use Rattle.oidc_words.specs.declared.scopes.Scopes.{Scopes};
ghost use Rattle.client_registry.specs.Configuration.{Configuration};
ghost use Rattle.token_endpoint.specs.declared.no.GrantNo.{GrantNo};
ghost use Rattle.token_endpoint.specs.declared.error.TokenError.{TokenError as token_error_of};
ghost use Rattle.refresh_answer.specs.declared.asks.RefreshGrant.{RefreshGrant};
ghost use Rattle.refresh_answer.specs.declared.asks.RefreshAsk.TheVariants as ask;
ghost use Rattle.refresh_answer.specs.declared.asks.OwnReply.TheVariants as own_as;
ghost use Rattle.refresh_answer.specs.declared.asks.RefreshReply.TheVariants as reply_as;
ghost use Rattle.refresh_answer.specs.declared.rows.FamilyRow.{FamilyRow as family_row};
ghost use Rattle.refresh_answer.specs.Around.{Outer};
ghost use Rattle.refresh_answer.specs.Families as spec;
ghost use Rattle.refresh_answer.specs.Answering.{IsRefreshPast};
ghost use Rattle.refresh_answer.specs.Laws as laws;

use core_stack::Provides;

/// A living family has one current token and no other (RFC 9700, 4.14.2). If no step draws a word that an earlier step drew, a client gets
/// new tokens for a refresh token at most once.
pub fn refresh_tokens_rotate<P: Provides>()
    ensures current { (c : Configuration) (past : List (Outer P.Ask P.Reply)) (at n : ℕ) (f : family_row)
        → IsRefreshPast P.plain_ask P.given_reply P.provided P.IsAsk c past → last_moment past ≤ at
        → spec.living P.plain_ask P.given_reply P.provided past at n ≡ Some f
        → (w : Word) × laws.IsCurrentIn (spec.tokens P.plain_ask P.given_reply P.provided past) n w }
    ensures once { (c : Configuration) (past after between before : List (Outer P.Ask P.Reply)) (p q : Outer P.Ask P.Reply) (w : Word)
        → IsRefreshPast P.plain_ask P.given_reply P.provided P.IsAsk c past → laws.HasNewWords past
        → past ≡ after ++ q ∷ (between ++ p ∷ before) → laws.IsRefreshed p w → laws.IsRefreshed q w → ⊥ }
{}

/// After the client of a family presents an old token of it, or its code once more, no refresh token that the family ever has gets new
/// tokens, and none of its access tokens gets claims, if no step draws a word that an earlier step drew (RFC 9700, 4.14.2; RFC 6749,
/// 4.1.2).
pub fn reuse_ends_the_family<P: Provides>()
    ensures tokens { (c : Configuration) (past after between before : List (Outer P.Ask P.Reply)) (p q : Outer P.Ask P.Reply) (f : family_row) (w : Word)
        → IsRefreshPast P.plain_ask P.given_reply P.provided P.IsAsk c past → laws.HasNewWords past
        → past ≡ after ++ q ∷ (between ++ p ∷ before) → laws.EndsFamily P.plain_ask P.given_reply P.provided before p f
        → laws.WasTokenOf P.plain_ask P.given_reply P.provided past f.by w → laws.IsRefreshed q w → ⊥ }
    ensures accesses { (c : Configuration) (past after between before : List (Outer P.Ask P.Reply)) (p q : Outer P.Ask P.Reply) (f : family_row) (w : Word)
        → IsRefreshPast P.plain_ask P.given_reply P.provided P.IsAsk c past → laws.HasNewWords past
        → past ≡ after ++ q ∷ (between ++ p ∷ before) → laws.EndsFamily P.plain_ask P.given_reply P.provided before p f
        → laws.WasAccessOf P.plain_ask P.given_reply P.provided past f.by w → laws.IsInfo P.plain_ask q w → ⊥ }
{}

/// Only the client of a living family gets tokens for its current token (RFC 6749, 6 and 10.4), with the scope values of the family. A
/// refresh request of another client leaves the family.
pub fn tokens_stay_with_their_client<P: Provides>()
    ensures client { (c : Configuration) (past after before : List (Outer P.Ask P.Reply)) (p : Outer P.Ask P.Reply) (access refresh : Word) (scopes : Scopes)
        → IsRefreshPast P.plain_ask P.given_reply P.provided P.IsAsk c past
        → past ≡ after ++ p ∷ before → p.reply ≡ reply_as.Own (own_as.Refreshed access refresh scopes)
        → laws.IsByItsClient P.plain_ask P.given_reply P.provided before p scopes }
    ensures others { (c : Configuration) (past after before : List (Outer P.Ask P.Reply)) (p : Outer P.Ask P.Reply) (f : family_row) (grant : RefreshGrant)
        → IsRefreshPast P.plain_ask P.given_reply P.provided P.IsAsk c past
        → past ≡ after ++ p ∷ before → p.entry.ask ≡ ask.Refresh (Ok grant) → (grant.client ≡ f.client → ⊥)
        → spec.family_at f.by (spec.families P.plain_ask P.given_reply P.provided before) ≡ Some f
        → spec.family_at f.by (spec.families P.plain_ask P.given_reply P.provided (p ∷ before)) ≡ Some f }
{}

/// A refused refresh request changes no family and no token, unless the client of a family presents an old token of it.
pub fn refused_requests_change_nothing<P: Provides>()
    ensures { (past : List (Outer P.Ask P.Reply)) (p : Outer P.Ask P.Reply) (grant : Result RefreshGrant GrantNo) (code : token_error_of)
        → p.entry.ask ≡ ask.Refresh grant → p.reply ≡ reply_as.Own (own_as.Refused code)
        → ((f : family_row) → spec.is_replay
        (spec.row_presented (spec.tokens P.plain_ask P.given_reply P.provided past) p.entry.ask) p.entry.ask f ≡ false)
        → laws.IsAsBefore P.plain_ask P.given_reply P.provided past p }
{}
