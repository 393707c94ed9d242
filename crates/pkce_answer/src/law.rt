// What is true of codes and their verifiers.

ghost use Rattle.std.specs.Prelude.{◌≡◌, ◌↔◌, ℕ, List, [], ◌∷◌, ◌++◌, reverse, Option, Some, None, Ok};
ghost use Rattle.sso_base.specs.Rows.{row_of};
ghost use Rattle.sso_base.specs.Stands.{Stands};
ghost use Rattle.sso_base.specs.Words.{Word, Text, word_of_text};
ghost use Rattle.client_registry.specs.Configuration.{Configuration};
ghost use Rattle.token_endpoint.specs.declared.granting.Grant.{Grant};
ghost use Rattle.auth_request.specs.declared.wish.Wish.{Wish};
ghost use Rattle.code_grant.specs.declared.rows.CodeRow.{CodeRow};
ghost use Rattle.op_exchange.specs.declared.ask.OpAsk.TheVariants as op_ask;
ghost use Rattle.op_exchange.specs.declared.reply.OpReply.TheVariants as op_told;
ghost use Rattle.op_answer.specs.Codes.{held_code};
ghost use Rattle.core_stack.specs.declared.marks.TurnMark.{TurnMark};
ghost use Rattle.core_stack.specs.declared.marks.CodeMark.{CodeMark};
ghost use Rattle.core_stack.specs.Asked.{CodeAsked};
ghost use Rattle.core_stack.specs.Rows.{turn_mark_name, code_mark_name};
ghost use Rattle.core_stack.specs.Marks as marks;
ghost use Rattle.pkce_answer.specs.declared.asks.Verifier.TheVariants as verifier;
ghost use Rattle.pkce_answer.specs.Challenges.{Digest, challenge_of, asked_mark};
ghost use Rattle.pkce_answer.specs.Around.{Outer, inner_history, outer_plain, outer_told, outer_given};
ghost use Rattle.pkce_answer.specs.Answering.{code_challenge, IsPkceHistory, IsLegalPkce};
ghost use Rattle.pkce_answer.specs.Laws.{HasNewWords, IsOnlyVerifier, WasAsked, IsRedeemed};

use core_stack::Provides;

/// Each legal history of the core is one of those over which the laws are said, whatever it weighs.
pub fn legal_histories_are_answered<P: Provides>()
    ensures { (x : P) (h : List (Outer P.Ask P.Reply)) → IsLegalPkce P.plain_ask P.given_reply P.IsAsk P.weighs P.most P.is_legal (P.setup x) h
        → IsPkceHistory P.plain_ask P.op_reply P.given_reply P.provided P.IsAsk (P.provider_registry x) h }
{}

/// Each code that the provider holds answers one authorization request: that request had the wish of the code, and the code's
/// challenge is its challenge (RFC 7636, 4.4).
pub fn codes_keep_their_challenge<P: Provides>()
    ensures { (c : Configuration) (h : List (Outer P.Ask P.Reply)) (at : ℕ) (w : Word) (code : CodeRow)
        → IsPkceHistory P.plain_ask P.op_reply P.given_reply P.provided P.IsAsk c h
        → held_code (reverse (P.provided (inner_history h))) at (Some w) ≡ Some code
        → WasAsked P.plain_ask P.given_reply (reverse h) at w code }
{}

/// If no step draws a word that an earlier step drew, a code answers no two authorization requests with different challenges or wishes.
/// So each code that the provider holds has exactly one challenge.
pub fn codes_answer_one_request<P: Provides>()
    ensures { (c : Configuration) (h : List (Outer P.Ask P.Reply)) (w : Word) (one other : Option Digest) (wish wanted : Wish)
        → IsPkceHistory P.plain_ask P.op_reply P.given_reply P.provided P.IsAsk c h → HasNewWords (reverse h)
        → CodeAsked (outer_plain P.plain_ask) (outer_given P.given_reply) asked_mark (reverse h) w one wish
        → CodeAsked (outer_plain P.plain_ask) (outer_given P.given_reply) asked_mark (reverse h) w other wanted
        → (one ≡ other) × (wish ≡ wanted) }
{}

/// A token request gets tokens only for a code that the provider holds. If the authorization request that the code answers had a
/// challenge, the token request has a verifier of that challenge, and otherwise it has none (RFC 7636, 4.6). If it is the challenge of
/// a text, and no other verifier of the history up to this request has it, the verifier is that text.
pub fn codes_need_their_verifier<P: Provides>()
    ensures redeemed { (c : Configuration) (h : List (Outer P.Ask P.Reply)) (p : Outer P.Ask P.Reply) (grant : Grant) (access : Word)
        (id : Text) → IsPkceHistory P.plain_ask P.op_reply P.given_reply P.provided P.IsAsk c (h ++ p ∷ [])
        → P.plain_ask p.entry.ask.inner ≡ Some (op_ask.Token (Ok grant)) → outer_told P.op_reply p.reply ≡ Some (op_told.Tokens access id)
        → IsRedeemed P.plain_ask P.given_reply (reverse h) (P.provided (inner_history h)) p.entry grant }
    ensures text { (c : Configuration) (h : List (Outer P.Ask P.Reply)) (p : Outer P.Ask P.Reply) (grant : Grant) (access : Word)
        (id : Text) (text : List ℕ) → IsPkceHistory P.plain_ask P.op_reply P.given_reply P.provided P.IsAsk c (h ++ p ∷ [])
        → P.plain_ask p.entry.ask.inner ≡ Some (op_ask.Token (Ok grant)) → outer_told P.op_reply p.reply ≡ Some (op_told.Tokens access id)
        → code_challenge P.plain_ask P.given_reply (reverse h) p.entry.at (word_of_text grant.code) ≡ Some (challenge_of text)
        → IsOnlyVerifier (p ∷ reverse h) text → p.entry.ask.verifier ≡ verifier.Given text }
{}

/// The row of a turn or of a code with its challenge is found after a past if and only if some pair made it, and no later pair made one
/// of its name or ended it.
pub fn challenges_stand<P: Provides>()
    ensures turns { (past : List (Outer P.Ask P.Reply)) (w : Word) (row : TurnMark (Option Digest))
        → (row_of turn_mark_name w (marks.marked_turns (outer_plain P.plain_ask) (outer_given P.given_reply) asked_mark past) ≡ Some row)
        ↔ Stands turn_mark_name (marks.turn_made (outer_plain P.plain_ask) (outer_given P.given_reply) asked_mark)
        (marks.turn_kept (outer_plain P.plain_ask) (outer_given P.given_reply)) past w row }
    ensures codes { (past : List (Outer P.Ask P.Reply)) (w : Word) (row : CodeMark (Option Digest))
        → (row_of code_mark_name w (marks.marked_codes (outer_plain P.plain_ask) (outer_given P.given_reply) asked_mark None past) ≡ Some row)
        ↔ Stands code_mark_name (marks.code_made (outer_plain P.plain_ask) (outer_given P.given_reply) asked_mark None) marks.code_kept past w row }
{}
