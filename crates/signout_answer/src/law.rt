// Where browsers are sent, when sessions end, and which messages are sent.

ghost use Rattle.std.specs.Prelude.{◌≡◌, ◌↔◌, true, List, [], ◌∷◌, ◌++◌, reverse, Option, Some};
ghost use Rattle.sso_base.specs.Words.{Word, Text};
ghost use Rattle.sso_base.specs.Rows.{row_of};
ghost use Rattle.sso_base.specs.Stands.{Stands};
ghost use Rattle.sso_base.specs.declared.history.Pair.{Pair};
ghost use Rattle.signout_answer.specs.declared.asks.EndAsk.{EndAsk};
ghost use Rattle.signout_answer.specs.declared.asks.EndReply.TheVariants as reply;
ghost use Rattle.signout_answer.specs.declared.asks.EndSetup.{EndSetup};
ghost use Rattle.signout_answer.specs.declared.parts.OwnReply.{OwnReply};
ghost use Rattle.signout_answer.specs.declared.questions.QuestionRow.{QuestionRow};
ghost use Rattle.signout_answer.specs.Questions.{question_name};
ghost use Rattle.signout_answer.specs.Around.{Outer, inner_history, own_pair};
ghost use Rattle.signout_answer.specs.Answering as spec;
ghost use Rattle.signout_answer.specs.Answering.{SignoutSetup, IsLegalSignout};
ghost use Rattle.signout_answer.specs.Laws as laws;

use core_stack::Provides;

/// A browser that is sent somewhere after a sign-out is sent to a URI that is registered for a client. An earlier request had this URI and
/// an ID Token of the provider for that client, sealed under the client's secret, and the state is that of the request (RP-Initiated
/// Logout 1.0, 3).
pub fn locations_are_registered<P: Provides>()
    ensures { (s : SignoutSetup P.Setup) (h before after : List (Outer P.Ask P.Reply)) (p : Outer P.Ask P.Reply) (to : Text) (r : P.Reply)
        → IsLegalSignout P.plain_ask P.IsAsk P.weighs P.most P.is_legal s h → reverse h ≡ after ++ p ∷ before → p.reply ≡ reply.Gone (Some to) r
        → laws.WasAllowed s.own before to }
{}

/// A question ends a session only after a `yes` that presents the question's word, and the session that was presented with the request.
/// Any other reply without the core inside leaves the provider's history as it is: no session ends.
pub fn questions_end_sessions_only_after_yes<P: Provides>()
    ensures yes { (s : SignoutSetup P.Setup) (h before after : List (Outer P.Ask P.Reply)) (p : Outer P.Ask P.Reply) (back : Option Text)
        (r : P.Reply) → IsLegalSignout P.plain_ask P.IsAsk P.weighs P.most P.is_legal s h → reverse h ≡ after ++ p ∷ before
        → p.reply ≡ reply.Gone back r → laws.SaidYes s.own P.plain_ask before p back }
    ensures otherwise { (h : List (Outer P.Ask P.Reply)) (own : Pair (EndAsk P.Ask) OwnReply)
        → P.provided (inner_history (h ++ own_pair own ∷ [])) ≡ P.provided (inner_history h) }
{}

/// A request that is refused, an answer to no question, and a request for which there is no room change nothing: the questions stay as
/// they are, and so does the history of the core inside.
pub fn refused_requests_change_nothing<P: Provides>()
    ensures questions { (c : EndSetup) (past : List (Outer P.Ask P.Reply)) (own : Pair (EndAsk P.Ask) OwnReply)
        → laws.is_refusal own.reply ≡ true → spec.questions c (own_pair own ∷ past) ≡ spec.questions c past }
    ensures inside { (h : List (Outer P.Ask P.Reply)) (own : Pair (EndAsk P.Ask) OwnReply)
        → inner_history (h ++ own_pair own ∷ []) ≡ inner_history h }
{}

/// The messages of a sign-out after a question are those of the provider's own sign-out of the presented session, which its history gets:
/// none if the session does not live, and otherwise one to each client that the session has logged in to and that has a logout URI, in
/// the order of the registry (OpenID Connect Back-Channel Logout 1.0, 2.5).
pub fn messages_are_those_of_a_sign_out<P: Provides>()
    ensures { (x : P) (own : EndSetup) (h : List (Outer P.Ask P.Reply)) (p : Outer P.Ask P.Reply) (back : Option Text) (r : P.Reply)
        → IsLegalSignout P.plain_ask P.IsAsk P.weighs P.most P.is_legal (record { own = own; inner = P.setup x }) (h ++ p ∷ [])
        → p.reply ≡ reply.Gone back r
        → (said : laws.SaidYes own P.plain_ask (reverse h) p back)
        × laws.IsSignOut P.given_reply P.notices (P.provider_registry x) (P.provided (inner_history h))
        (P.provided (inner_history (h ++ p ∷ []))) p r said.session }
{}

/// A question is found after a past if and only if some pair made it, and no later pair made one of its word or ended it.
pub fn questions_stand<P: Provides>()
    ensures { (c : EndSetup) (past : List (Outer P.Ask P.Reply)) (w : Word) (row : QuestionRow)
        → (row_of question_name w (spec.questions c past) ≡ Some row) ↔ Stands question_name (spec.question_made c) (spec.question_kept c) past w row }
{}
