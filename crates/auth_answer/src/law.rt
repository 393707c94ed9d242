// Laws about authorization responses, for the crates above.

ghost use Rattle.std.specs.Prelude.{◌≡◌, ◌++◌, ℕ, List, codes, Option, Ok, Err, option_map, option_and_then, IfSome};
ghost use Rattle.std.specs.Str.{IsUtf8};
ghost use Rattle.sso_base.specs.Words.{Word, word_of_text};
ghost use Rattle.request_params.specs.Reading.{value_of};
ghost use Rattle.oidc_words.specs.declared.errors.Refusal.{Refusal};
ghost use Rattle.oidc_words.specs.Lives.{access_life_text};
ghost use Rattle.oidc_words.specs.TokenTypes.{bearer_word};
ghost use Rattle.auth_answer.specs.declared.answer.Answer.{Answer};
ghost use Rattle.auth_answer.specs.declared.heard.Heard.{Heard};
ghost use Rattle.auth_answer.specs.declared.no.AnswerNo.{AnswerNo};
ghost use Rattle.auth_answer.specs.Printing.{pairs_of, answer_params, answer_form, answer_location, answer_mark, refusal_form, refusal_location};
ghost use Rattle.auth_answer.specs.Reading.{answer_read, HasAnswer, RefusesAnswer, IsHeard};
ghost use Rattle.auth_answer.specs.Sent.{refusal_heard, StatesWord};
ghost use Rattle.auth_answer.specs.Laws.{WrittenAnswersAreRead, WrittenAnswersAreReadWithAnyState, OwnQueriesAreIgnored};

/// The location of a response is its redirect URI, a mark and its form.
pub fn responses_stand_behind_redirection_uris()
    ensures answer { (a : Answer) → answer_location a ≡ a.redirect ++ answer_mark a.redirect a.fragment ++ answer_form a }
    ensures refusal { (r : Refusal) → refusal_location r ≡ r.redirect ++ answer_mark r.redirect r.fragment ++ refusal_form r }
{}

/// A successful response has `token_type` `Bearer` and `expires_in`, the life of the access token in seconds, if and only if it
/// has an access token.
pub fn access_tokens_have_their_type_and_life()
    ensures token_type { (a : Answer) → value_of (codes "token_type") (pairs_of (answer_params a)) ≡ option_map (λ _. bearer_word) a.access }
    ensures expires_in { (a : Answer) → value_of (codes "expires_in") (pairs_of (answer_params a)) ≡ option_map (λ _. access_life_text) a.access }
{}

/// A form is accepted if and only if no parameter name of a response occurs twice in it, and the result is the values of these
/// names. The result consists of words, and texts in UTF-8.
pub fn forms_have_their_answers()
    ensures stands { (form : List ℕ) (heard : Heard) → answer_read form ≡ Ok heard → HasAnswer form heard }
    ensures read { (form : List ℕ) (heard : Heard) → HasAnswer form heard → answer_read form ≡ Ok heard }
    ensures values { (form : List ℕ) (heard : Heard) → answer_read form ≡ Ok heard → IsHeard heard }
{}

/// A form is rejected if and only if a parameter name of a response is repeated, and the error holds the first such name.
pub fn refused_answers_repeat_a_name()
    ensures cause { (form : List ℕ) (e : AnswerNo) → answer_read form ≡ Err e → RefusesAnswer form e }
    ensures refused { (form : List ℕ) (e : AnswerNo) → RefusesAnswer form e → answer_read form ≡ Err e }
{}

/// Reading the form of a successful response returns its parts and no error, if its ID Token is UTF-8. If its state is absent
/// or the text of a word, the result has that word as its state.
pub fn written_answers_are_read()
    ensures read { WrittenAnswersAreRead }
    ensures any_state { WrittenAnswersAreReadWithAnyState }
{}

/// Reading the form of an error response returns its code and its state, and nothing else.
pub fn written_refusals_are_read()
    ensures read { (r : Refusal) (state : Option Word) → StatesWord r.state state → answer_read (refusal_form r) ≡ Ok (refusal_heard r state) }
    ensures any_state { (r : Refusal) → IfSome r.state IsUtf8 → answer_read (refusal_form r) ≡ Ok (refusal_heard r (option_and_then word_of_text r.state)) }
{}

/// The redirect URI's own query changes nothing, if it has no parameter name of a response.
pub fn own_queries_are_ignored()
    ensures { OwnQueriesAreIgnored }
{}
