// A law about the pages of questions.

ghost use Rattle.std.specs.Prelude.{◌≡◌};
ghost use Rattle.sso_base.specs.Words.{Word, word_text};
ghost use Rattle.client_registry.specs.Configuration.{Configuration};
ghost use Rattle.html_pages.specs.Escaping.{IsInert};
ghost use Rattle.html_pages.specs.Posting.{posted};
ghost use Rattle.rp_signout.specs.Pages.{question_shown};
ghost use Rattle.rp_signout.specs.Posted.{question_posted};

/// The page of a question posts the question's word and the answer to the provider, on full and on plain pages: the same method and
/// action, and the same names and values in the same order, if the path of the issuer has no `"`, `<` and `>`.
pub fn full_questions_post_what_plain_ones_post()
    ensures { (c : Configuration) (w : Word) → IsInert c.prefix → posted (question_shown c w).body ≡ question_posted c.prefix (word_text w) }
{}
