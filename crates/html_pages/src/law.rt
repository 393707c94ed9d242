// Laws about texts and forms in pages, for the crates above.

ghost use Rattle.std.specs.Prelude.{◌≡◌, ◌++◌, ◌∷◌, false};
ghost use Rattle.std.specs.List.{list_any};
ghost use Rattle.sso_base.specs.Words.{Text};
ghost use Rattle.html_pages.specs.Escaping.{escaped, text_read, is_less, IsInert};
ghost use Rattle.html_pages.specs.Documents.{document, document_until, closing};
ghost use Rattle.html_pages.specs.Forms.{form, hidden};
ghost use Rattle.html_pages.specs.Posting.{posted, form_posted, hidden_posted};

/// An escaped text has no `"`, `<` and `>`, and a user agent reads it as the text that was written, so each `&` in it begins a
/// reference.
pub fn escaped_texts_are_read_as_they_were()
    ensures inert { (t : Text) → IsInert (escaped t) }
    ensures read { (t : Text) → text_read (escaped t) ≡ t }
{}

/// A page posts what its content posts: the heading and the title of its site add nothing, whatever they are.
pub fn documents_post_their_content()
    ensures { (heading site content : Text) → posted (document heading site content) ≡ posted (content ++ closing) }
{}

/// So does a page that a user agent leaves after some seconds, if its URL has no `<`.
pub fn documents_that_are_left_post_their_content()
    ensures { (seconds to heading site content : Text) → list_any is_less seconds ≡ false → list_any is_less to ≡ false
        → posted (document_until seconds to heading site content) ≡ posted (content ++ closing) }
{}

/// A form and a hidden field are read as they were written, whatever follows.
pub fn forms_are_read_as_they_were_written()
    ensures form { (action rest : Text) → IsInert action → posted (form action ++ rest) ≡ form_posted action ∷ posted rest }
    ensures hidden { (name value rest : Text) → IsInert name → IsInert value → posted (hidden name value ++ rest) ≡ hidden_posted name value ∷ posted rest }
{}
