//! Laws of the definitions, for the crates above this one.

ghost use Rattle.std.specs.Prelude.{◌≡◌, Some};
ghost use Rattle.sso_base.specs.Words.{Word, Text, IsWord, word_text, word_of_text};

/// Each word has exactly one text, and each text is the text of at most one word.
pub fn words_have_one_text()
    ensures read_back { (w : Word) → IsWord w → word_of_text (word_text w) ≡ Some w }
    ensures spelled { (t : Text) (w : Word) → word_of_text t ≡ Some w → (t ≡ word_text w) × IsWord w }
    ensures word_is_determined { (v w : Word) → IsWord v → IsWord w → word_text v ≡ word_text w → v ≡ w }
    ensures text_is_determined { (s t : Text) (w : Word) → word_of_text s ≡ Some w → word_of_text t ≡ Some w → s ≡ t }
{}
