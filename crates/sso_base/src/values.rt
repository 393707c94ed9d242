//! Facts that types give about their values, as lemmas for the proofs: texts are UTF-8, words have 32 bytes, numbers have their
//! size. Each call does nothing.

ghost use Rattle.std.specs.Prelude.{◌≡◌, ◌≤◌, length, IfSome};
ghost use Rattle.std.specs.Str.{IsUtf8};
ghost use Rattle.sso_base.specs.Words.{IsWord};
ghost use Rattle.sso_base.specs.Values.{IsWide, AreTexts, AreWords, latest_moment};

use crate::history::Entry;
use crate::text::Text;
use crate::texts::Texts;
use crate::word::Word;

/// A word has 32 bytes.
pub fn know_word(word: &Word)
    ensures { IsWord word.now }
{
    let _bytes = word.bytes();
}

/// The same for an optional word.
pub fn know_word_if(word: &Option<Word>)
    ensures { IfSome word.now IsWord }
{
    if let Some(word) = word {
        know_word(word);
    }
}

/// An optional text is UTF-8.
pub fn know_text_if(text: &Option<Text>)
    ensures { IfSome text.now IsUtf8 }
{
    if let Some(text) = text {
        let _text = text.as_str();
    }
}

/// A number has 64 bits.
pub fn know_number(n: u64)
    ensures { IsWide n }
{}

/// The same for an optional number.
pub fn know_number_if(n: Option<u64>)
    ensures { IfSome n IsWide }
{
    if let Some(n) = n {
        know_number(n);
    }
}

/// Texts are UTF-8.
pub fn know_texts(texts: &Texts)
    ensures { AreTexts texts.now }
{
    texts.know();
}

/// The same for optional texts.
pub fn know_texts_if(texts: &Option<Texts>)
    ensures { IfSome texts.now AreTexts }
{
    if let Some(texts) = texts {
        know_texts(texts);
    }
}

fn know_fresh(words: &[Word; 4])
    ensures four { length words.now ≡ 4 }
    ensures words { AreWords words.now }
{
    let [first, second, third, fourth] = words;
    know_word(first);
    know_word(second);
    know_word(third);
    know_word(fourth);
}

/// An entry has a moment and four words.
pub fn know_entry<A: Drop>(entry: &Entry<A>)
    ensures moment { entry.now.at ≤ latest_moment }
    ensures four { length entry.now.fresh ≡ 4 }
    ensures words { AreWords entry.now.fresh }
{
    let _seconds = entry.at.seconds();
    know_fresh(&entry.fresh);
}
