// Membership of a text in a list, and texts as words separated by spaces (RFC 6749, 3.3).

ghost use Rattle.std.specs.Prelude.{◌≡◌, map, IfOk};
ghost use Rattle.std.specs.List.{list_all};
ghost use Rattle.sso_base.specs.Texts.{has_text};
ghost use Rattle.oidc_words.specs.Words as spec;

use sso_base::{NoMemory, Text};
use std::alloc::{AllocError, Global};

/// Whether the text is one of these.
pub fn is_one_of(text: &str, texts: &[&str]) -> bool
    ensures { result ≡ has_text text.now (map (λ t. t.now) texts.now) }
{
    for other in texts {
        if text == *other {
            return true;
        }
    }
    false
}

// Whether some text of the list differs from this one.
pub(crate) fn has_other(text: &str, texts: &[&str]) -> bool
    ensures { result ≡ spec.has_other text.now (map (λ t. t.now) texts.now) }
{
    for other in texts {
        if text != *other {
            return true;
        }
    }
    false
}

// Whether no word occurs twice.
fn are_distinct(words: &[&str]) -> bool
    ensures { result ≡ spec.is_distinct (map (λ w. w.now) words.now) }
{
    for place in 0..words.len() {
        if is_one_of(words[place], &words[place + 1..]) {
            return false;
        }
    }
    true
}

// Whether each word is a known one.
fn are_known(known: &[&str], words: &[&str]) -> bool
    ensures { result ≡ list_all (λ w. has_text w (map (λ k. k.now) known.now)) (map (λ w. w.now) words.now) }
{
    for word in words {
        if !is_one_of(word, known) {
            return false;
        }
    }
    true
}

// Whether each word is a known one and none occurs twice.
pub(crate) fn are_words(known: &[&str], words: &[&str]) -> bool
    ensures { result ≡ spec.are_words (map (λ k. k.now) known.now) (map (λ w. w.now) words.now) }
{
    are_known(known, words) && are_distinct(words)
}

/// The words of a text, which are separated by one space each. Two spaces in a row enclose an empty word.
pub fn words_of(alloc: Global, text: &str) -> Result<Vec<&str>, AllocError>
    ensures { IfOk result (λ v. map (λ w. w.now) v.items ≡ spec.words_of text.now) }
{
    text.split(' ').collect(alloc)
}

/// Whether the text has the word.
pub fn has_word(text: &str, word: &str) -> bool
    ensures { result ≡ spec.has_word word.now text.now }
{
    text.split(' ').any(|piece| word == piece)
}

/// The words of a parameter; none if it is absent. Empty words are left out.
#[tactic(auto, unfolding(crate::specs::Words::parameter_words))]
pub fn parameter_words(alloc: Global, text: &Option<Text>) -> Result<Vec<&str>, NoMemory>
    ensures { IfOk result (λ v. map (λ w. w.now) v.items ≡ spec.parameter_words text.now) }
{
    let mut words = Vec::new(alloc);
    let Some(text) = text else {
        return Ok(words);
    };
    let pieces = words_of(alloc, text.as_str())?;
    for piece in &pieces {
        if !piece.is_empty() {
            words.push(*piece)?;
        }
    }
    Ok(words)
}

// The chosen words, in order.
fn chosen<'a>(alloc: Global, words: &[(bool, &'a str)]) -> Result<Vec<&'a str>, NoMemory>
    ensures { IfOk result (λ v. map (λ w. w.now) v.items ≡ spec.chosen (map spec.choice_of words.now)) }
{
    let mut kept = Vec::new(alloc);
    for word in words {
        let (is_chosen, text) = *word;
        if is_chosen {
            kept.push(text)?;
        }
    }
    Ok(kept)
}

/// The chosen words, in order, separated by one space each.
#[tactic(auto, using(crate::proofs::Spacing::words_joined))]
pub fn spaced(alloc: Global, words: &[(bool, &str)]) -> Result<Text, NoMemory>
    ensures { IfOk result (λ t. t ≡ spec.spaced (map spec.choice_of words.now)) }
{
    let kept = chosen(alloc, words)?;
    Ok(Text::from_string(kept.join(alloc, " ")?))
}
