// The words of a line.

ghost use Rattle.std.specs.Prelude.{◌≡◌, IfOk, Option, true, map, option_map};
ghost use Rattle.std.specs.List.{list_all};
ghost use Rattle.oidc_words.specs.Words.{is_filled};
ghost use Rattle.trace_lines.specs.LineWords.{is_plain, words_in};

use oidc_words::words_of;
use sso_base::NoMemory;
use std::alloc::Global;

fn is_plain_line(line: &[u8]) -> bool
    ensures { result ≡ is_plain line.now }
{
    line.iter().all(|b| 32 <= *b && *b <= 126)
}

fn text_of_plain(line: &[u8]) -> &str
    requires { is_plain line.now ≡ true }
    ensures { result.now ≡ line.now }
{
    std::str::from_utf8(line).unwrap()
}

fn are_filled(words: &[&str]) -> bool
    ensures { result ≡ list_all is_filled (map (λ w. w.now) words.now) }
{
    for word in words {
        if word.is_empty() {
            return false;
        }
    }
    true
}

// The words of a line. `None` if it is not words of visible ASCII, separated by single spaces.
pub(crate) fn read_words(alloc: Global, line: &[u8]) -> Result<Option<Vec<&str>>, NoMemory>
    ensures { IfOk result (λ words. option_map (λ v. map (λ w. w.now) v.items) words ≡ words_in line.now) }
{
    if !is_plain_line(line) {
        return Ok(None);
    }
    let words = words_of(alloc, text_of_plain(line))?;
    if !are_filled(words.as_slice()) {
        return Ok(None);
    }
    Ok(Some(words))
}
