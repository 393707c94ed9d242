// The values of `prompt`.

ghost use Rattle.std.specs.Prelude.{◌≡◌, map, IfOk};
ghost use Rattle.oidc_words.specs.Prompts as spec;

use crate::words::{are_words, has_other, is_one_of, words_of};
use sso_base::NoMemory;
use std::alloc::Global;

const NONE: &str = "none";

const LOGIN: &str = "login";

const CONSENT: &str = "consent";

const ACCOUNT: &str = "select_account";

/// Which values `prompt` has (OpenID Connect Core 1.0, 3.1.2.1).
#[derive(Clone, Copy)]
pub struct Prompt {
    /// `none`.
    pub none: bool,
    /// A value other than `none`, known or not.
    pub others: bool,
    /// `login` or `select_account`.
    pub login: bool,
    /// `consent`.
    pub consent: bool,
}

impl Prompt {
    /// The values of `prompt` among words.
    pub fn among(words: &[&str]) -> Prompt
        ensures { result ≡ spec.prompt_among (map (λ w. w.now) words.now) }
    {
        Prompt {
            none: is_one_of(NONE, words),
            others: has_other(NONE, words),
            login: is_one_of(LOGIN, words) || is_one_of(ACCOUNT, words),
            consent: is_one_of(CONSENT, words),
        }
    }
}

/// Whether the text consists of known values of `prompt`, each at most once, separated by one space each (OpenID Connect Core
/// 1.0, 3.1.2.1).
pub fn is_prompt(alloc: Global, text: &str) -> Result<bool, NoMemory>
    ensures { IfOk result (λ b. b ≡ spec.is_prompt text.now) }
{
    let words = words_of(alloc, text)?;
    Ok(are_words(&[NONE, LOGIN, CONSENT, ACCOUNT], &words))
}
