// The page on which a user is asked.

ghost use Rattle.std.specs.Prelude.{◌≡◌, IfOk};
ghost use Rattle.sso_base.specs.Words.{word_text};
ghost use Rattle.rp_signout.specs.Pages as spec;

use crate::routes::CONFIRM_PATH;
use http_reply::joined;
use op_exchange::{AGREE_FIELD, AGREE_VALUE};
use sso_base::{Blob, NoMemory, Text, Word};
use std::alloc::Global;

/// The field with the text of the question's word.
pub(crate) const WORD_FIELD: &str = "word";

// The page of a question, given the text of its word, with an action below the path of the issuer.
#[tactic(auto, unfolding(crate::specs::Pages::question_page))]
fn page_text(alloc: Global, prefix: &str, word: &str) -> Result<Blob, NoMemory>
    ensures { IfOk result (λ b. b ≡ spec.question_page prefix.now word.now) }
{
    let pieces = [
        "<!doctype html><title>Logout</title><form method=\"post\" action=\"",
        prefix,
        CONFIRM_PATH,
        "\"><input type=\"hidden\" name=\"",
        WORD_FIELD,
        "\" value=\"",
        word,
        "\"><button name=\"",
        AGREE_FIELD,
        "\" value=\"",
        AGREE_VALUE,
        "\">Yes</button><button name=\"",
        AGREE_FIELD,
        "\" value=\"no\">No</button></form>",
    ];
    Ok(Blob::from_vec(joined(alloc, &pieces)?.into_bytes()))
}

/// The page of a question with this word.
pub(crate) fn question_page(alloc: Global, prefix: &Text, word: &Word) -> Result<Blob, NoMemory>
    ensures { IfOk result (λ b. b ≡ spec.question_page prefix.now (word_text word.now)) }
{
    let word = word.to_text(alloc)?;
    page_text(alloc, prefix.as_str(), word.as_str())
}
