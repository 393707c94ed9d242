// Response types.

ghost use Rattle.std.specs.Prelude.{◌≡◌, IfOk};
ghost use Rattle.oidc_words.specs.Types as spec;

use crate::words::is_one_of;
use sso_base::{NoMemory, Text, Texts};
use std::alloc::Global;

/// The words of a response type (OAuth 2.0 Multiple Response Type Encoding Practices, 3 and 5).
#[derive(Clone, Copy, PartialEq, Eq)]
pub struct Types {
    pub code: bool,
    pub id_token: bool,
    pub token: bool,
}

impl Types {
    /// The words of the response type with this number, counted from 0 in the order `code`, `id_token`, `id_token token`, `code
    /// id_token`, `code token`, `code id_token token`. `None`, and any number above five, gives no words.
    pub fn of_number(number: Option<usize>) -> Types
        ensures { result ≡ spec.types_of_number number }
    {
        match number {
            None => Types {
                code: false,
                id_token: false,
                token: false,
            },
            Some(n) => Types {
                code: n == 0 || n == 3 || n == 4 || n == 5,
                id_token: n == 1 || n == 2 || n == 3 || n == 5,
                token: n == 2 || n == 4 || n == 5,
            },
        }
    }

    /// The text of the response type: its words in the order `code`, `id_token`, `token`, separated by one space each. It is
    /// empty if there are no words.
    pub fn text(self) -> &'static str
        ensures { result.now ≡ spec.types_text self }
    {
        match (self.code, self.id_token, self.token) {
            (false, false, false) => "",
            (false, false, true) => "token",
            (false, true, false) => "id_token",
            (false, true, true) => "id_token token",
            (true, false, false) => "code",
            (true, false, true) => "code token",
            (true, true, false) => "code id_token",
            (true, true, true) => "code id_token token",
        }
    }

    /// Whether the response is in the fragment of the redirect URI instead of its query (OAuth 2.0 Multiple Response Type
    /// Encoding Practices, 3 and 5). This is true for every type except `code`. Without a type the response is in the query.
    pub fn is_in_fragment(self) -> bool
        ensures { result ≡ spec.is_in_fragment self }
    {
        self.id_token || self.token
    }
}

/// The texts of the six response types, in order.
pub fn type_texts(alloc: Global) -> Result<Texts, NoMemory>
    ensures { IfOk result (λ t. t ≡ spec.response_types) }
{
    let mut texts = Texts::new(alloc);
    texts.push(Text::new(alloc, Types::of_number(Some(0)).text())?)?;
    texts.push(Text::new(alloc, Types::of_number(Some(1)).text())?)?;
    texts.push(Text::new(alloc, Types::of_number(Some(2)).text())?)?;
    texts.push(Text::new(alloc, Types::of_number(Some(3)).text())?)?;
    texts.push(Text::new(alloc, Types::of_number(Some(4)).text())?)?;
    texts.push(Text::new(alloc, Types::of_number(Some(5)).text())?)?;
    Ok(texts)
}

/// The number of a response type among the six, counted from 0. `None` if and only if the text is none of them. Its words may
/// be in any order.
#[tactic(auto, unfolding(crate::specs::Types::spellings))]
pub fn number_of_type(text: &str) -> Option<usize>
    ensures { result ≡ spec.type_number text.now }
{
    if is_one_of(text, &["code"]) {
        return Some(0);
    }
    if is_one_of(text, &["id_token"]) {
        return Some(1);
    }
    if is_one_of(text, &["id_token token", "token id_token"]) {
        return Some(2);
    }
    if is_one_of(text, &["code id_token", "id_token code"]) {
        return Some(3);
    }
    if is_one_of(text, &["code token", "token code"]) {
        return Some(4);
    }
    let three = is_one_of(
        text,
        &[
            "code id_token token",
            "code token id_token",
            "id_token code token",
            "id_token token code",
            "token code id_token",
            "token id_token code",
        ],
    );
    if three { Some(5) } else { None }
}
