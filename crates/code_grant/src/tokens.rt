// The access tokens of the provider.

ghost use Rattle.std.specs.Prelude.{◌≡◌, ◌<◌, true, length, None, IfSome, option_and_then};
ghost use Rattle.std.specs.Option.{option_copied};
ghost use Rattle.sso_base.specs.Rows.{row_of, if_lives};
ghost use Rattle.held_rows.specs.Held.{none_after, most_rows};
ghost use Rattle.code_grant.specs.Rows.{access_name, access_begun};
ghost use Rattle.oidc_words.specs.Lives.{access_life};
ghost use Rattle.code_grant.specs.Tables as spec;

use crate::grants::Grants;
use crate::rows::TokenRow;
use held_rows::{By, Keyed};
use sso_base::{Moment, Word};

impl Grants {
    // Removes the tokens that were issued for the code.
    pub(crate) fn end_tokens_of(&mut self, code: Word)
        ensures { self.new ≡ spec.tokens_of_ended code self.old }
    {
        let by = By::Group;
        self.tokens.take_out(&Keyed { by, word: code });
    }

    /// Adds an access token. Room was reserved, the table is not full, its word is new, and no other token was issued later.
    pub fn issue_token(&mut self, row: TokenRow)
        requires reserved { self.old.reserved.tokens ≡ true }
        requires few { length self.old.tokens < most_rows }
        requires unnamed { row_of access_name row.word self.old.tokens ≡ None }
        requires latest { none_after access_begun row.issued self.old.tokens ≡ true }
        requires user { row.user < 512 }
        requires client { row.client < 128 }
        ensures { self.new ≡ spec.with_token row self.old }
    {
        self.reserved.tokens = false;
        self.tokens.add(row);
    }

    /// The access token with this word; `None` if and only if no token in the table has it. Its life may have ended.
    pub fn live(&self, token: Word) -> Option<&TokenRow>
        ensures row { option_copied result ≡ row_of access_name token self.now.tokens }
        ensures in_range { IfSome (option_copied result) (λ row. (row.user < 512) × (row.client < 128)) }
        ensures held { spec.AreTokens self.now.tokens }
    {
        self.tokens.find(&token.bytes())
    }

    /// The access token with this word, if it lives at the moment; `None` if and only if no such token does.
    pub fn live_token(&self, word: Word, at: Moment) -> Option<&TokenRow>
        ensures row { option_copied result ≡ option_and_then (if_lives access_life access_begun at) (row_of access_name word self.now.tokens) }
        ensures held { spec.AreTokens self.now.tokens }
    {
        self.tokens.living(&word.bytes(), at)
    }
}
