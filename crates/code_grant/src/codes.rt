// The codes of the provider.

ghost use Rattle.std.specs.Prelude.{◌≡◌, ◌<◌, true, length, None, IfSome, option_and_then, refl};
ghost use Rattle.std.specs.Option.{option_copied};
ghost use Rattle.sso_base.specs.Rows.{row_of, if_lives};
ghost use Rattle.held_rows.specs.Held.{none_after, most_rows};
ghost use Rattle.code_grant.specs.Rows.{code_name, code_begun};
ghost use Rattle.oidc_words.specs.Lives.{code_life};
ghost use Rattle.code_grant.specs.Tables as spec;

use crate::grants::Grants;
use crate::redeem::{Redeem, judge_code};
use crate::rows::CodeRow;
use held_rows::Change;
use sso_base::{Moment, Word};

// The change of a code that was redeemed.
#[derive(Clone, Copy)]
struct Spent;

impl Change<CodeRow> for Spent {
    ghost changed = { λ c. spec.code_spent };

    fn change(&self, code: &mut CodeRow) {
        code.spent = true;
    }

    ghost keys_stay = { λ c code by. refl };

    ghost moments_stay = { λ c code. refl };

    ghost rows_stay_sound = { λ c code sound. sound };
}

impl Grants {
    /// Adds a code. Room was reserved, the table is not full, its word is new, and no other code was issued later.
    pub fn issue_code(&mut self, row: CodeRow)
        requires reserved { self.old.reserved.codes ≡ true }
        requires few { length self.old.codes < most_rows }
        requires unnamed { row_of code_name row.word self.old.codes ≡ None }
        requires latest { none_after code_begun row.issued self.old.codes ≡ true }
        requires user { row.user < 512 }
        requires client { row.wish.client < 128 }
        ensures { self.new ≡ spec.with_code row self.old }
    {
        self.reserved.codes = false;
        self.codes.add(row);
    }

    /// The code with this word; `None` if and only if no code in the table has it. Its life may have ended.
    pub fn code(&self, word: Word) -> Option<&CodeRow>
        ensures row { option_copied result ≡ row_of code_name word self.now.codes }
        ensures in_range { IfSome (option_copied result) (λ row. (row.user < 512) × (row.wish.client < 128)) }
        ensures held { spec.AreCodes self.now.codes }
    {
        self.codes.find(&word.bytes())
    }

    /// The code with this word, if it is kept at the moment, which is for 3,720 seconds; `None` if and only if no such code
    /// is.
    pub fn held_code(&self, word: Word, at: Moment) -> Option<&CodeRow>
        ensures row { option_copied result ≡ option_and_then (if_lives code_life code_begun at) (row_of code_name word self.now.codes) }
        ensures held { spec.AreCodes self.now.codes }
    {
        self.codes.living(&word.bytes(), at)
    }

    /// Redeems a code for a client with a redirect URI (RFC 6749, 4.1.3). On `Redeemed` the code is marked spent. On `Spent`
    /// every access token issued for the code is removed (RFC 6749, 4.1.2). The other results change nothing.
    pub fn redeem(&mut self, code: Word, client: u32, redirect: &[u8], at: Moment) -> Redeem
        requires { client < 128 }
        ensures answer { result ≡ spec.redemption code client redirect.now at self.old }
        ensures effect { self.new ≡ spec.after_answer result code self.old }
    {
        let answer = judge_code(self.codes.find(&code.bytes()), client, redirect, at);
        match answer {
            Redeem::Redeemed => self.codes.change(&code.bytes(), &Spent),
            Redeem::Spent => self.end_tokens_of(code),
            Redeem::Unknown | Redeem::OtherClient | Redeem::Expired | Redeem::OtherUri => {}
        }
        answer
    }
}
