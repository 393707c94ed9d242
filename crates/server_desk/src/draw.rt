ghost use Rattle.std.specs.Prelude.{ℕ, Option};
ghost use Rattle.server_desk.specs.Ahead.{IsTold, MovedOn};

use sso_base::Word;

/// A source of random words.
pub trait Draw: Send + Drop {
    ghost use Rattle.sso_base.specs.Words as words;

    /// The words that it will give, from 0, if they are known.
    ghost ahead: { Self → ℕ → Option words.Word };

    /// The next word.
    fn word(&mut self) -> Word
        ensures told { IsTold (ahead self.old 0) result }
        ensures moved { MovedOn (ahead self.old) (ahead self.new) 1 };
}
