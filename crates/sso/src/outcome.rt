//! The outcomes for words that are not a command, and for a shelf that failed.

ghost use Rattle.std.specs.Prelude.{◌≡◌, IfOk};
ghost use Rattle.sso.specs.Answer.{shelf_text, usage_text};
ghost use Rattle.sso.specs.Outcomes.{shelf_answer, usage_answer};

use sso_base::{Blob, NoMemory};
use std::alloc::Global;
use std::marker::Model;

/// An exit status, and the text that is written before the program exits with it.
#[derive(Drop)]
pub struct Outcome {
    /// The exit status if the whole text can be written.
    pub status: u8,
    /// The text for standard output.
    pub text: Blob,
}

impl Model for Outcome {
    ghost use Rattle.sso.specs.Answer.{Answer};

    ghost Value = { Answer };

    ghost view = { λ o. record { status = o.status; text = o.text } };
}

/// The outcome for words that are not a command.
#[tactic(auto, unfolding(crate::specs::Answer::usage_text, crate::specs::Outcomes::usage_answer))]
pub fn answer_usage(alloc: Global) -> Result<Outcome, NoMemory>
    ensures { IfOk result (λ outcome. outcome ≡ usage_answer) }
{
    Ok(Outcome {
        status: 2,
        text: Blob::new(
            alloc,
            b"usage: sso replay CONFIG TRACE, op CONFIG, rp CONFIG NAME [DISCOVERY], op-plus CONFIG, rp-plus CONFIG NAME, \
              storm NUMBER COUNT, token SECRETFILE TOKENFILE\n",
        )?,
    })
}

/// The outcome for a shelf that failed.
#[tactic(auto, unfolding(crate::specs::Answer::shelf_text, crate::specs::Outcomes::shelf_answer))]
pub fn answer_shelf(alloc: Global) -> Result<Outcome, NoMemory>
    ensures { IfOk result (λ outcome. outcome ≡ shelf_answer) }
{
    Ok(Outcome {
        status: 5,
        text: Blob::new(alloc, b"shelf\n")?,
    })
}
