//! Authorization responses: successful and error responses of a provider, written as the location to which a user agent is
//! sent, and read by a relying party (OpenID Connect Core 1.0, 3.1.2.5 to 3.1.2.7, 3.2.2.5, 3.2.2.6 and 3.3.2.5).
//!
//! | Module | What it has |
//! |---|---|
//! | `answer` | [`Answer`], a successful response |
//! | `printing` | [`print_answer`] and [`print_refusal`] write the location of a response |
//! | `heard` | [`Heard`], a response as a relying party receives it |
//! | `no` | [`AnswerNo`], why a response is rejected |
//! | `parts` | the parameters of a response, as texts |
//! | `reading` | [`read_answer`] reads a form |
//! | `law` | laws about responses, for the crates above |
#![tactic(auto)]

mod answer;
mod heard;
mod law;
mod no;
mod parts;
mod printing;
mod reading;

pub use answer::Answer;
pub use heard::Heard;
pub use law::{
    access_tokens_have_their_type_and_life, forms_have_their_answers, own_queries_are_ignored,
    refused_answers_repeat_a_name, responses_stand_behind_redirection_uris,
    written_answers_are_read, written_refusals_are_read,
};
pub use no::AnswerNo;
pub use printing::{print_answer, print_refusal};
pub use reading::read_answer;
