//! The foundation of every crate of the sign-on system: texts, words and moments; histories and the named rows that follow from
//! them; traits for the outside. These traits expose, as ghost values, what an object holds and how often it failed.
//!
//! | Module | What it has |
//! |---|---|
//! | `memory` | `NoMemory`, the error of every call that runs out of memory |
//! | `text`, `texts` | `Text`, `Blob`, and `Texts`: many texts in one buffer |
//! | `word` | `Word`, 32 random bytes, and its text |
//! | `moment` | `Moment`, a number of seconds |
//! | `message`, `messages` | `Message`, `Messages` and `Answered`: what servers send each other |
//! | `http` | `Ask` and `HttpReply`: requests and replies, as far as HTTP carries them; methods by name, the parts of a target |
//! | `history` | `Entry` and `Pair`: a request to a core, and its reply |
//! | `told` (over `chain`) | `Told`: a list that only contracts see, and that takes no memory |
//! | `journal` | `Journal`: the history of a core, with a limit on its weight; it is stored, or told |
//! | `step` | `Core`: a state machine that answers requests one after another |
//! | `in_turn` | the replies of a core to requests, one after another (`Asked`), as a legal history |
//! | `values`, `weights` | facts that types give about their values, and how much texts weigh |
//! | `rows` | rows with names, found, put and removed |
//! | `sink`, `sink_memory` | where bytes are written to |
//! | `shelf`, `shelf_memory` | where contents are fetched from |
//! | `law` | laws of the definitions, for the crates above |
#![tactic(auto)]

mod asked;
mod chain;
mod history;
mod http;
mod in_turn;
mod journal;
mod law;
mod memory;
mod message;
mod messages;
mod moment;
mod rows;
mod shelf;
mod shelf_memory;
mod sink;
mod sink_memory;
mod step;
mod text;
mod texts;
mod told;
mod values;
mod weights;
mod word;

pub use asked::Asked;
pub use history::{Entry, Pair};
pub use http::{Ask, HttpReply, Kind, Method, split_target};
pub use in_turn::replies_in_turn;
pub use journal::{Journal, Weighed};
pub use law::words_have_one_text;
pub use memory::NoMemory;
pub use message::{Answered, Message, bytes_if, copied_text};
pub use messages::Messages;
pub use moment::{LATEST_MOMENT, Moment};
pub use rows::{Named, find_row, is_live, put_row, remove_row};
pub use shelf::{Shelf, ShelfNo};
pub use shelf_memory::{FaultyShelf, File, MemoryShelf};
pub use sink::{Sink, SinkFault, write_whole};
pub use sink_memory::{FaultySink, MemorySink};
pub use step::{Core, CoreNo};
pub use text::{Blob, Text};
pub use texts::{Texts, TextsLeft};
pub use told::Told;
pub use values::{
    know_entry, know_number, know_number_if, know_text_if, know_texts, know_texts_if, know_word,
    know_word_if,
};
pub use weights::{EMPTY_WEIGHT, MOST_HELD, text_bytes, texts_bytes, texts_bytes_if};
pub use word::Word;
