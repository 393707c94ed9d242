//! Pages for people in HTML: one frame with its style inline, texts that are escaped, and what the forms of a page post.
//!
//! | Module | What it has |
//! |---|---|
//! | `page` | [`Page`], a page that is written piece by piece, and its frame |
//! | `forms` | forms, alerts and lines in a page |
//! | `showing` | [`shown`]: the reply that shows a page, or a line of text if there is no page |
//! | `law` | laws about texts and forms in pages, for the crates above |
#![tactic(auto)]

mod forms;
mod law;
mod page;
mod showing;

pub use law::{
    documents_post_their_content, documents_that_are_left_post_their_content,
    escaped_texts_are_read_as_they_were, forms_are_read_as_they_were_written,
};
pub use page::Page;
pub use showing::shown;
