//! The words of OpenID Connect and OAuth 2.0 that both a provider and a relying party use, each defined once.
//!
//! | Module | What it has |
//! |---|---|
//! | `words` | membership of a text in a list, and texts as words separated by spaces |
//! | `scopes` | [`Scopes`], a set of scope values |
//! | `claims` | the claims of each scope value, the scope values of requested claims, and [`ClaimKind`] |
//! | `prompts` | [`Prompt`], the values of `prompt` |
//! | `response_types` | [`Types`], the words of a response type, and the six response types |
//! | `token_types` | [`BEARER`], the type of an access token |
//! | `errors` | [`AuthError`] with its texts, [`INVALID_TOKEN`], and [`Refusal`] |
//! | `lives` | how many seconds rows and tokens live |
//! | `paths` | the paths that the provider and a relying party serve |
//! | `law` | laws about these words, for the crates above |
#![tactic(auto)]

mod claims;
mod errors;
mod law;
mod lives;
mod paths;
mod prompts;
mod response_types;
mod scopes;
mod token_types;
mod words;

pub use claims::{ClaimKind, is_standard_claim, kind_of_claim};
pub use errors::{AuthError, ERROR_CODES, INVALID_TOKEN, Refusal, error_text, read_error};
pub use law::{
    all_types_but_code_answer_in_the_fragment, asked_claims_need_their_scopes,
    covering_scopes_ask_for_more, error_codes_have_texts, lives_fit_together, scope_texts_are_read,
    scopes_are_ordered, standard_claims_have_kinds, type_texts_are_read,
};
pub use lives::{
    ACCESS_LIFE, CODE_LIFE, CODE_USABLE, EXPIRES_IN, FAMILY_LIFE, ID_TOKEN_LIFE, LEEWAY,
    LOGIN_LIFE, LOGOUT_TOKEN_LIFE, OLDEST, PENDING_LIFE, QUESTION_LIFE, SEEN_LIFE, SESSION_LIFE,
    TURN_LIFE, VISIT_LIFE,
};
pub use paths::{
    AUTHORIZE_PATH, BEGIN_PATH, CONSENT_PATH, HOME_PATH, KEYS_PATH, LEAVE_PATH, LOGIN_PATH,
    METADATA_PATH, SIGNOUT_PATH, TOKEN_PATH, USERINFO_PATH,
};
pub use prompts::{Prompt, is_prompt};
pub use response_types::{Types, number_of_type, type_texts};
pub use scopes::{OPENID, SCOPE_WORDS, Scopes, is_scope};
pub use token_types::BEARER;
pub use words::{has_word, is_one_of, parameter_words, spaced, words_of};
