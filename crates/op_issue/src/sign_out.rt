// A sign-out.

use crate::issuing::Authentication;
use sso_base::{Moment, Word};

/// The data of a sign-out in logout tokens.
#[derive(Clone, Copy)]
pub struct SignOut {
    /// The login that ends.
    pub who: Authentication,
    /// When it ends.
    pub at: Moment,
    /// The word that was drawn for the sign-out.
    pub word: Word,
}
