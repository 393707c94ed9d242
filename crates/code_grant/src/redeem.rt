// The result of redeeming a code.

ghost use Rattle.std.specs.Prelude.{◌≡◌};
ghost use Rattle.std.specs.Option.{option_copied};
ghost use Rattle.code_grant.specs.Redeeming.{redeem_of};

use crate::rows::CodeRow;
use oidc_words::CODE_USABLE;
use sso_base::{Moment, is_live};

/// The result of redeeming a code with a redirect URI: the first that applies in this order, except that `Redeemed` comes last
/// (RFC 6749, 4.1.3; OpenID Connect Core 1.0, 3.1.3.2).
#[derive(Clone, Copy, PartialEq, Eq)]
pub enum Redeem {
    /// The code is valid.
    Redeemed,
    /// No code in the table has that word.
    Unknown,
    /// The code was issued to another client.
    OtherClient,
    /// The code was redeemed before.
    Spent,
    /// The code was issued 120 seconds ago or longer.
    Expired,
    /// The code was sent to another redirect URI.
    OtherUri,
}

/// The result of redeeming the code in this row with a redirect URI at a moment. It does not mark the code spent.
pub fn judge_code(row: Option<&CodeRow>, client: u32, redirect: &[u8], at: Moment) -> Redeem
    ensures { result ≡ redeem_of client redirect.now at (option_copied row.entry) }
{
    let Some(row) = row else {
        return Redeem::Unknown;
    };
    if row.wish.client != client {
        Redeem::OtherClient
    } else if row.spent {
        Redeem::Spent
    } else if !is_live(CODE_USABLE, row.issued, at) {
        Redeem::Expired
    } else if row.wish.redirect.as_str().as_bytes() != redirect {
        Redeem::OtherUri
    } else {
        Redeem::Redeemed
    }
}
