// The reply to a refresh request, and what it changes in the book.

ghost use Rattle.std.specs.Prelude.{◌≡◌};
ghost use Rattle.refresh_rows.specs.Booked.{HasMemory};
ghost use Rattle.refresh_book.specs.Renewing as renew;

use crate::entries::{first, second};
use oidc_words::Scopes;
use refresh_answer::{FamilyRow, OwnReply, RefreshAsk, RefreshGrant, RefreshRow};
use refresh_rows::Book;
use sso_base::Word;
use token_endpoint::{GrantNo, TokenError, token_error};

/// What a refresh request gets, and what it does to its family.
#[derive(Clone, Copy)]
pub(crate) enum Renewal {
    /// Nothing: the request was not read.
    Unread,
    /// A refusal.
    Refused(TokenError),
    /// A refusal, since the book has no room for a token.
    Full,
    /// A refusal of an old token of the family of this place. If it is this client's, it ends.
    Reused {
        place: u64,
        client: u32,
    },
    /// New tokens for the current token of this row.
    Rotated {
        row: RefreshRow,
        access: Word,
        refresh: Word,
        scopes: Scopes,
    },
}

/// The reply.
pub(crate) fn reply_of(renewal: &Renewal) -> OwnReply
    ensures { result ≡ renew.reply_of renewal.now }
{
    match renewal {
        Renewal::Unread => OwnReply::NotHere,
        Renewal::Refused(code) => OwnReply::Refused { code: *code },
        Renewal::Full => OwnReply::Full,
        Renewal::Reused { .. } => OwnReply::Refused {
            code: TokenError::InvalidGrant,
        },
        Renewal::Rotated {
            access,
            refresh,
            scopes,
            ..
        } => OwnReply::Refreshed {
            access: *access,
            refresh: *refresh,
            scopes: *scopes,
        },
    }
}

// New tokens for the current token of the client's family, if there is room for one.
fn rotation(book: &Book, fresh: &[Word; 4], row: RefreshRow, family: &FamilyRow) -> Renewal
    ensures { result ≡ renew.rotation book.now.tokens fresh.now row family.now }
{
    let access = first(fresh);
    let refresh = second(fresh);
    if book.has_room(refresh) {
        Renewal::Rotated {
            row,
            access,
            refresh,
            scopes: family.scopes,
        }
    } else {
        Renewal::Full
    }
}

// The renewal of a current token: of no family in the book, of another client's, or of the client's.
fn renewal_of_current(book: &Book, fresh: &[Word; 4], client: u32, row: RefreshRow) -> Renewal
    ensures { result ≡ renew.of_current book.now fresh.now client row }
{
    match book.family(row.family) {
        Some(family) if family.client == client => rotation(book, fresh, row, family),
        _ => Renewal::Refused(TokenError::InvalidGrant),
    }
}

// The renewal of a token in the book, or of none.
fn renewal_of(book: &Book, fresh: &[Word; 4], client: u32, row: Option<RefreshRow>) -> Renewal
    ensures { result ≡ renew.renewal_of book.now fresh.now client row }
{
    match row {
        Some(row) if row.current => renewal_of_current(book, fresh, client, row),
        Some(row) => Renewal::Reused {
            place: row.family,
            client,
        },
        None => Renewal::Refused(TokenError::InvalidGrant),
    }
}

// The renewal of a request that cannot be read as a refresh request.
fn refusal(why: &GrantNo) -> Renewal
    ensures { result ≡ renew.refusal why.now }
{
    match why {
        GrantNo::NoMemory => Renewal::Unread,
        why => Renewal::Refused(token_error(why)),
    }
}

fn renewal_for(book: &Book, fresh: &[Word; 4], grant: &RefreshGrant) -> Renewal
    ensures { result ≡ renew.renewal_for book.now fresh.now grant.now }
{
    let row = book.token(Word::read(grant.token.as_str().as_bytes()));
    renewal_of(book, fresh, grant.client, row)
}

/// The renewal of a refresh request, by the book at its moment.
pub(crate) fn renewal_asked<A: Drop>(book: &Book, fresh: &[Word; 4], ask: &RefreshAsk<A>) -> Renewal
    ensures { result ≡ renew.renewal_asked book.now fresh.now ask.now }
{
    match ask {
        RefreshAsk::Refresh { grant: Ok(grant) } => renewal_for(book, fresh, grant),
        RefreshAsk::Refresh { grant: Err(why) } => refusal(why),
        RefreshAsk::Through { .. } => Renewal::Unread,
    }
}

/// Notes a renewal in the book.
pub(crate) fn note_renewal(book: &mut Book, renewal: &Renewal)
    requires memory { HasMemory book.old }
    requires may { renew.MayNote book.old renewal.now }
    ensures noted { renew.Noted book.old book.new renewal.now }
{
    match renewal {
        Renewal::Rotated {
            row,
            access,
            refresh,
            ..
        } => book.rotate(*row, *refresh, *access),
        Renewal::Reused { place, client } => book.end_place(*place, *client),
        _ => {}
    }
}
