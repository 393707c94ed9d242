// The named texts in a line.

use case_lines::bytes;
use sso_base::{NoMemory, Text};
use std::alloc::Global;

/// A header whose seed is zeros: 60 bytes.
pub const HEADER: &str = "sso-trace 1 000000000000000000000000000000000000000000000000";

const SHOP_ANSWERED: &str =
    "at 1000 / begin 1 shop / follow 1 1 / login 1 2 alice password / consent 1 3 yes";

const SHOP_ENTERED: &str =
    "at 1000 / begin 1 shop / follow 1 1 / login 1 2 alice password / consent 1 3 yes / follow 1 4 / carry 5 0 / back 5 6";

const NEWS_ANSWERED: &str = "at 1000 / begin 1 news / follow 1 1 / login 1 2 alice password";

const NEWS_ENTERED: &str =
    "at 1000 / begin 1 news / follow 1 1 / login 1 2 alice password / follow 1 3";

const MAIL_ANSWERED: &str = "at 1000 / begin 1 mail / follow 1 1 / login 1 2 alice password";

const MAIL_ENTERED: &str =
    "at 1000 / begin 1 mail / follow 1 1 / login 1 2 alice password / follow 1 3 / carry 4 0 / back 4 5 / carry 6 0 / back 6 7";

// The beginnings of authorization requests, and the parts of token requests.
const AUTHORIZE_SHOP: &str =
    "/authorize?client_id=shop-client&redirect_uri=http%3A%2F%2F127.0.0.1%3A8081%2Fcb";

const AUTHORIZE_NEWS: &str =
    "/authorize?client_id=news-client&redirect_uri=http%3A%2F%2F127.0.0.1%3A8082%2Fcb";

const AUTHORIZE_MAIL: &str =
    "/authorize?client_id=mail-client&redirect_uri=http%3A%2F%2F127.0.0.1%3A8083%2Fcb";

const SECRET_OF_SHOP: &str =
    "client_id=shop-client&client_secret=shop-secret-shop-secret-shop-secret";

const GRANT_OF_SHOP: &str =
    "grant_type=authorization_code&redirect_uri=http%3A%2F%2F127.0.0.1%3A8081%2Fcb";

// The ID Token that the provider seals for the client of `news` at place 3 of NEWS_ANSWERED; a logout token for that client,
// with the claims `jti` `j` and `sub` `alice`; and a request object of the client of `mail`. All are computed with Python's
// hmac, base64 and json.
const ID_TOKEN_OF_NEWS: &str = "eyJhbGciOiJIUzI1NiIsInR5cCI6IkpXVCJ9\
     .eyJhdF9oYXNoIjoiaWFYUWVxOHpHV09Wem1YWjhDU09OUSIsImF1ZCI6Im5ld3MtY2xpZW50IiwiYXV0aF90aW1lIjoxMDAwLCJleHAiOjEzMDAsImlhdCI6MTAwMCwia\
     XNzIjoiaHR0cDovLzEyNy4wLjAuMTo4MDgwIiwibm9uY2UiOiJBQUFBQUFBQUFBQUFBQUFBQUFBQUFBQUFBQUFBQUFBQUFBQUFBQUFBQUFNIiwic2lkIjoiQUFBQUFBQUF\
     BQUFBQUFBQUFBQUFBQUFBQUFBQUFBQUFBQUFBQUFBQUFBbyIsInN1YiI6ImFsaWNlIn0\
     .V200h3Ef1es_oFcrilkHRRIGpX5tInXFhg7ZxuqdPnU";

const LOGOUT_TOKEN_OF_NEWS: &str = "eyJhbGciOiJIUzI1NiIsInR5cCI6ImxvZ291dCtqd3QifQ\
     .eyJhdWQiOiJuZXdzLWNsaWVudCIsImV2ZW50cyI6eyJodHRwOi8vc2NoZW1hcy5vcGVuaWQubmV0L2V2ZW50L2JhY2tjaGFubmVsLWxvZ291dCI6e319LCJleHAiOjExM\
     jAsImlhdCI6MTAwMCwiaXNzIjoiaHR0cDovLzEyNy4wLjAuMTo4MDgwIiwianRpIjoiaiIsInN1YiI6ImFsaWNlIn0\
     .DKk9cXWLpNIw24Y2egHJyUGih09LBC4R7ODHf-MHRew";

const REQUEST_OF_MAIL: &str = "eyJhbGciOiJIUzI1NiIsInR5cCI6IkpXVCJ9\
     .eyJub25jZSI6Im4iLCJyZWRpcmVjdF91cmkiOiJodHRwOi8vMTI3LjAuMC4xOjgwODMvY2IiLCJzY29wZSI6Im9wZW5pZCBlbWFpbCJ9\
     .tzvTj3Oykr3dHaIekYWFRg5dxxAhUov_LPxv64DKhvY";

// The same three, sealed under the old secrets of these clients.
const OLD_ID_TOKEN_OF_NEWS: &str = "eyJhbGciOiJIUzI1NiIsInR5cCI6IkpXVCJ9\
     .eyJhdF9oYXNoIjoiaWFYUWVxOHpHV09Wem1YWjhDU09OUSIsImF1ZCI6Im5ld3MtY2xpZW50IiwiYXV0aF90aW1lIjoxMDAwLCJleHAiOjEzMDAsImlhdCI6MTAwMCwiaX\
     NzIjoiaHR0cDovLzEyNy4wLjAuMTo4MDgwIiwibm9uY2UiOiJBQUFBQUFBQUFBQUFBQUFBQUFBQUFBQUFBQUFBQUFBQUFBQUFBQUFBQUFNIiwic2lkIjoiQUFBQUFBQUFBQ\
     UFBQUFBQUFBQUFBQUFBQUFBQUFBQUFBQUFBQUFBQUFBbyIsInN1YiI6ImFsaWNlIn0\
     .sKXzJfD33aJjDyySRG5k7m7fWISHrUy_Mys8Uz5q4fU";

const OLD_LOGOUT_TOKEN_OF_NEWS: &str = "eyJhbGciOiJIUzI1NiIsInR5cCI6ImxvZ291dCtqd3QifQ\
     .eyJhdWQiOiJuZXdzLWNsaWVudCIsImV2ZW50cyI6eyJodHRwOi8vc2NoZW1hcy5vcGVuaWQubmV0L2V2ZW50L2JhY2tjaGFubmVsLWxvZ291dCI6e319LCJleHAiOjExMj\
     AsImlhdCI6MTAwMCwiaXNzIjoiaHR0cDovLzEyNy4wLjAuMTo4MDgwIiwianRpIjoiaiIsInN1YiI6ImFsaWNlIn0\
     .j4iU4Uzjr2ecv1_0SbeoV4wAL3JF7TPKfMJCSoTE74U";

const OLD_REQUEST_OF_MAIL: &str = "eyJhbGciOiJIUzI1NiIsInR5cCI6IkpXVCJ9\
     .eyJub25jZSI6Im4iLCJyZWRpcmVjdF91cmkiOiJodHRwOi8vMTI3LjAuMC4xOjgwODMvY2IiLCJzY29wZSI6Im9wZW5pZCBlbWFpbCJ9\
     .Io7Lo1BuZkuKONZRRMEH7zTyIX6OhTbwd51xJX8nRa0";

// The texts with the beginnings of traces.
fn beginning(name: &str) -> Option<&'static str> {
    match name {
        "shop answered" => Some(SHOP_ANSWERED),
        "shop entered" => Some(SHOP_ENTERED),
        "news answered" => Some(NEWS_ANSWERED),
        "news entered" => Some(NEWS_ENTERED),
        "mail answered" => Some(MAIL_ANSWERED),
        "mail entered" => Some(MAIL_ENTERED),
        _ => None,
    }
}

// The sealed texts, and the beginnings.
fn sealed_text(name: &str) -> Option<&'static str> {
    match name {
        "ID Token of news" => Some(ID_TOKEN_OF_NEWS),
        "logout token of news" => Some(LOGOUT_TOKEN_OF_NEWS),
        "request of mail" => Some(REQUEST_OF_MAIL),
        "old ID Token of news" => Some(OLD_ID_TOKEN_OF_NEWS),
        "old logout token of news" => Some(OLD_LOGOUT_TOKEN_OF_NEWS),
        "old request of mail" => Some(OLD_REQUEST_OF_MAIL),
        _ => beginning(name),
    }
}

/// The text with this name, if there is one.
pub fn named(name: &str) -> Option<&'static str> {
    match name {
        "header" => Some(HEADER),
        "authorize shop" => Some(AUTHORIZE_SHOP),
        "authorize news" => Some(AUTHORIZE_NEWS),
        "authorize mail" => Some(AUTHORIZE_MAIL),
        "secret of shop" => Some(SECRET_OF_SHOP),
        "grant of shop" => Some(GRANT_OF_SHOP),
        _ => sealed_text(name),
    }
}

/// `COUNT*TEXT`: the text repeated COUNT times.
pub fn made(alloc: Global, name: &str) -> Result<Option<Text>, NoMemory> {
    if !name.contains('*') {
        return Ok(None);
    }
    let bytes = bytes(alloc, name)?;
    match std::str::from_utf8(bytes.as_slice()) {
        Ok(text) => Ok(Some(Text::new(alloc, text)?)),
        Err(_) => Ok(None),
    }
}
