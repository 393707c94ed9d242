// Laws about cookies, for the crates above.

ghost use Rattle.std.specs.Prelude.{◌≡◌, Bool, true, false, Some, ◌&&◌, not};
ghost use Rattle.sso_base.specs.Words.{Word, Text};
ghost use Rattle.http_reply.specs.Cookies.{cookie, cookie_name};
ghost use Rattle.http_reply.specs.UserAgent.{is_cookie_name, is_host_name, is_taken, cookie_read, set_cookie};

/// A user agent reads a cookie whose name is a token as its name, the word's text and its attributes (RFC 6265, 5.2). The
/// attributes are `Path` with the value `/`, `HttpOnly`, `SameSite` with the value `Lax` and, if and only if it is secure,
/// `Secure`.
pub fn cookies_are_read_as_they_were_written()
    ensures { (secure : Bool) (name : Text) (w : Word) → is_cookie_name name ≡ true → cookie_read (cookie secure name w) ≡ Some (set_cookie secure name w) }
{}

/// A user agent takes a cookie under a name with the prefix `__Host-`, if it is secure; one under another name it takes in any case
/// (RFC 6265bis, 4.1.3.2).
pub fn host_cookies_are_taken()
    ensures { (secure host : Bool) (name : Text) (w : Word) → (host && not secure) ≡ false → is_host_name name ≡ false
        → is_taken (set_cookie secure (cookie_name host name) w) ≡ true }
{}
