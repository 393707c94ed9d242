// A law about the names of cookies.

ghost use Rattle.server_roles.specs.ReadBack.{ProviderCookiesAreReadBack, PartyCookiesAreReadBack};

/// A server reads the cookies that its own replies set: if a user agent sends back what a reply set, the server reads the word of its
/// browser under the first name and the word of its session under the second, and no others (RFC 6265, 5.4).
pub fn cookies_are_read_as_they_were_set()
    ensures provider { ProviderCookiesAreReadBack }
    ensures party { PartyCookiesAreReadBack }
{}
