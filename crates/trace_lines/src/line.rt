// The lines of a trace.

use sso_base::{Method, Moment, Text, Word};
use sso_places::To;

/// A cookie of a raw request.
#[derive(Clone, Copy, PartialEq, Eq)]
pub enum Shown {
    /// None is presented, which includes a text that is not that of a word.
    Absent,
    /// The one in the browser's jar.
    Jar,
    /// This word.
    Given(Word),
}

/// A line of a trace after the first. Browsers are numbered from 1 to 65,535, places from 1, messages from 0, and parties as
/// in the registry.
///
/// `At`, `Steal` and `Show` take no place; each other line takes the next place, from 1.
#[derive(Drop)]
pub enum Line {
    /// Sets the moment, in seconds since the epoch.
    At(Moment),
    /// The browser `thief` gets a copy of the cookies of `owner`.
    Steal {
        thief: u32,
        owner: u32,
    },
    /// The reply of this place is printed.
    Show {
        place: u64,
    },
    /// The browser begins a login at the party.
    Begin {
        from: u32,
        party: u32,
    },
    /// The browser follows the location of a reply.
    Follow {
        from: u32,
        place: u64,
    },
    /// The same, with the value of the parameter `name` taken from the location of `other`.
    Mix {
        from: u32,
        place: u64,
        name: Text,
        other: u64,
    },
    /// The same, with an ID Token whose subject is `user`, of at most 255 bytes.
    Forge {
        from: u32,
        place: u64,
        user: Text,
    },
    /// The browser posts the login form of a reply.
    Login {
        from: u32,
        place: u64,
        user: Text,
        password: Text,
    },
    /// The browser posts the consent form of a reply.
    Consent {
        from: u32,
        place: u64,
        agree: bool,
    },
    /// The browser visits the party.
    Visit {
        from: u32,
        party: u32,
    },
    /// The browser leaves the party.
    Leave {
        from: u32,
        party: u32,
    },
    /// The browser signs out at the provider.
    SignOut {
        from: u32,
    },
    /// The message with this number in a reply is delivered.
    Carry {
        place: u64,
        message: u64,
    },
    /// The reply of `answer` is returned to the party of `place`, as the answer to its request.
    Back {
        place: u64,
        answer: u64,
    },
    /// One request, written out in full. `from` may be 0, which is a server. A `None` was written `-`.
    Raw {
        from: u32,
        to: To,
        method: Method,
        target: Option<Text>,
        first: Shown,
        second: Shown,
        auth: Option<Text>,
        body: Option<Text>,
    },
}
