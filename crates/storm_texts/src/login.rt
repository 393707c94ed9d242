// The logins of a storm: the user and the party, the variation, and the lines of the trace.

ghost use Rattle.std.specs.Prelude.{◌≡◌, ◌≤◌, ◌<◌, ◌^◌, ◌+◌, ◌++◌, string_bytes, IfOk, OnOk};
ghost use Rattle.storm_texts.specs.Logins as spec;

use crate::lines::{push_at, push_begin, push_exchange, push_follow, push_login, push_visit};
use sso_base::NoMemory;
use std::alloc::Global;

/// A browser that logs in nowhere.
const OTHER: u32 = 65_535;

/// The user of a login.
#[derive(Clone, Copy)]
pub(crate) enum User {
    Alice,
    Bob,
}

/// The party of a login. Each has another flow.
#[derive(Clone, Copy, PartialEq, Eq)]
pub(crate) enum Party {
    /// The code flow (OpenID Connect Core 1.0, 3.1).
    Shop,
    /// The implicit flow (Core 3.2).
    News,
    /// The hybrid flow, and UserInfo (Core 3.3 and 5.3).
    Mail,
}

/// The variation of a login.
#[derive(Clone, Copy, PartialEq, Eq)]
pub(crate) enum Twist {
    /// None.
    Plain,
    /// The browser follows the answer a second time.
    AnswerAgain,
    /// Another browser follows the answer first.
    OtherBrowser,
    /// The browser posts the same login form a second time.
    LoginAgain,
}

/// One login.
#[derive(Clone, Copy)]
pub(crate) struct Login {
    /// The moment, in seconds.
    at: u32,
    browser: u32,
    user: User,
    party: Party,
    twist: Twist,
    /// The number of places before it.
    places: u64,
}

fn user_of(state: u64) -> User
    ensures { result ≡ spec.user_of state }
{
    if state < 1 << 63 {
        User::Alice
    } else {
        User::Bob
    }
}

fn party_of(k: u32) -> Party
    ensures { result ≡ spec.party_of k }
{
    match k % 3 {
        0 => Party::Shop,
        1 => Party::News,
        _ => Party::Mail,
    }
}

fn twist_of(k: u32) -> Twist
    ensures { result ≡ spec.twist_of k }
{
    match k / 3 % 4 {
        0 => Twist::Plain,
        1 => Twist::AnswerAgain,
        2 => Twist::OtherBrowser,
        _ => Twist::LoginAgain,
    }
}

impl User {
    // The name and the password.
    fn credentials(self) -> &'static str
        ensures { result.now ≡ spec.credentials self }
    {
        match self {
            User::Alice => "alice password",
            User::Bob => "bob password",
        }
    }
}

impl Party {
    fn name(self) -> &'static str
        ensures { result.now ≡ spec.party_name self }
    {
        match self {
            Party::Shop => "shop",
            Party::News => "news",
            Party::Mail => "mail",
        }
    }
}

impl Login {
    /// The login number k, from 0, given the state of the generator and the number of places before it.
    pub(crate) fn new(k: u32, state: u64, places: u64) -> Login
        requires { k < 2 ^ 31 }
        ensures { result ≡ spec.login_of k state places }
    {
        Login {
            at: 1000 + k,
            browser: k + 1,
            user: user_of(state),
            party: party_of(k),
            twist: twist_of(k),
            places,
        }
    }

    // Adds the lines up to the login form.
    fn push_begun(&self, alloc: Global, out: &mut String) -> Result<(), NoMemory>
        requires { self.now.places < 2 ^ 40 }
        ensures { OnOk result (string_bytes out.new ≡ string_bytes out.old ++ spec.begun_lines self.now) }
    {
        push_at(alloc, out, self.at)?;
        push_begin(alloc, out, self.browser, self.party.name())?;
        push_follow(alloc, out, self.browser, self.places + 1)?;
        push_login(
            alloc,
            out,
            self.browser,
            self.places + 2,
            self.user.credentials(),
        )
    }

    // Adds that another browser follows the answer first, in that variation. Returns the number of places that this takes.
    fn push_other(&self, alloc: Global, out: &mut String) -> Result<u64, NoMemory>
        requires { self.now.places < 2 ^ 40 }
        ensures lines { OnOk result (string_bytes out.new ≡ string_bytes out.old ++ spec.other_lines self.now.twist (self.now.places + 3)) }
        ensures places { IfOk result (λ n. n ≡ spec.others self.now.twist) }
    {
        if self.twist == Twist::OtherBrowser {
            push_follow(alloc, out, OTHER, self.places + 3)?;
            return Ok(1);
        }
        Ok(0)
    }

    // Adds the party's requests to the provider, from this place on.
    fn push_exchanged(&self, alloc: Global, out: &mut String, asked: u64) -> Result<(), NoMemory>
        requires { asked < 2 ^ 41 }
        ensures { OnOk result (string_bytes out.new ≡ string_bytes out.old ++ spec.exchanged_lines self.now.party asked) }
    {
        match self.party {
            Party::Shop => push_exchange(alloc, out, asked),
            Party::News => Ok(()),
            Party::Mail => {
                push_exchange(alloc, out, asked)?;
                push_exchange(alloc, out, asked + 2)
            }
        }
    }

    // Adds the lines of the answer.
    fn push_answer(&self, alloc: Global, out: &mut String) -> Result<(), NoMemory>
        requires { self.now.places < 2 ^ 40 }
        ensures { OnOk result (string_bytes out.new ≡ string_bytes out.old ++ spec.answer_lines self.now) }
    {
        let others = self.push_other(alloc, out)?;
        push_follow(alloc, out, self.browser, self.places + 3)?;
        self.push_exchanged(alloc, out, self.places + 4 + others)
    }

    // Adds that the browser repeats a step, in those variations.
    fn push_again(&self, alloc: Global, out: &mut String) -> Result<(), NoMemory>
        requires { self.now.places < 2 ^ 40 }
        ensures { OnOk result (string_bytes out.new ≡ string_bytes out.old ++ spec.again_lines self.now self.now.twist) }
    {
        match self.twist {
            Twist::AnswerAgain => push_follow(alloc, out, self.browser, self.places + 3),
            Twist::LoginAgain => {
                push_login(
                    alloc,
                    out,
                    self.browser,
                    self.places + 2,
                    self.user.credentials(),
                )
            }
            Twist::Plain | Twist::OtherBrowser => Ok(()),
        }
    }

    /// Adds the lines of the login.
    #[tactic(auto, unfolding(crate::specs::Logins::login_lines))]
    pub(crate) fn push(&self, alloc: Global, out: &mut String) -> Result<(), NoMemory>
        requires { self.now.places < 2 ^ 40 }
        ensures { OnOk result (string_bytes out.new ≡ string_bytes out.old ++ spec.login_lines self.now) }
    {
        self.push_begun(alloc, out)?;
        self.push_answer(alloc, out)?;
        push_visit(alloc, out, self.browser, self.party.name())?;
        self.push_again(alloc, out)
    }

    /// The number of places that its lines take.
    pub(crate) fn places(&self) -> u64
        ensures places { result ≡ spec.places_of self.now }
        ensures few { result ≤ 10 }
    {
        let exchanges = match self.party {
            Party::Shop => 2,
            Party::News => 0,
            Party::Mail => 4,
        };
        5 + exchanges + (self.twist != Twist::Plain) as u64
    }
}
