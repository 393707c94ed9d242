// The kinds of lines, by their first words, and the kinds of their further words.

ghost use Rattle.std.specs.Prelude.{◌≡◌, find};
ghost use Rattle.std.specs.Str.{bytes_eq};
ghost use Rattle.trace_lines.specs.Verbs as spec;

/// A kind of line, by its first word.
#[derive(Clone, Copy)]
pub(crate) enum Verb {
    At,
    Steal,
    Show,
    Begin,
    Follow,
    Mix,
    Forge,
    Login,
    Consent,
    Visit,
    Leave,
    SignOut,
    Carry,
    Back,
    Raw,
}

/// The required kind of a word.
#[derive(Clone, Copy)]
pub(crate) enum Field {
    /// A moment, in seconds since the epoch, which is not before the last one.
    Seconds,
    /// The number of a browser, from 1 to 65,535.
    Browser,
    /// The same, or 0 for a server.
    Sender,
    /// A place, from 1, that lines before this one took.
    Place,
    /// The number of a message, from 0.
    Message,
    /// The name of a party.
    Party,
    /// `op`, which is the provider, or the name of a party.
    Role,
    /// `yes` or `no`.
    Choice,
    /// At most 255 bytes, the limit of a subject (OpenID Connect Core 1.0, 2).
    Subject,
    /// Any word.
    Free,
}

const VERBS: [Verb; 15] = [
    Verb::At,
    Verb::Steal,
    Verb::Show,
    Verb::Begin,
    Verb::Follow,
    Verb::Mix,
    Verb::Forge,
    Verb::Login,
    Verb::Consent,
    Verb::Visit,
    Verb::Leave,
    Verb::SignOut,
    Verb::Carry,
    Verb::Back,
    Verb::Raw,
];

// The first word of a line of this kind.
#[tactic(auto, unfolding(crate::specs::Verbs::verb_text))]
fn verb_text(verb: Verb) -> &'static str
    ensures { result.now ≡ spec.verb_text verb }
{
    match verb {
        Verb::At => "at",
        Verb::Steal => "steal",
        Verb::Show => "show",
        Verb::Begin => "begin",
        Verb::Follow => "follow",
        Verb::Mix => "mix",
        Verb::Forge => "forge",
        Verb::Login => "login",
        Verb::Consent => "consent",
        Verb::Visit => "visit",
        Verb::Leave => "leave",
        Verb::SignOut => "signout",
        Verb::Carry => "carry",
        Verb::Back => "back",
        Verb::Raw => "raw",
    }
}

// The first of these kinds with this first word.
fn find_verb(verbs: &[Verb], word: &str) -> Option<Verb>
    ensures { result ≡ find (λ verb. bytes_eq (spec.verb_text verb) word.now) verbs.now }
{
    for verb in verbs {
        if verb_text(*verb) == word {
            return Some(*verb);
        }
    }
    None
}

// The kind of line that begins with the word, if there is one.
#[tactic(auto, unfolding(crate::specs::Verbs::verb_of))]
pub(crate) fn read_verb(word: &str) -> Option<Verb>
    ensures { result ≡ spec.verb_of word.now }
{
    find_verb(&VERBS, word)
}

// The kinds of the words after the first one.
pub(crate) fn fields_of(verb: Verb) -> &'static [Field]
    ensures { result.now ≡ spec.fields_of verb }
{
    match verb {
        Verb::At => &[Field::Seconds],
        Verb::Steal => &[Field::Browser, Field::Browser],
        Verb::Show => &[Field::Place],
        Verb::Begin | Verb::Visit | Verb::Leave => &[Field::Browser, Field::Party],
        Verb::Follow => &[Field::Browser, Field::Place],
        Verb::Mix => &[Field::Browser, Field::Place, Field::Free, Field::Place],
        Verb::Forge => &[Field::Browser, Field::Place, Field::Subject],
        Verb::Login => &[Field::Browser, Field::Place, Field::Free, Field::Free],
        Verb::Consent => &[Field::Browser, Field::Place, Field::Choice],
        Verb::SignOut => &[Field::Browser],
        Verb::Carry => &[Field::Place, Field::Message],
        Verb::Back => &[Field::Place, Field::Place],
        Verb::Raw => &[
            Field::Sender,
            Field::Role,
            Field::Free,
            Field::Free,
            Field::Free,
            Field::Free,
            Field::Free,
            Field::Free,
        ],
    }
}
