// Half hashes that clash (OpenID Connect Core 1.0, 3.1.3.6 and 3.3.2.11).

ghost use Rattle.std.specs.Prelude.{◌≡◌};
ghost use Rattle.running_world.specs.Breaking.{clash_told};
ghost use Rattle.running_world.specs.Clashing as spec;

use id_token::half_hash;
use sso_base::Word;
use sso_places::{Broken, WorldReply};
use world_index::Halves;

// The earlier of two places.
fn earlier_of(first: Option<u64>, second: Option<u64>) -> Option<u64>
    ensures { result ≡ spec.earlier_of first second }
{
    match (first, second) {
        (Some(first), Some(second)) => Some(if second < first { second } else { first }),
        (Some(first), None) => Some(first),
        (None, second) => second,
    }
}

// The place that issued a different word with the same half hash.
fn clash_of(halves: &Halves, word: &Option<Word>) -> Option<u64>
    ensures { result ≡ spec.clash_of halves.now word.now }
{
    match word {
        Some(word) => halves.clash(word),
        None => None,
    }
}

// Whether there are two words, they differ, and they have the same half hash.
fn both_clash(first: &Option<Word>, second: &Option<Word>) -> bool
    ensures { result ≡ spec.both_clash first.now second.now }
{
    match (first, second) {
        (Some(first), Some(second)) => {
            first != second && half_hash(&first.text()) == half_hash(&second.text())
        }
        _ => false,
    }
}

/// The clash of half hashes at the place with this number, if the reply issues words: with a word of an earlier place, or else
/// with one another.
pub(crate) fn clash_in(halves: &Halves, number: u64, reply: &WorldReply) -> Option<Broken>
    ensures { result ≡ clash_told halves.now number reply.now }
{
    let WorldReply::Provider(reply) = reply else {
        return None;
    };
    let code = reply.code();
    let access = reply.access();
    match earlier_of(clash_of(halves, &code), clash_of(halves, &access)) {
        Some(place) => Some(Broken::HashClash(place, number)),
        None if both_clash(&code, &access) => Some(Broken::HashClash(number, number)),
        None => None,
    }
}
