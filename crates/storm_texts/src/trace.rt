// The trace of a storm.

ghost use Rattle.std.specs.Prelude.{◌≡◌, ◌≤◌, ◌++◌, ◌∷◌, [], string_bytes, IfOk};
ghost use Rattle.std.specs.Int.{w64, to_be_bytes};
ghost use Rattle.storm_texts.specs.Logins as logins;
ghost use Rattle.storm_texts.specs.Trace as spec;
ghost use Rattle.storm_texts.specs.Trace.{trace_text};

use crate::login::Login;
use sso_base::{Blob, NoMemory};
use std::alloc::Global;

// The next state of the generator.
#[tactic(auto, using(crate::proofs::Next::same_next))]
fn next(state: u64) -> u64
    ensures { result ≡ logins.next state }
{
    state
        .wrapping_mul(6_364_136_223_846_793_005)
        .wrapping_add(1_442_695_040_888_963_407)
}

// The seed of the random words.
fn seed_of(alloc: Global, number: u64) -> Result<Vec<u8>, NoMemory>
    ensures { IfOk result (λ seed. seed.items ≡ spec.seed_of number) }
{
    let mut seed = Vec::new(alloc);
    seed.extend_from_slice(&[0; 16])?;
    seed.extend_from_slice(&number.to_be_bytes())?;
    Ok(seed)
}

// The first line.
#[tactic(auto, unfolding(crate::specs::Trace::header))]
fn header(alloc: Global, number: u64) -> Result<String, NoMemory>
    ensures { IfOk result (λ text. string_bytes text ≡ spec.header number) }
{
    let seed = seed_of(alloc, number)?;
    let digits = hex::encode(alloc, seed.as_slice())?;
    Ok(format!(in alloc; "sso-trace 1 {}\n", digits.as_str())?)
}

/// The trace of a storm of `count` logins, each of its own browser, at three parties in turn. Each login makes two to four
/// requests to the provider. In a fourth of them the browser follows the answer twice, in a fourth another browser follows it,
/// and in a fourth the login form is posted twice. A linear congruential generator, which starts with `number`, chooses the
/// users.
#[tactic(auto, unfolding(crate::specs::Trace::trace_text))]
pub fn storm_trace(alloc: Global, number: u32, count: u32) -> Result<Blob, NoMemory>
    requires { count ≤ 10000 }
    ensures { IfOk result (λ b. b ≡ trace_text number count) }
{
    let mut state = number as u64;
    let mut out = header(alloc, state)?;
    let mut places = 0u64;
    for k in 0..count {
        state = next(state);
        let login = Login::new(k, state, places);
        login.push(alloc, &mut out)?;
        places += login.places();
    }
    Ok(Blob::from_vec(out.into_bytes()))
}
