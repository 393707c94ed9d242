//! The outcomes for a rejected configuration.

ghost use Rattle.std.specs.Prelude.{◌≡◌, IfOk, codes};
ghost use Rattle.sso.specs.Answer.{registry_name, configuration_refusal};

use crate::outcome::Outcome;
use crate::refusal::{Refusal, refused};
use client_registry::RegNo;
use sso_base::NoMemory;
use std::alloc::Global;

/// The outcome for a configuration that reading rejects.
#[tactic(auto, unfolding(crate::specs::Answer::configuration_text))]
pub fn refuse_registry(alloc: Global, why: RegNo) -> Result<Outcome, NoMemory>
    ensures { IfOk result (λ outcome. outcome ≡ configuration_refusal (registry_name why)) }
{
    let why = Refusal::Configuration(why);
    refused(alloc, &why)
}

/// The outcome for a configuration that has no party with the requested name.
#[tactic(auto, unfolding(crate::specs::Answer::configuration_text))]
pub fn refuse_party(alloc: Global) -> Result<Outcome, NoMemory>
    ensures { IfOk result (λ outcome. outcome ≡ configuration_refusal (codes "NoParty")) }
{
    let why = Refusal::NoParty;
    refused(alloc, &why)
}
