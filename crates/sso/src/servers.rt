//! The outcomes of serving the provider of a configuration, or one of its parties, alone or with proof keys (RFC 7636). With proof keys
//! the provider also gives refresh tokens (RFC 6749, 6), and asks the user before a relying party's request ends a session (RP-Initiated
//! Logout 1.0).

ghost use Rattle.std.specs.Prelude.{◌≡◌, ◌^◌, ◌≤◌, ◌<◌, false, length, None, Ok, IfOk, codes};
ghost use Rattle.std.specs.List.{All};
ghost use Rattle.end_request.specs.Returning.{returns_read};
ghost use Rattle.rp_accept.specs.Serving.{setup_of};
ghost use Rattle.sso_serve.specs.Cores.{end_setup};
ghost use Rattle.sso.specs.Asked as spec;
ghost use Rattle.sso.specs.Asked.{metadata_refusal, server_answer, op_asked, returns_asked, op_plus_asked, rp_asked, name_asked};
ghost use Rattle.sso.specs.Outcomes.{ServedOp, ServedRp, ServedOpPlus, ServedRpPlus};

use crate::configuration::{refuse_party, refuse_registry};
use crate::outcome::Outcome;
use crate::refusal::{Refusal, refused};
use client_registry::{Provider, RegNo, Registry, read_registry};
use discovery_doc::{DiscNo, read_discovery};
use end_request::{Returns, read_returns};
use server_desk::{Clock, Desk, Door, Draw, Link};
use serving::Tells;
use sso_base::{Blob, NoMemory, Text};
use sso_serve::{run_op, run_op_plus, run_rp, run_rp_plus};
use std::alloc::Global;
use std::sync::Wait;
use std::thread::Threads;

/// The most bytes of a provider's metadata.
const MOST_METADATA: usize = 65_536;

/// The outcome of a server none of whose doors failed.
#[tactic(auto, unfolding(crate::specs::Asked::served_text))]
fn answer_served(alloc: Global, served: u64, entries: u64) -> Result<Outcome, NoMemory>
    ensures { IfOk result (λ outcome. outcome ≡ server_answer false served entries) }
{
    let text = format!(in alloc; "served {served} entries {entries}\n")?;
    Ok(Outcome {
        status: 0,
        text: Blob::new(alloc, text.as_bytes())?,
    })
}

/// The outcome of a server that has ended.
#[tactic(auto, unfolding(crate::specs::Asked::door_text))]
fn answer_server(alloc: Global, fault: bool, served: u64, entries: u64) -> Result<Outcome, NoMemory>
    ensures { IfOk result (λ outcome. outcome ≡ server_answer fault served entries) }
{
    if fault {
        Ok(Outcome {
            status: 9,
            text: Blob::new(alloc, b"door\n")?,
        })
    } else {
        answer_served(alloc, served, entries)
    }
}

/// Serves the provider of a registry.
fn serve_provider<R: Threads + Wait + Sync, D: Door, L: Link, C: Clock, W: Draw>(
    rt: &R,
    alloc: Global,
    registry: &Registry,
    desks: &mut Vec<Desk<D, L, C, W>>,
) -> Result<Outcome, NoMemory>
    requires few { length desks.old.items ≤ 64 }
    requires desks { All (λ desk. (desk.turns ≤ 2 ^ 56) × ((D.state desk.door).given < 2 ^ 63)) desks.old.items }
    ensures { IfOk result (ServedOp ⟦<Desk<D, L, C, W> as Tells>⟧.telling desks.old.items desks.new.items (Ok registry.now)) }
{
    let ran = run_op(rt, alloc, registry, desks)?;
    answer_server(alloc, ran.fault, ran.served, ran.entries)
}

/// Serves the provider of a configuration. Returns how that ended, or why the configuration is rejected.
#[tactic(auto, unfolding(crate::specs::Asked::op_asked))]
pub fn answer_op<R: Threads + Wait + Sync, D: Door, L: Link, C: Clock, W: Draw>(
    rt: &R,
    alloc: Global,
    config: &[u8],
    desks: &mut Vec<Desk<D, L, C, W>>,
) -> Result<Outcome, NoMemory>
    requires few { length desks.old.items ≤ 64 }
    requires desks { All (λ desk. (desk.turns ≤ 2 ^ 56) × ((D.state desk.door).given < 2 ^ 63)) desks.old.items }
    ensures { IfOk result (ServedOp ⟦<Desk<D, L, C, W> as Tells>⟧.telling desks.old.items desks.new.items (op_asked config.now)) }
{
    match read_registry(alloc, config) {
        Ok(registry) => serve_provider(rt, alloc, &registry, desks),
        Err(RegNo::NoMemory) => Err(NoMemory),
        Err(why) => refuse_registry(alloc, why),
    }
}

/// Serves the provider of a registry with proof keys, refresh tokens and questions before a sign-out. Browsers may be sent to these URIs.
fn serve_provider_plus<R: Threads + Wait + Sync, D: Door, L: Link, C: Clock, W: Draw>(
    rt: &R,
    alloc: Global,
    registry: &Registry,
    returns: Returns,
    desks: &mut Vec<Desk<D, L, C, W>>,
) -> Result<Outcome, NoMemory>
    requires few { length desks.old.items ≤ 64 }
    requires desks { All (λ desk. (desk.turns ≤ 2 ^ 56) × ((D.state desk.door).given < 2 ^ 63)) desks.old.items }
    ensures { IfOk result
        (ServedOpPlus ⟦<Desk<D, L, C, W> as Tells>⟧.telling desks.old.items desks.new.items (Ok (end_setup registry.now returns))) }
{
    let ran = run_op_plus(rt, alloc, registry, returns, desks)?;
    answer_server(alloc, ran.fault, ran.served, ran.entries)
}

/// The same for the configuration of the registry, which says where browsers may be sent.
fn serve_sending<R: Threads + Wait + Sync, D: Door, L: Link, C: Clock, W: Draw>(
    rt: &R,
    alloc: Global,
    config: &[u8],
    registry: &Registry,
    desks: &mut Vec<Desk<D, L, C, W>>,
) -> Result<Outcome, NoMemory>
    requires few { length desks.old.items ≤ 64 }
    requires desks { All (λ desk. (desk.turns ≤ 2 ^ 56) × ((D.state desk.door).given < 2 ^ 63)) desks.old.items }
    ensures { IfOk result
        (ServedOpPlus ⟦<Desk<D, L, C, W> as Tells>⟧.telling desks.old.items desks.new.items (returns_asked registry.now (returns_read config.now))) }
{
    match read_returns(alloc, config) {
        Ok(returns) => serve_provider_plus(rt, alloc, registry, returns, desks),
        Err(RegNo::NoMemory) => Err(NoMemory),
        Err(why) => refuse_registry(alloc, why),
    }
}

/// Serves the provider of a configuration with proof keys, refresh tokens and questions before a sign-out. Returns how that ended, or why
/// the configuration is rejected.
#[tactic(auto, unfolding(crate::specs::Asked::op_plus_asked))]
pub fn answer_op_plus<R: Threads + Wait + Sync, D: Door, L: Link, C: Clock, W: Draw>(
    rt: &R,
    alloc: Global,
    config: &[u8],
    desks: &mut Vec<Desk<D, L, C, W>>,
) -> Result<Outcome, NoMemory>
    requires few { length desks.old.items ≤ 64 }
    requires desks { All (λ desk. (desk.turns ≤ 2 ^ 56) × ((D.state desk.door).given < 2 ^ 63)) desks.old.items }
    ensures { IfOk result (ServedOpPlus ⟦<Desk<D, L, C, W> as Tells>⟧.telling desks.old.items desks.new.items (op_plus_asked config.now)) }
{
    match read_registry(alloc, config) {
        Ok(registry) => serve_sending(rt, alloc, config, &registry, desks),
        Err(RegNo::NoMemory) => Err(NoMemory),
        Err(why) => refuse_registry(alloc, why),
    }
}

/// The outcome for metadata that are too long.
#[tactic(auto, unfolding(crate::specs::Asked::metadata_text))]
fn refuse_size(alloc: Global) -> Result<Outcome, NoMemory>
    ensures { IfOk result (λ outcome. outcome ≡ metadata_refusal (codes "Size")) }
{
    let why = Refusal::MetadataSize;
    refused(alloc, &why)
}

/// The outcome for metadata that reading rejects.
#[tactic(auto, unfolding(crate::specs::Asked::metadata_text))]
fn refuse_metadata(alloc: Global, why: DiscNo) -> Result<Outcome, NoMemory>
    ensures { IfOk result (λ outcome. outcome ≡ metadata_refusal (spec.metadata_name why)) }
{
    let why = Refusal::Metadata(why);
    refused(alloc, &why)
}

/// The provider that the metadata describe, or the outcome if they are rejected.
#[tactic(auto, unfolding(crate::specs::Asked::described))]
fn described(
    alloc: Global,
    registry: &Registry,
    metadata: &[u8],
) -> Result<Result<Provider, Outcome>, NoMemory>
    ensures { IfOk result (λ provider. provider ≡ spec.described registry.now metadata.now) }
{
    if metadata.len() > MOST_METADATA {
        return Ok(Err(refuse_size(alloc)?));
    }
    match read_discovery(alloc, &registry.provider().issuer, metadata) {
        Ok(provider) => Ok(Ok(provider)),
        Err(DiscNo::NoMemory) => Err(NoMemory),
        Err(why) => Ok(Err(refuse_metadata(alloc, why)?)),
    }
}

/// The provider that a party trusts, or the outcome if its metadata are rejected.
fn trusted(
    alloc: Global,
    registry: &Registry,
    metadata: &Option<Blob>,
) -> Result<Result<Provider, Outcome>, NoMemory>
    ensures { IfOk result (λ provider. provider ≡ spec.trusted registry.now metadata.now) }
{
    match metadata {
        Some(metadata) => described(alloc, registry, metadata.as_bytes()),
        None => Ok(Ok(registry.provider().copy(alloc)?)),
    }
}

/// Serves the party with this number, which trusts this provider.
fn serve_trusting<R: Threads + Wait + Sync, D: Door, L: Link, C: Clock, W: Draw>(
    rt: &R,
    alloc: Global,
    registry: &Registry,
    party: u32,
    provider: Provider,
    desks: &mut Vec<Desk<D, L, C, W>>,
) -> Result<Outcome, NoMemory>
    requires party { party < length registry.now.parties }
    requires issuer { provider.issuer ≡ registry.now.provider.issuer }
    requires few { length desks.old.items ≤ 64 }
    requires desks { All (λ desk. (desk.turns ≤ 2 ^ 56) × ((D.state desk.door).given < 2 ^ 63)) desks.old.items }
    ensures { IfOk result (ServedRp ⟦<Desk<D, L, C, W> as Tells>⟧.telling desks.old.items desks.new.items (Ok (setup_of registry.now party provider))) }
{
    let ran = run_rp(rt, alloc, registry, party, provider, desks)?;
    answer_server(alloc, ran.fault, ran.served, ran.entries)
}

/// Serves the party with this name.
fn serve_party<R: Threads + Wait + Sync, D: Door, L: Link, C: Clock, W: Draw>(
    rt: &R,
    alloc: Global,
    registry: &Registry,
    name: &Text,
    metadata: &Option<Blob>,
    desks: &mut Vec<Desk<D, L, C, W>>,
) -> Result<Outcome, NoMemory>
    requires few { length desks.old.items ≤ 64 }
    requires desks { All (λ desk. (desk.turns ≤ 2 ^ 56) × ((D.state desk.door).given < 2 ^ 63)) desks.old.items }
    ensures { IfOk result (ServedRp ⟦<Desk<D, L, C, W> as Tells>⟧.telling desks.old.items desks.new.items (name_asked registry.now name.now metadata.now)) }
{
    let Some(party) = registry.find_party(name.as_str().as_bytes()) else {
        return refuse_party(alloc);
    };
    match trusted(alloc, registry, metadata)? {
        Ok(provider) => serve_trusting(rt, alloc, registry, party, provider, desks),
        Err(refusal) => Ok(refusal),
    }
}

/// Serves the party with this name in a configuration. It trusts the provider of these metadata, or else the configuration's.
/// Returns how that ended, or why nothing was served.
#[tactic(auto, unfolding(crate::specs::Asked::rp_asked))]
pub fn answer_rp<R: Threads + Wait + Sync, D: Door, L: Link, C: Clock, W: Draw>(
    rt: &R,
    alloc: Global,
    config: &[u8],
    name: &Text,
    metadata: &Option<Blob>,
    desks: &mut Vec<Desk<D, L, C, W>>,
) -> Result<Outcome, NoMemory>
    requires few { length desks.old.items ≤ 64 }
    requires desks { All (λ desk. (desk.turns ≤ 2 ^ 56) × ((D.state desk.door).given < 2 ^ 63)) desks.old.items }
    ensures { IfOk result (ServedRp ⟦<Desk<D, L, C, W> as Tells>⟧.telling desks.old.items desks.new.items (rp_asked config.now name.now metadata.now)) }
{
    match read_registry(alloc, config) {
        Ok(registry) => serve_party(rt, alloc, &registry, name, metadata, desks),
        Err(RegNo::NoMemory) => Err(NoMemory),
        Err(why) => refuse_registry(alloc, why),
    }
}

/// Serves the party with this number with proof keys. It trusts this provider.
fn serve_trusting_plus<R: Threads + Wait + Sync, D: Door, L: Link, C: Clock, W: Draw>(
    rt: &R,
    alloc: Global,
    registry: &Registry,
    party: u32,
    provider: Provider,
    desks: &mut Vec<Desk<D, L, C, W>>,
) -> Result<Outcome, NoMemory>
    requires party { party < length registry.now.parties }
    requires issuer { provider.issuer ≡ registry.now.provider.issuer }
    requires few { length desks.old.items ≤ 64 }
    requires desks { All (λ desk. (desk.turns ≤ 2 ^ 56) × ((D.state desk.door).given < 2 ^ 63)) desks.old.items }
    ensures { IfOk result
        (ServedRpPlus ⟦<Desk<D, L, C, W> as Tells>⟧.telling desks.old.items desks.new.items (Ok (setup_of registry.now party provider))) }
{
    let ran = run_rp_plus(rt, alloc, registry, party, provider, desks)?;
    answer_server(alloc, ran.fault, ran.served, ran.entries)
}

/// Serves the party with this name with proof keys. It trusts the registry's provider.
fn serve_party_plus<R: Threads + Wait + Sync, D: Door, L: Link, C: Clock, W: Draw>(
    rt: &R,
    alloc: Global,
    registry: &Registry,
    name: &Text,
    desks: &mut Vec<Desk<D, L, C, W>>,
) -> Result<Outcome, NoMemory>
    requires few { length desks.old.items ≤ 64 }
    requires desks { All (λ desk. (desk.turns ≤ 2 ^ 56) × ((D.state desk.door).given < 2 ^ 63)) desks.old.items }
    ensures { IfOk result
        (ServedRpPlus ⟦<Desk<D, L, C, W> as Tells>⟧.telling desks.old.items desks.new.items (name_asked registry.now name.now None)) }
{
    let Some(party) = registry.find_party(name.as_str().as_bytes()) else {
        return refuse_party(alloc);
    };
    let metadata = None;
    match trusted(alloc, registry, &metadata)? {
        Ok(provider) => serve_trusting_plus(rt, alloc, registry, party, provider, desks),
        Err(refusal) => Ok(refusal),
    }
}

/// Serves the party with this name in a configuration with proof keys. It trusts the configuration's provider. Returns how that ended,
/// or why nothing was served.
#[tactic(auto, unfolding(crate::specs::Asked::rp_asked))]
pub fn answer_rp_plus<R: Threads + Wait + Sync, D: Door, L: Link, C: Clock, W: Draw>(
    rt: &R,
    alloc: Global,
    config: &[u8],
    name: &Text,
    desks: &mut Vec<Desk<D, L, C, W>>,
) -> Result<Outcome, NoMemory>
    requires few { length desks.old.items ≤ 64 }
    requires desks { All (λ desk. (desk.turns ≤ 2 ^ 56) × ((D.state desk.door).given < 2 ^ 63)) desks.old.items }
    ensures { IfOk result
        (ServedRpPlus ⟦<Desk<D, L, C, W> as Tells>⟧.telling desks.old.items desks.new.items (rp_asked config.now name.now None)) }
{
    match read_registry(alloc, config) {
        Ok(registry) => serve_party_plus(rt, alloc, &registry, name, desks),
        Err(RegNo::NoMemory) => Err(NoMemory),
        Err(why) => refuse_registry(alloc, why),
    }
}
