// The provider of a run.

use crate::configured::{configured, configured_full, configured_lasting};
use case_lines::{Run, request, told};
use client_registry::{RegNo, Registry, read_registry};
use core_stack::Provides;
use end_request::{Returns, read_returns};
use op_core::OpCore;
use pkce_check::PkceCore;
use refresh_book::RefreshCore;
use rp_signout::SignoutCore;
use sso_base::{CoreNo, Message, Messages, Moment, NoMemory};
use sso_serve::op_plus_core;
use std::alloc::Global;

/// The core of `op-plus`.
pub type PlusCore = SignoutCore<RefreshCore<PkceCore<OpCore>>>;

/// A reply that has a line.
pub trait Lined {
    /// The line of the reply.
    fn line(&self, alloc: Global) -> Result<String, NoMemory>;
}

/// A core with which a run begins.
pub trait Begins: Provides {
    /// The provider of a registry in this core, with an empty history. Browsers may be sent to these URIs.
    fn begin(alloc: Global, registry: &Registry, returns: Returns) -> Result<Self, NoMemory>;
}

impl Begins for PlusCore {
    fn begin(alloc: Global, registry: &Registry, returns: Returns) -> Result<PlusCore, NoMemory> {
        op_plus_core(alloc, registry, returns)
    }
}

/// A provider in a core, and its registry. (All is for any core: the prover would compare all parts of a core with a name in each call.)
#[derive(Drop)]
pub struct Provider<P: Provides> {
    registry: Registry,
    core: P,
}

impl<P: Begins> Provider<P> {
    fn begun(
        registry: Registry,
        core: Result<P, NoMemory>,
    ) -> Result<Option<Provider<P>>, NoMemory> {
        match core {
            Ok(core) => Ok(Some(Provider { registry, core })),
            Err(NoMemory) => Err(NoMemory),
        }
    }

    fn of(
        alloc: Global,
        registry: Registry,
        returns: Returns,
    ) -> Result<Option<Provider<P>>, NoMemory> {
        let core = P::begin(alloc, &registry, returns);
        Self::begun(registry, core)
    }

    fn sending(
        alloc: Global,
        registry: Registry,
        file: &str,
    ) -> Result<Option<Provider<P>>, NoMemory> {
        match read_returns(alloc, file.as_bytes()) {
            Ok(returns) => Self::of(alloc, registry, returns),
            Err(RegNo::NoMemory) => Err(NoMemory),
            Err(_) => Ok(None),
        }
    }

    fn read(alloc: Global, file: &str) -> Result<Option<Provider<P>>, NoMemory> {
        match read_registry(alloc, file.as_bytes()) {
            Ok(registry) => Self::sending(alloc, registry, file),
            Err(RegNo::NoMemory) => Err(NoMemory),
            Err(_) => Ok(None),
        }
    }

    /// A provider with these lines in its configuration and an empty history; none if the configuration is rejected. After the line
    /// `lasting` its history lasts, and after the line `full` its pages are full.
    pub fn begin(alloc: Global, lines: &str) -> Result<Option<Provider<P>>, NoMemory> {
        let file = begun(alloc, lines)?;
        Self::read(alloc, file.as_str())
    }
}

// The configuration with these lines.
fn begun(alloc: Global, lines: &str) -> Result<String, NoMemory> {
    if let Some(lines) = lines.strip_prefix("lasting / ") {
        return configured_lasting(alloc, lines);
    }
    match lines.strip_prefix("full / ") {
        Some(lines) => configured_full(alloc, lines),
        None => configured(alloc, lines),
    }
}

fn copied(alloc: Global, messages: &Messages) -> Result<Vec<Message>, NoMemory> {
    let mut copied = Vec::new(alloc);
    for place in 0..messages.count() {
        copied.push(messages.at(place).copy(alloc)?)?;
    }
    Ok(copied)
}

impl<P: Provides> Provider<P>
where
    P::Reply: Lined,
{
    // The messages to clients in a reply.
    fn messages_in(alloc: Global, reply: &P::Reply) -> Result<Vec<Message>, NoMemory> {
        match P::messages(reply) {
            Some(messages) => copied(alloc, messages),
            None => Ok(Vec::new(alloc)),
        }
    }

    fn told(
        &self,
        alloc: Global,
        run: &mut Run,
        call: &str,
        reply: &P::Reply,
    ) -> Result<String, NoMemory> {
        let messages = Self::messages_in(alloc, reply)?;
        let http = P::http(alloc, &self.registry, reply)?;
        run.keep(http, messages);
        let line = reply.line(alloc)?;
        run.told(alloc, call, line.as_str())
    }

    // If memory runs out, the step must not be made again, so only the printing is repeated.
    fn step_told(
        &self,
        alloc: Global,
        run: &mut Run,
        call: &str,
        answer: &Result<P::Reply, CoreNo>,
    ) -> Result<String, NoMemory> {
        match answer {
            Ok(reply) => {
                run.count();
                match self.told(alloc, run, call, reply) {
                    Ok(told) => Ok(told),
                    Err(NoMemory) => self.told(alloc, run, call, reply),
                }
            }
            Err(CoreNo::JournalFull(_)) => told(alloc, "the history is full"),
            Err(CoreNo::NoMemory) => Err(NoMemory),
        }
    }

    /// What a call prints for the reply to a request.
    pub fn ask(
        &mut self,
        alloc: Global,
        run: &mut Run,
        call: &str,
        at: Moment,
        fields: &[&str],
    ) -> Result<String, NoMemory> {
        let request = request(alloc, fields)?;
        let asked = P::prepare(alloc, &self.registry, &request)?;
        let answer = self.core.step(alloc, at, run.words(), asked);
        self.step_told(alloc, run, call, &answer)
    }
}
