// Sends a request to one role of a world, and keeps its reply.

ghost use Rattle.std.specs.Prelude.{◌≡◌, ◌<◌, length, IfOk, OnOk, OnErr};
ghost use Rattle.op_request.specs.Prepared.{prepared as op_prepared};
ghost use Rattle.op_core.specs.Providing.{past_of as op_past_of};
ghost use Rattle.sso_places.specs.Legal.{party_prepared};
ghost use Rattle.sso_places.specs.World.{op_past};
ghost use Rattle.running_world.specs.Running.{places_of};
ghost use Rattle.running_world.specs.Worlds.{shown, OpAsked, RpAsked};
ghost use Rattle.running_world.specs.Roles.{ProviderHasRoom, ProviderReportsFull, PartyHasRoom, PartyReportsFull};

use crate::foreknown::nothing_foreknown;
use crate::kept::Asked;
use crate::roles::{TimedParty, TimedProvider, step_at};
use crate::transcript::Transcript;
use client_registry::Registry;
use op_request::prepare_op;
use rp_exchange::RpAsk;
use rp_request::{prepare_info, prepare_rp, prepare_tokens};
use sso_base::{Ask, CoreNo, Moment, NoMemory, Word};
use sso_places::{To, WorldAsk, WorldReply};
use std::alloc::Global;

/// Sends a request to the provider.
pub(crate) fn ask_provider(
    provider: &mut TimedProvider,
    transcript: &mut Transcript,
    alloc: Global,
    from: u32,
    at: Moment,
    fresh: [Word; 4],
    request: Ask,
) -> Result<(), CoreNo>
    requires registry { provider.old.registry ≡ transcript.old.registry }
    requires past { op_past_of provider.old ≡ op_past (places_of transcript.old.registry transcript.old.kept) }
    ensures ok { OnOk result (OpAsked provider.old provider.new transcript.old transcript.new from at fresh request) }
    ensures provider { OnErr result (provider.new ≡ provider.old) }
    ensures transcript { OnErr result (shown transcript.new ≡ shown transcript.old) }
    ensures room { ProviderHasRoom result transcript.old.registry provider.old (op_prepared transcript.old.registry request) }
    ensures full { ProviderReportsFull result transcript.old.registry provider.old (op_prepared transcript.old.registry request) }
{
    transcript.prepare(alloc, from, To::Provider)?;
    let asked = prepare_op(alloc, transcript.registry(), &request)?;
    let judged = transcript.judged_at_provider(alloc, from, &request, &asked)?;
    let fore = provider.foreknown(at, &asked);
    let told = provider.step(alloc, at, fresh, asked)?;
    let asked = Asked {
        from,
        at: told.at,
        fresh,
        to: To::Provider,
        ask: WorldAsk::Http(request),
    };
    transcript.put(asked, WorldReply::Provider(told.reply), judged, fore);
    Ok(())
}

// Parses a request to a party.
fn prepare_party(
    alloc: Global,
    registry: &Registry,
    party: u32,
    ask: &WorldAsk,
) -> Result<RpAsk, NoMemory>
    requires { party < length registry.now.parties }
    ensures { IfOk result (λ asked. asked ≡ party_prepared registry.now party ask.now) }
{
    match ask {
        WorldAsk::Http(request) => prepare_rp(alloc, registry, party, request),
        WorldAsk::Tokens(pending, answer) => {
            prepare_tokens(alloc, registry, party, *pending, answer)
        }
        WorldAsk::Info(pending, answer) => prepare_info(alloc, *pending, answer),
    }
}

/// Sends a request to the party with this number.
pub(crate) fn ask_party(
    parties: &mut Vec<TimedParty>,
    transcript: &mut Transcript,
    alloc: Global,
    from: u32,
    party: u32,
    at: Moment,
    fresh: [Word; 4],
    ask: WorldAsk,
) -> Result<(), CoreNo>
    requires party { party < length transcript.old.registry.parties }
    requires count { length parties.old.items ≡ length transcript.old.registry.parties }
    ensures ok { OnOk result (RpAsked parties.old.items parties.new.items transcript.old transcript.new from party at fresh ask) }
    ensures parties { OnErr result (parties.new.items ≡ parties.old.items) }
    ensures transcript { OnErr result (shown transcript.new ≡ shown transcript.old) }
    ensures room { PartyHasRoom result parties.old.items party (party_prepared transcript.old.registry party ask) }
    ensures full { PartyReportsFull result parties.old.items party (party_prepared transcript.old.registry party ask) }
{
    transcript.prepare(alloc, from, To::Party(party))?;
    let asked = prepare_party(alloc, transcript.registry(), party, &ask)?;
    let judged = transcript.judged_at_party(alloc, from, party, &ask, &asked)?;
    let told = step_at(parties, alloc, party, at, fresh, asked)?;
    let asked = Asked {
        from,
        at: told.at,
        fresh,
        to: To::Party(party),
        ask,
    };
    let reply = WorldReply::Party(told.reply);
    transcript.put(asked, reply, judged, nothing_foreknown());
    Ok(())
}
