// The request that a line sends.

ghost use Rattle.std.specs.Prelude.{◌≡◌, true, option_and_then, Some, IfOk};
ghost use Rattle.cookie_jars.specs.Jars.{jar_of};
ghost use Rattle.running_world.specs.Running.{world_of};
ghost use Rattle.web_requests.specs.Visiting as visiting;
ghost use Rattle.oidc_replay.specs.Sending as spec;

use running_world::World;
use sso_base::{NoMemory, Text, Word};
use sso_places::To;
use std::alloc::Global;
use trace_lines::{Line, Shown};
use web_requests::{
    Location, Sent, carried, consent_posted, followed, forged, handed_back, location_of,
    login_begun, login_posted, mixed, party_left, party_visited, raw_sent, receiver, signed_out,
};

// The location of the reply at a place.
fn location_in(alloc: Global, world: &World, place: u64) -> Result<Option<Location>, NoMemory>
    ensures { IfOk result (λ o. o ≡ spec.location_in world.now.registry (world_of world.now) place) }
{
    match world.reply(place) {
        Some(reply) => location_of(alloc, world.registry(), reply),
        None => Ok(None),
    }
}

// The same, with the value of a parameter of another place's location.
fn mixed_in(
    alloc: Global,
    world: &World,
    place: u64,
    name: &Text,
    other: u64,
) -> Result<Option<Location>, NoMemory>
    ensures { IfOk result (λ o. o ≡ spec.mixed_in world.now.registry (world_of world.now) place name.now other) }
{
    let Some(location) = location_in(alloc, world, place)? else {
        return Ok(None);
    };
    match location_in(alloc, world, other)? {
        Some(other) => mixed(alloc, name.as_str(), &location, &other),
        None => Ok(None),
    }
}

// The same, with an ID Token that is forged for this subject.
fn forged_in(
    alloc: Global,
    world: &World,
    place: u64,
    user: &Text,
) -> Result<Option<Location>, NoMemory>
    ensures { IfOk result (λ o. o ≡ spec.forged_in world.now.registry (world_of world.now) place user.now) }
{
    match world.reply(place) {
        Some(reply) => forged(alloc, world.registry(), reply, user),
        None => Ok(None),
    }
}

// A browser's request to a location, with its cookies for the role that serves it.
fn followed_on(
    alloc: Global,
    world: &World,
    from: u32,
    location: &Option<Location>,
) -> Result<Option<Sent>, NoMemory>
    ensures { IfOk result (λ o. o ≡ option_and_then (spec.followed_on world.now.registry world.now.jars from) location.now) }
{
    let Some(location) = location else {
        return Ok(None);
    };
    let Some(role) = receiver(world.registry(), location) else {
        return Ok(None);
    };
    followed(
        alloc,
        world.registry(),
        from,
        location,
        &world.jar(from, role),
    )
}

// The request of a line in which a browser follows a location.
fn following(alloc: Global, world: &World, line: &Line) -> Result<Option<Sent>, NoMemory>
    requires { spec.follows_location line.now ≡ true }
    ensures { IfOk result (λ o. o ≡ spec.line_sent world.now.registry (world_of world.now) world.now.jars line.now) }
{
    match line {
        Line::Follow { from, place } => {
            let location = location_in(alloc, world, *place)?;
            followed_on(alloc, world, *from, &location)
        }
        Line::Mix {
            from,
            place,
            name,
            other,
        } => {
            let location = mixed_in(alloc, world, *place, name, *other)?;
            followed_on(alloc, world, *from, &location)
        }
        Line::Forge { from, place, user } => {
            let location = forged_in(alloc, world, *place, user)?;
            followed_on(alloc, world, *from, &location)
        }
        _ => unreachable!(),
    }
}

fn begun(alloc: Global, world: &World, from: u32, party: u32) -> Result<Option<Sent>, NoMemory>
    ensures { IfOk result (λ o. o ≡ Some (visiting.login_begun from party (jar_of world.now.jars from (To.Party party)))) }
{
    let jar = world.jar(from, To::Party(party));
    Ok(Some(login_begun(alloc, from, party, &jar)?))
}

fn visited(alloc: Global, world: &World, from: u32, party: u32) -> Result<Option<Sent>, NoMemory>
    ensures { IfOk result (λ o. o ≡ Some (visiting.party_visited from party (jar_of world.now.jars from (To.Party party)))) }
{
    let jar = world.jar(from, To::Party(party));
    Ok(Some(party_visited(alloc, from, party, &jar)?))
}

fn left(alloc: Global, world: &World, from: u32, party: u32) -> Result<Option<Sent>, NoMemory>
    ensures { IfOk result (λ o. o ≡ Some (visiting.party_left from party (jar_of world.now.jars from (To.Party party)))) }
{
    let jar = world.jar(from, To::Party(party));
    Ok(Some(party_left(alloc, from, party, &jar)?))
}

fn signing_out(alloc: Global, world: &World, from: u32) -> Result<Option<Sent>, NoMemory>
    ensures { IfOk result (λ o. o ≡ spec.line_sent world.now.registry (world_of world.now) world.now.jars (Line.SignOut from)) }
{
    let jar = world.jar(from, To::Provider);
    Ok(Some(signed_out(alloc, world.registry(), from, &jar)?))
}

fn login_in(
    alloc: Global,
    world: &World,
    from: u32,
    place: u64,
    user: &Text,
    password: &Text,
) -> Result<Option<Sent>, NoMemory>
    ensures { IfOk result (λ o. o ≡ spec.line_sent world.now.registry (world_of world.now) world.now.jars (Line.Login from place user.now password.now)) }
{
    let Some(reply) = world.reply(place) else {
        return Ok(None);
    };
    let jar = world.jar(from, To::Provider);
    let (user, password) = (user.as_str(), password.as_str());
    login_posted(alloc, world.registry(), from, reply, user, password, &jar)
}

fn consent_in(
    alloc: Global,
    world: &World,
    from: u32,
    place: u64,
    agree: bool,
) -> Result<Option<Sent>, NoMemory>
    ensures { IfOk result (λ o. o ≡ spec.line_sent world.now.registry (world_of world.now) world.now.jars (Line.Consent from place agree)) }
{
    let Some(reply) = world.reply(place) else {
        return Ok(None);
    };
    let jar = world.jar(from, To::Provider);
    consent_posted(alloc, world.registry(), from, reply, agree, &jar)
}

fn carried_in(
    alloc: Global,
    world: &World,
    place: u64,
    message: u64,
) -> Result<Option<Sent>, NoMemory>
    ensures { IfOk result (λ o. o ≡ spec.line_sent world.now.registry (world_of world.now) world.now.jars (Line.Carry place message)) }
{
    match world.reply(place) {
        Some(reply) => carried(alloc, world.registry(), reply, message),
        None => Ok(None),
    }
}

// Passes the reply of one place to the role of another, as the answer to that role's request.
fn handed_in(
    alloc: Global,
    world: &World,
    place: u64,
    answer: u64,
) -> Result<Option<Sent>, NoMemory>
    ensures { IfOk result (λ o. o ≡ spec.handed_in world.now.registry (world_of world.now) place answer) }
{
    let (Some(from), Some(reply)) = (world.from(place), world.reply(place)) else {
        return Ok(None);
    };
    let Some(told) = world.reply(answer) else {
        return Ok(None);
    };
    let (Some(role), Some(other)) = (world.role(place), world.role(answer)) else {
        return Ok(None);
    };
    handed_back(alloc, world.registry(), from, &role, reply, &other, told)
}

// The cookie that a request presents.
fn shown_word(shown: &Shown, kept: &Option<Word>) -> Option<Word>
    ensures { result ≡ spec.shown_word shown.now kept.now }
{
    match shown {
        Shown::Absent => None,
        Shown::Jar => *kept,
        Shown::Given(word) => Some(*word),
    }
}

// A request that is written out in full.
fn written(alloc: Global, world: &World, line: &Line) -> Result<Option<Sent>, NoMemory>
    requires { spec.is_raw line.now ≡ true }
    ensures { IfOk result (λ o. o ≡ spec.line_sent world.now.registry (world_of world.now) world.now.jars line.now) }
{
    let Line::Raw {
        from,
        to,
        method,
        target,
        first,
        second,
        auth,
        body,
    } = line
    else {
        unreachable!()
    };
    let jar = world.jar(*from, *to);
    let first = shown_word(first, &jar.first);
    let second = shown_word(second, &jar.second);
    Ok(Some(raw_sent(alloc, *from, to, *method, target, first, second, auth, body)?))
}

/// The request that a line sends, given the world so far.
pub(crate) fn line_sent(alloc: Global, world: &World, line: &Line) -> Result<Option<Sent>, NoMemory>
    ensures { IfOk result (λ o. o ≡ spec.line_sent world.now.registry (world_of world.now) world.now.jars line.now) }
{
    match line {
        Line::Begin { from, party } => begun(alloc, world, *from, *party),
        Line::Visit { from, party } => visited(alloc, world, *from, *party),
        Line::Leave { from, party } => left(alloc, world, *from, *party),
        Line::SignOut { from } => signing_out(alloc, world, *from),
        Line::Follow { .. } | Line::Mix { .. } | Line::Forge { .. } => {
            following(alloc, world, line)
        }
        Line::Login {
            from,
            place,
            user,
            password,
        } => login_in(alloc, world, *from, *place, user, password),
        Line::Consent { from, place, agree } => { consent_in(alloc, world, *from, *place, *agree) }
        Line::Carry { place, message } => carried_in(alloc, world, *place, *message),
        Line::Back { place, answer } => handed_in(alloc, world, *place, *answer),
        Line::Raw { .. } => written(alloc, world, line),
        Line::At(_) | Line::Steal { .. } | Line::Show { .. } => Ok(None),
    }
}
