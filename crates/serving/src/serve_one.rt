// One connection is served.

ghost use Rattle.std.specs.Prelude.{◌≡◌, ◌≢◌, ◌⊎◌, ◌+◌, ◌≤◌, ◌<◌, ◌++◌, ◌∷◌, ℕ, true, false, List, [], map, length};
ghost use Rattle.std.specs.Prelude.{Ok, Err, Some, None, IfOk, IfErr, IfSome, OnErr};
ghost use Rattle.sso_base.specs.Faults.{Rose};
ghost use Rattle.turn_store.specs.Passes.{IsPassOf, number_of, front_of, setup_of};
ghost use Rattle.work_permits.specs.Gates.{IsEnteredAt, IsTurnedAway};
ghost use Rattle.serving.specs.LinkCalls.{LinkCall, sending_of, TookCalls};
ghost use Rattle.serving.specs.Manner.{Manner, bytes_by};
ghost use Rattle.serving.specs.Serving as spec;
ghost use Rattle.serving.specs.Told.{bytes_of, end_of};
ghost use Rattle.serving.specs.Work.{Work, Did};
ghost use Rattle.serving.specs.Writing.{Wrote};

use crate::backend::Backend;
use crate::ends::{Served, ServedEnd};
use crate::no_reply::NoReply;
use crate::role::Role;
use crate::sending::{Page, printed, printed_all, send};
use crate::step::step;
use crate::writing::{write_page, write_without};
use server_desk::{Clock, Connection, Draw, Link, LinkNo, Source, Tools};
use sso_base::{Answered, Ask, Blob, Core, Message, NoMemory, Sink};
use sso_http::{HttpNo, print_reply, read_ask, read_peer};
use std::alloc::Global;
use std::sync::Wait;
use turn_store::Pass;
use work_permits::{AllTaken, Entered};

// The parsed form of a request that proves no password.
fn parsed_at_once<R: Wait, X: Role>(
    backend: &Backend<'_, R, X, X::Core>,
    request: &Ask,
) -> Result<<X::Core as Core>::Ask, NoMemory>
    requires ready { X.ready backend.now.role.now }
    requires quick { (X.manner backend.now.role.now).proves request.now ≡ false }
    ensures { IfOk result (λ asked. asked ≡ (X.manner backend.now.role.now).prepared request.now) }
{
    backend.role.prepare(backend.alloc, request)
}

// The parsed form of any request, by a worker that has entered the gate.
fn parsed_behind<R: Wait, X: Role>(
    backend: &Backend<'_, R, X, X::Core>,
    _entered: &Entered,
    request: &Ask,
) -> Result<<X::Core as Core>::Ask, NoMemory>
    requires ready { X.ready backend.now.role.now }
    requires entered { IsEnteredAt backend.now.gate.now _entered.now }
    ensures { IfOk result (λ asked. asked ≡ (X.manner backend.now.role.now).prepared request.now) }
{
    backend.role.prepare(backend.alloc, request)
}

// The parsed form of a request. One that proves a password is parsed behind the gate, or turned away there.
fn parsed<R: Wait, X: Role>(
    backend: &Backend<'_, R, X, X::Core>,
    request: &Ask,
) -> Result<Result<<X::Core as Core>::Ask, AllTaken>, NoMemory>
    requires { X.ready backend.now.role.now }
    ensures ok { IfOk result (λ parsed. IfOk parsed (λ asked. asked ≡ (X.manner backend.now.role.now).prepared request.now)) }
    ensures turned_away { IfOk result (λ parsed. IfErr parsed (IsTurnedAway backend.now.gate.now)) }
    ensures proves { IfOk result (λ parsed. OnErr parsed ((X.manner backend.now.role.now).proves request.now ≡ true)) }
{
    if !backend.role.proves(request) {
        return Ok(Ok(parsed_at_once(backend, request)?));
    }
    match backend.gate.enter(backend.rt) {
        Ok(entered) => {
            let asked = parsed_behind(backend, &entered, request);
            backend.gate.leave(entered);
            Ok(Ok(asked?))
        }
        Err(taken) => Ok(Err(taken)),
    }
}

// The parsed request of a connection.
fn prepared<R: Wait, X: Role, S: Source>(
    backend: &Backend<'_, R, X, X::Core>,
    source: &mut S,
) -> Result<<X::Core as Core>::Ask, NoReply>
    requires { X.ready backend.now.role.now }
    ensures ok { IfOk result (spec.IsPrepared (X.manner backend.now.role.now) (S.left source.old) (S.left source.new)) }
    ensures err { IfErr result (spec.IsUnread (X.manner backend.now.role.now)
        (S.left source.old) (S.left source.new) (S.faults source.old) (S.faults source.new)) }
{
    let (first, second) = backend.role.cookies(backend.alloc)?;
    match read_ask(backend.alloc, source, &first, &second) {
        Ok(request) => match parsed(backend, &request)? {
            Ok(asked) => Ok(asked),
            Err(_taken) => Err(NoReply::Busy),
        },
        Err(HttpNo::NoMemory) => Err(NoReply::NoMemory),
        Err(why) => Err(NoReply::Http(why)),
    }
}

// The parsed request of a connection, if it is small enough.
fn asked<R: Wait, X: Role, S: Source>(
    backend: &Backend<'_, R, X, X::Core>,
    source: &mut S,
) -> Result<<X::Core as Core>::Ask, NoReply>
    requires { X.ready backend.now.role.now }
    ensures ok { IfOk result (spec.IsAsked (X.manner backend.now.role.now) (S.left source.old) (S.left source.new)) }
    ensures err { IfErr result (spec.IsUnread (X.manner backend.now.role.now)
        (S.left source.old) (S.left source.new) (S.faults source.old) (S.faults source.new)) }
{
    let ask = prepared(backend, source)?;
    if !backend.role.takes(&ask) {
        drop(ask);
        return Err(NoReply::TooLarge);
    }
    Ok(ask)
}

// The answer of another server, by what came back over the link.
fn peer_answer(alloc: Global, back: Result<Blob, LinkNo>) -> Result<Answered, NoReply>
    ensures { spec.IsPeerAnswer back result }
{
    match back {
        Ok(bytes) => match read_peer(alloc, bytes.as_bytes())? {
            Some(answer) => Ok(answer),
            None => Err(NoReply::Peer),
        },
        Err(LinkNo::NoMemory) => Err(NoReply::NoMemory),
        Err(LinkNo::Failed) => Err(NoReply::Link),
    }
}

// Sends a question, and reads its answer.
fn answer_to<L: Link>(alloc: Global, link: &mut L, question: &Message) -> Result<Answered, NoReply>
    ensures { spec.AskedPeer (L.state link.old) (L.state link.new) question.now result }
{
    let sending = printed(alloc, question)?;
    let back = send(alloc, link, &sending);
    peer_answer(alloc, back)
}

// The parsed answer to the question of a reply, if it is small enough.
fn asked_back<X: Role, L: Link>(
    alloc: Global,
    role: &X,
    link: &mut L,
    reply: &<X::Core as Core>::Reply,
    question: &Message,
) -> Result<<X::Core as Core>::Ask, NoReply>
    requires ready { X.ready role.now }
    requires question { (X.manner role.now).question reply.now ≡ Some question.now }
    ensures { (calls : List LinkCall) × TookCalls (L.state link.old) (L.state link.new) calls × spec.IsAnswered (X.manner role.now) reply.now calls result }
{
    let answer = answer_to(alloc, link, question)?;
    let ask = role.prepare_answer(alloc, reply, &answer)?;
    if !role.takes(&ask) {
        drop(ask);
        return Err(NoReply::TooLarge);
    }
    Ok(ask)
}

// The reply after the question of a reply was answered, or that reply where it puts none.
fn follow<R: Wait, X: Role, L: Link, C: Clock, W: Draw>(
    backend: &Backend<'_, R, X, X::Core>,
    pass: &mut Pass<X::Core>,
    tools: &mut Tools<L, C, W>,
    places: &mut u64,
    reply: <X::Core as Core>::Reply,
) -> Result<<X::Core as Core>::Reply, NoReply>
    requires ready { X.ready backend.now.role.now }
    requires pass { IsPassOf X.Core.setup X.Core.is_legal backend.now.store.now pass.old }
    requires places { places.old ≤ 2 }
    ensures pass { IsPassOf X.Core.setup X.Core.is_legal backend.now.store.now pass.new }
    ensures number { number_of pass.new ≡ number_of pass.old }
    ensures followed { (w : Work X.Core.Ask X.Core.Reply)
        × Did pass.old pass.new (L.state tools.old.link) (L.state tools.new.link)
        (C.ahead tools.old.clock) (C.ahead tools.new.clock) (W.ahead tools.old.draw) (W.ahead tools.new.draw) w
        × spec.Round (X.manner backend.now.role.now) (X.Core.most (setup_of X.Core.setup backend.now.store.now))
        X.rounds (front_of pass.new) reply w result
        × (places.new ≡ places.old + length w.steps) }
{
    let question = backend.role.question(backend.alloc, &reply)?;
    let ask = match question {
        None => return Ok(reply),
        Some(message) => asked_back(
            backend.alloc,
            backend.role,
            &mut tools.link,
            &reply,
            &message,
        )?,
    };
    drop(reply);
    let next = step(backend, pass, &mut tools.clock, &mut tools.draw, ask)?;
    *places += 1;
    Ok(next)
}

// The last reply, from a first one on: at most two questions are put.
fn last_reply<R: Wait, X: Role, L: Link, C: Clock, W: Draw>(
    backend: &Backend<'_, R, X, X::Core>,
    pass: &mut Pass<X::Core>,
    tools: &mut Tools<L, C, W>,
    places: &mut u64,
    reply: <X::Core as Core>::Reply,
) -> Result<<X::Core as Core>::Reply, NoReply>
    requires ready { X.ready backend.now.role.now }
    requires pass { IsPassOf X.Core.setup X.Core.is_legal backend.now.store.now pass.old }
    requires places { places.old ≡ 1 }
    ensures pass { IsPassOf X.Core.setup X.Core.is_legal backend.now.store.now pass.new }
    ensures number { number_of pass.new ≡ number_of pass.old }
    ensures places { places.new ≤ 3 }
    ensures followed { (w : Work X.Core.Ask X.Core.Reply)
        × Did pass.old pass.new (L.state tools.old.link) (L.state tools.new.link)
        (C.ahead tools.old.clock) (C.ahead tools.new.clock) (W.ahead tools.old.draw) (W.ahead tools.new.draw) w
        × spec.Rest (X.manner backend.now.role.now) (X.Core.most (setup_of X.Core.setup backend.now.store.now))
        (front_of pass.new) reply w.steps w.calls result
        × (places.new ≡ places.old + length w.steps) }
{
    let second = follow(backend, pass, tools, places, reply)?;
    follow(backend, pass, tools, places, second)
}

// The reply to the request of a connection, after all questions, or why there is none.
fn reply_to<R: Wait, X: Role, S: Source, L: Link, C: Clock, W: Draw>(
    backend: &Backend<'_, R, X, X::Core>,
    pass: &mut Pass<X::Core>,
    source: &mut S,
    tools: &mut Tools<L, C, W>,
    places: &mut u64,
) -> Result<<X::Core as Core>::Reply, NoReply>
    requires ready { X.ready backend.now.role.now }
    requires pass { IsPassOf X.Core.setup X.Core.is_legal backend.now.store.now pass.old }
    requires places { places.old ≡ 0 }
    ensures pass { IsPassOf X.Core.setup X.Core.is_legal backend.now.store.now pass.new }
    ensures number { number_of pass.new ≡ number_of pass.old }
    ensures places { places.new ≤ 3 }
    ensures memory { result ≢ Err (NoReply.Http HttpNo.NoMemory) }
    ensures replied { (w : Work X.Core.Ask X.Core.Reply)
        × Did pass.old pass.new (L.state tools.old.link) (L.state tools.new.link)
        (C.ahead tools.old.clock) (C.ahead tools.new.clock) (W.ahead tools.old.draw) (W.ahead tools.new.draw) w
        × spec.IsRun (X.manner backend.now.role.now) (S.left source.old) (S.left source.new) w.steps w.calls
        × spec.Cause (X.manner backend.now.role.now) (X.Core.most (setup_of X.Core.setup backend.now.store.now))
        (S.left source.old) (S.left source.new) (S.faults source.old) (S.faults source.new) (front_of pass.new) w.steps w.calls result
        × (places.new ≡ length w.steps) }
{
    let ask = asked(backend, source)?;
    let first = step(backend, pass, &mut tools.clock, &mut tools.draw, ask)?;
    *places += 1;
    last_reply(backend, pass, tools, places, first)
}

// A reply as it goes out, with its notices.
fn printed_page<X: Role>(
    alloc: Global,
    role: &X,
    reply: &<X::Core as Core>::Reply,
) -> Result<Page, NoMemory>
    requires { X.ready role.now }
    ensures notices { IfOk result (λ page. page.notices.items ≡ map sending_of ((X.manner role.now).notices reply.now)) }
    ensures bytes { IfOk result (λ page. page.bytes ≡ bytes_by (X.manner role.now) reply.now) }
{
    let notices = match role.notices(reply) {
        Some(notices) => printed_all(alloc, notices)?,
        None => Vec::new(alloc),
    };
    let http = role.http(alloc, reply)?;
    Ok(Page::new(notices, print_reply(alloc, &http)?))
}

// Sends the notices of the last reply, each once and in their order, and writes the reply.
fn tell<X: Role, K: Sink, L: Link>(
    alloc: Global,
    role: &X,
    sink: &mut K,
    link: &mut L,
    reply: &<X::Core as Core>::Reply,
) -> ServedEnd
    requires { X.ready role.now }
    ensures { spec.Tells (X.manner role.now) (L.state link.old) (L.state link.new) K.taken K.faults sink.old sink.new reply.now result }
{
    match printed_page(alloc, role, reply) {
        Ok(page) => {
            let sent = page.send(alloc, link);
            write_page(sink, &sent)
        }
        Err(_) => write_without(alloc, sink, NoReply::NoMemory),
    }
}

/// Serves one connection: it reads one request, steps the core, puts its questions to other servers, sends its notices, and
/// writes the reply, or what is sent in its place.
pub fn serve_connection<
    R: Wait,
    X: Role,
    S: Source + Drop,
    K: Sink + Drop,
    L: Link,
    C: Clock,
    W: Draw,
>(
    backend: &Backend<'_, R, X, X::Core>,
    pass: &mut Pass<X::Core>,
    connection: &mut Connection<S, K>,
    tools: &mut Tools<L, C, W>,
) -> Served
    requires ready { X.ready backend.now.role.now }
    requires pass { IsPassOf X.Core.setup X.Core.is_legal backend.now.store.now pass.old }
    ensures pass { IsPassOf X.Core.setup X.Core.is_legal backend.now.store.now pass.new }
    ensures number { number_of pass.new ≡ number_of pass.old }
    ensures served { (w : Work X.Core.Ask X.Core.Reply)
        × Did pass.old pass.new (L.state tools.old.link) (L.state tools.new.link)
        (C.ahead tools.old.clock) (C.ahead tools.new.clock) (W.ahead tools.old.draw) (W.ahead tools.new.draw) w
        × spec.Serves (X.manner backend.now.role.now) (X.Core.most (setup_of X.Core.setup backend.now.store.now))
        S.left S.faults K.taken K.faults (front_of pass.new) connection.old connection.new w result }
    ensures link { result.end ≡ ServedEnd.Link → Rose (L.state tools.old.link).faults (L.state tools.new.link).faults }
{
    let mut places = 0;
    let outcome = reply_to(backend, pass, &mut connection.source, tools, &mut places);
    let end = match outcome {
        Ok(reply) => tell(
            backend.alloc,
            backend.role,
            &mut connection.sink,
            &mut tools.link,
            &reply,
        ),
        Err(why) => write_without(backend.alloc, &mut connection.sink, why),
    };
    Served { places, end }
}
