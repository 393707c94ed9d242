// The ghost contents of desks.

use server_desk::{Clock, Desk, Door, Draw, Link};

/// The ghost contents of desks of a type, by their parts, under one name for contracts. It has no calls.
pub trait Tells {
    ghost use Rattle.serving.specs.Summaries.{Telling};

    type D: Door;

    type L: Link;

    type C: Clock;

    type W: Draw;

    ghost telling: { Telling Self.D Self.L Self.C Self.W Self.D.Source Self.D.Sink };
}

impl<D: Door, L: Link, C: Clock, W: Draw> Tells for Desk<D, L, C, W> {
    type D = D;

    type L = L;

    type C = C;

    type W = W;

    ghost telling = { record {
      state = D.state;
      closings = D.closings;
      door_faults = D.faults;
      link_state = L.state;
      moments = C.ahead;
      words = W.ahead;
      left = D.Source.left;
      read_faults = D.Source.faults;
      taken = D.Sink.taken;
      write_faults = D.Sink.faults;
    } };
}
