// The moment and the places after some lines.

ghost use Rattle.std.specs.Prelude.{◌≡◌, ◌<◌, ◌^◌, ◌∷◌, [], OnOk, OnErr, length};
ghost use Rattle.trace_lines.specs.Lines.{moment_after, places_after, takes_place};

use crate::line::Line;
use sso_base::{Moment, NoMemory};
use std::alloc::Global;
use std::marker::Model;

/// The lines that were read so far. The model has the newest first. Besides, it keeps the last moment and the number of places
/// taken.
#[derive(Drop)]
pub(crate) struct SoFar {
    moment: Moment,
    places: u64,
    pub(crate) lines: Vec<Line>,
}

impl Model for SoFar {
    ghost use Rattle.std.specs.Prelude.{◌≡◌, List, reverse, length};
    ghost use Rattle.trace_lines.specs.declared.line.Line.{Line};
    ghost use Rattle.trace_lines.specs.Lines.{moment_after, places_after};

    ghost Value = { List Line };

    ghost view = { λ s. reverse s.lines.items };

    ghost invariant = { λ s. (s.moment ≡ moment_after (reverse s.lines.items)) × (s.places ≡ places_after (reverse s.lines.items)) };
}

// Whether the line takes a place.
fn is_request(line: &Line) -> bool
    ensures { result ≡ takes_place line.now }
{
    !matches!(line, Line::At(_) | Line::Steal { .. } | Line::Show { .. })
}

impl SoFar {
    // No lines.
    pub(crate) fn new(alloc: Global) -> SoFar
        ensures { result ≡ [] }
    {
        SoFar {
            moment: Moment::new(0).unwrap(),
            places: 0,
            lines: Vec::new(alloc),
        }
    }

    // The last moment, initially 0.
    pub(crate) fn moment(&self) -> u64
        ensures { result ≡ moment_after self.now }
    {
        self.moment.seconds()
    }

    // The number of places taken.
    pub(crate) fn places(&self) -> u64
        ensures { result ≡ places_after self.now }
    {
        self.places
    }

    // Adds one more line. On an error nothing changes.
    pub(crate) fn push(&mut self, line: Line) -> Result<(), NoMemory>
        requires { length self.old < 2 ^ 60 }
        ensures ok { OnOk result (self.new ≡ line ∷ self.old) }
        ensures err { OnErr result (self.new ≡ self.old) }
    {
        let moment = match &line {
            Line::At(moment) => *moment,
            _ => self.moment,
        };
        let places = if is_request(&line) {
            self.places + 1
        } else {
            self.places
        };
        self.lines.push(line)?;
        self.moment = moment;
        self.places = places;
        Ok(())
    }
}
