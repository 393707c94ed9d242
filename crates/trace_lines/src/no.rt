// Why a trace is rejected.

ghost use Rattle.std.specs.Prelude.{◌≡◌};
ghost use Rattle.trace_lines.specs.Faults as spec;

use sso_base::NoMemory;
use std::alloc::AllocError;

/// Why a trace is rejected: its size, or else its header, or else its first bad line. For that line, the first of its faults in
/// this order is returned. Lines are numbered from 1.
#[derive(Clone, Copy, Debug, PartialEq, Eq)]
pub enum TraceNo {
    /// Memory ran out.
    NoMemory,
    /// It is longer than 4,194,304 bytes.
    Size,
    /// The first line is not `sso-trace 1 SEED`, with 48 lower-case hexadecimal digits.
    Header,
    /// The line is longer than 65,536 bytes.
    LineTooLong(u64),
    /// The line is not words of visible ASCII, separated by single spaces. Or its first word is not in the table, or the table
    /// has another number of further words. Or its choice is neither `yes` nor `no`, or its subject is longer than 255 bytes.
    Word(u64),
    /// A number in the line is not decimal, or has leading zeros, or is outside its range.
    Number(u64),
    /// The moment is before the last one.
    Backwards(u64),
    /// The line names a place that no line before it has taken.
    NoSuchReply(u64),
    /// The line names a party that is not in the registry.
    NoSuchParty(u64),
}

/// A fault of a line. If there are several, the first in this order is returned.
#[derive(Clone, Copy)]
pub(crate) enum Fault {
    LineTooLong,
    Word,
    Number,
    Backwards,
    NoSuchReply,
    NoSuchParty,
}

impl Fault {
    // The position in the order in which faults are returned.
    fn order(self) -> u8
        ensures { result ≡ spec.order_of self }
    {
        match self {
            Fault::LineTooLong => 1,
            Fault::Word => 2,
            Fault::Number => 3,
            Fault::Backwards => 4,
            Fault::NoSuchReply => 5,
            Fault::NoSuchParty => 6,
        }
    }

    // The earlier in the order, of this fault and the one that was found so far.
    pub(crate) fn or_sooner(self, found: Option<Fault>) -> Fault
        ensures { result ≡ spec.sooner found self }
    {
        match found {
            None => self,
            Some(other) => {
                if self.order() < other.order() {
                    self
                } else {
                    other
                }
            }
        }
    }

    // The rejection of a trace whose first bad line has this number.
    pub(crate) fn refusal(self, number: u64) -> TraceNo
        ensures { result ≡ spec.refusal_of number self }
    {
        match self {
            Fault::LineTooLong => TraceNo::LineTooLong(number),
            Fault::Word => TraceNo::Word(number),
            Fault::Number => TraceNo::Number(number),
            Fault::Backwards => TraceNo::Backwards(number),
            Fault::NoSuchReply => TraceNo::NoSuchReply(number),
            Fault::NoSuchParty => TraceNo::NoSuchParty(number),
        }
    }
}

impl From<NoMemory> for TraceNo {
    ghost use Rattle.std.specs.Prelude.{◌≡◌};
    ghost use Rattle.trace_lines.specs.declared.no.TraceNo.TheVariants as no;

    ghost from_gives = { λ _ e. e ≡ no.NoMemory };

    fn from(_error: NoMemory) -> TraceNo {
        TraceNo::NoMemory
    }
}

impl From<AllocError> for TraceNo {
    ghost use Rattle.std.specs.Prelude.{◌≡◌};
    ghost use Rattle.trace_lines.specs.declared.no.TraceNo.TheVariants as no;

    ghost from_gives = { λ _ e. e ≡ no.NoMemory };

    fn from(_error: AllocError) -> TraceNo {
        TraceNo::NoMemory
    }
}
