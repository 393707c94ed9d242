// The faults of a line.

ghost use Rattle.std.specs.Prelude.{◌≡◌, length, map};
ghost use Rattle.trace_lines.specs.Faults as faults;
ghost use Rattle.trace_lines.specs.Guilt as spec;

use crate::no::Fault;
use crate::so_far::SoFar;
use crate::values::{
    read_browser, read_choice, read_message, read_moment, read_party, read_place, read_role,
    read_sender,
};
use crate::verb::Field;
use client_registry::Registry;
use sso_base::Moment;

fn fault_if(met: bool, fault: Fault) -> Option<Fault>
    ensures { result ≡ faults.fault_if met fault }
{
    if met { Some(fault) } else { None }
}

fn moment_fault(before: &SoFar, moment: Option<Moment>) -> Option<Fault>
    ensures { result ≡ spec.moment_fault before.now moment }
{
    match moment {
        None => Some(Fault::Number),
        Some(moment) => fault_if(moment.seconds() < before.moment(), Fault::Backwards),
    }
}

fn place_fault(before: &SoFar, place: Option<u64>) -> Option<Fault>
    ensures { result ≡ spec.place_fault before.now place }
{
    match place {
        None => Some(Fault::Number),
        Some(place) => fault_if(before.places() < place, Fault::NoSuchReply),
    }
}

// The fault of a word as this field, if it has one.
fn field_fault(registry: &Registry, before: &SoFar, field: Field, word: &str) -> Option<Fault>
    ensures { result ≡ spec.field_fault registry.now before.now field word.now }
{
    match field {
        Field::Seconds => moment_fault(before, read_moment(word)),
        Field::Browser => fault_if(read_browser(word).is_none(), Fault::Number),
        Field::Sender => fault_if(read_sender(word).is_none(), Fault::Number),
        Field::Place => place_fault(before, read_place(word)),
        Field::Message => fault_if(read_message(word).is_none(), Fault::Number),
        Field::Party => fault_if(read_party(registry, word).is_none(), Fault::NoSuchParty),
        Field::Role => fault_if(read_role(registry, word).is_none(), Fault::NoSuchParty),
        Field::Choice => fault_if(read_choice(word).is_none(), Fault::Word),
        Field::Subject => fault_if(255 < word.len(), Fault::Word),
        Field::Free => None,
    }
}

// The first fault, in their order, of the words as these fields.
pub(crate) fn fields_fault(
    registry: &Registry,
    before: &SoFar,
    fields: &[Field],
    words: &[&str],
) -> Option<Fault>
    requires { length words.now ≡ length fields.now }
    ensures { result ≡ faults.least (spec.fields_faults registry.now before.now fields.now (map (λ w. w.now) words.now)) }
{
    let mut found = None;
    for place in 0..fields.len() {
        if let Some(fault) = field_fault(registry, before, fields[place], words[place]) {
            found = Some(fault.or_sooner(found));
        }
    }
    found
}
