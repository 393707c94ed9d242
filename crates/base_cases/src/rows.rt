// A table of rows with names: doors, each with a colour.

use case_lines::{push_part, told};
use sso_base::{Named, NoMemory, Word, find_row, put_row, remove_row};
use std::alloc::{AllocError, Global};

/// A door. Its name is a word that repeats one byte 32 times.
#[derive(Drop)]
pub struct Door {
    name: Word,
    number: u8,
    colour: u8,
}

impl Named for Door {
    ghost name = { λ door. door.name };

    fn name(&self) -> Word {
        self.name
    }
}

/// The answer of a call of this module.
pub fn answer(alloc: Global, doors: &mut Vec<Door>, fields: &[&str]) -> Result<String, NoMemory> {
    match fields {
        ["put row", number, colour] => put(alloc, doors, number, colour),
        ["find row", number] => find(alloc, doors, number),
        ["remove row", number] => remove(alloc, doors, number),
        _ => told(alloc, "no such call"),
    }
}

fn push_door(alloc: Global, list: &mut String, door: &Door) -> Result<(), AllocError> {
    let told = format!(in alloc; "{} is {}", door.number, door.colour)?;
    push_part(list, ", ", told.as_str())
}

// The doors in their order, each with its colour.
fn told_doors(alloc: Global, doors: &Vec<Door>) -> Result<String, NoMemory> {
    let mut list = String::new(alloc);
    for door in doors {
        push_door(alloc, &mut list, door)?;
    }
    Ok(list)
}

fn named(number: u8) -> Word {
    Word::new([number; 32])
}

// `put row|NUMBER|COLOUR`: the doors, after this one was put.
fn put(
    alloc: Global,
    doors: &mut Vec<Door>,
    number: &str,
    colour: &str,
) -> Result<String, NoMemory> {
    let (Ok(number), Ok(colour)) = (number.parse::<u8>(), colour.parse::<u8>()) else {
        return told(alloc, "no door");
    };
    doors.reserve(1)?;
    let name = named(number);
    put_row(
        doors,
        Door {
            name,
            number,
            colour,
        },
    );
    told_doors(alloc, doors)
}

// `find row|NUMBER`: the colour of the door.
fn find(alloc: Global, doors: &Vec<Door>, number: &str) -> Result<String, NoMemory> {
    let Ok(number) = number.parse::<u8>() else {
        return told(alloc, "no door");
    };
    match find_row(doors.as_slice(), named(number)) {
        Some(door) => Ok(format!(in alloc; "{}", door.colour)?),
        None => told(alloc, "none"),
    }
}

// `remove row|NUMBER`: the doors, after this one was removed.
fn remove(alloc: Global, doors: &mut Vec<Door>, number: &str) -> Result<String, NoMemory> {
    let Ok(number) = number.parse::<u8>() else {
        return told(alloc, "no door");
    };
    remove_row(doors, named(number));
    told_doors(alloc, doors)
}
