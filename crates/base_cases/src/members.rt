// A small kind of row: members, which have names, and may be in a group and in another one.

ghost use Rattle.std.specs.Prelude.{◌≡◌, ◌&&◌, Some, option_map, refl};
ghost use Rattle.std.proofs.lemmas.Bool.{and_parts};
ghost use Rattle.sso_base.specs.Texts.{is_given};
ghost use Rattle.sso_base.proofs.RowLaws.{bytes_same};
ghost use Rattle.held_rows.specs.FoundBy.{found_by};
ghost use Rattle.held_rows.specs.Held.{AnyRow, one_of};
ghost use Rattle.held_rows.specs.declared.row.By.TheVariants.{Group, OtherGroup};
ghost use Rattle.base_cases.specs.Groups.{fits_text};

use held_rows::{By, Change, Row, Test};
use sso_base::{Moment, Text, bytes_if};

/// A member, which is live for 600 seconds from the moment at which it begins.
#[derive(Drop)]
pub struct Member {
    pub name: Text,
    pub group: Option<Text>,
    pub other: Option<Text>,
    pub begun: Moment,
    pub number: u32,
}

impl Row for Member {
    ghost name = { λ row. row.name };

    ghost key = { λ by row. one_of (Some row.name) row.group row.other by };

    ghost begun = { λ row. row.begun };

    ghost IsSound = { AnyRow };

    ghost LIFE = { 600 };

    const LIFE: u32 = 600;

    fn key(&self, by: By) -> Option<&[u8]> {
        match by {
            By::Name => Some(self.name.as_str().as_bytes()),
            By::Group => bytes_if(&self.group),
            By::OtherGroup => bytes_if(&self.other),
        }
    }

    fn begun(&self) -> Moment {
        self.begun
    }

    ghost named = { λ row. refl };
}

/// Gives a member another number.
#[derive(Clone, Copy)]
pub struct Numbered {
    pub number: u32,
}

impl Change<Member> for Numbered {
    ghost changed = { λ c row. record row { number = c.number } };

    fn change(&self, row: &mut Member) {
        row.number = self.number;
    }

    ghost keys_stay = { λ c row by. refl };

    ghost moments_stay = { λ c row. refl };

    ghost rows_stay_sound = { λ c row sound. sound };
}

// Whether there is a text, and it is this one.
fn is(held: &Option<Text>, text: &str) -> bool
    ensures { result ≡ is_given text.now held.now }
{
    match held {
        Some(held) => held.equals(text),
        None => false,
    }
}

// Whether no text is given, or it is this one.
fn fits(held: &Option<Text>, text: Option<&str>) -> bool
    ensures { result ≡ fits_text (option_map (λ t. t.now) text.entry) held.now }
{
    match text {
        Some(text) => is(held, text),
        None => true,
    }
}

/// The members of a group.
#[derive(Clone, Copy)]
pub struct InGroup<'a> {
    pub group: &'a str,
}

impl Test<Member> for InGroup<'_> {
    ghost passes = { λ t row. is_given t.group.now row.group };

    ghost by = { λ t. Group };

    ghost key = { λ t. t.group.now };

    fn passes(&self, row: &Member) -> bool {
        is(&row.group, self.group)
    }

    fn by(&self) -> By {
        By::Group
    }

    fn key(&self) -> &[u8] {
        self.group.as_bytes()
    }

    ghost are_found = { λ t row passes. found_by t.group.now (is_given t.group.now) refl (λ held same. bytes_same held t.group.now same) row.group passes };
}

/// The members of another group. If a group is given, they must also be in that.
#[derive(Clone, Copy)]
pub struct InOther<'a> {
    pub group: Option<&'a str>,
    pub other: &'a str,
}

impl Test<Member> for InOther<'_> {
    ghost passes = { λ t row. fits_text (option_map (λ g. g.now) t.group) row.group && is_given t.other.now row.other };

    ghost by = { λ t. OtherGroup };

    ghost key = { λ t. t.other.now };

    fn passes(&self, row: &Member) -> bool {
        fits(&row.group, self.group) && is(&row.other, self.other)
    }

    fn by(&self) -> By {
        By::OtherGroup
    }

    fn key(&self) -> &[u8] {
        self.other.as_bytes()
    }

    ghost are_found = { λ t row passes. found_by t.other.now (is_given t.other.now) refl
        (λ held same. bytes_same held t.other.now same) row.other
        (and_parts (fits_text (option_map (λ g. g.now) t.group) row.group) (is_given t.other.now row.other) passes).1 };
}
