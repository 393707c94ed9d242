// The families of a place or a code, and the tokens of a family.

ghost use Rattle.std.specs.Prelude.{◌==◌, ◌&&◌, Some};
ghost use Rattle.std.specs.Str.{bytes_eq};
ghost use Rattle.std.proofs.Common.{sym, ap};
ghost use Rattle.std.proofs.lemmas.Bool.{and_parts, eqb-true};
ghost use Rattle.sso_base.proofs.RowLaws.{bytes_same};
ghost use Rattle.held_rows.specs.declared.row.By.TheVariants.{Name, Group};
ghost use Rattle.refresh_answer.specs.Places.{place_bytes};

use crate::token_row::TokenRow;
use held_rows::{By, Test};
use refresh_answer::{AccessRow, FamilyRow, Place};
use sso_base::Word;

/// A test that a family passes if it is the one of this place and this client.
#[derive(Drop)]
pub(crate) struct OfPlace {
    pub(crate) place: Place,
    pub(crate) client: u32,
}

/// A test that a family passes if it began for this code of this client.
#[derive(Clone, Copy)]
pub(crate) struct OfCode {
    pub(crate) code: Word,
    pub(crate) client: u32,
}

/// A test that a token passes if it is of the family of this place.
#[derive(Drop)]
pub(crate) struct OfFamily {
    pub(crate) family: Place,
}

impl Test<FamilyRow> for OfPlace {
    ghost passes = { λ t f. (t.place == f.by) && (t.client == f.client) };

    ghost by = { λ t. Name };

    ghost key = { λ t. place_bytes t.place };

    fn passes(&self, row: &FamilyRow) -> bool {
        self.place.number() == row.by.number() && self.client == row.client
    }

    fn by(&self) -> By {
        By::Name
    }

    fn key(&self) -> &[u8] {
        self.place.as_bytes()
    }

    ghost are_found = { λ t f passes. ap (λ n. Some (place_bytes n))
        (sym (eqb-true t.place f.by (and_parts (t.place == f.by) (t.client == f.client) passes).0)) };
}

impl Test<FamilyRow> for OfCode {
    ghost passes = { λ t f. bytes_eq t.code f.code && (t.client == f.client) };

    ghost by = { λ t. Group };

    ghost key = { λ t. t.code };

    fn passes(&self, row: &FamilyRow) -> bool {
        self.code == row.code && self.client == row.client
    }

    fn by(&self) -> By {
        By::Group
    }

    fn key(&self) -> &[u8] {
        self.code.as_bytes()
    }

    ghost are_found = { λ t f passes. ap Some
        (sym (bytes_same t.code f.code (and_parts (bytes_eq t.code f.code) (t.client == f.client) passes).0)) };
}

impl Test<TokenRow> for OfFamily {
    ghost passes = { λ t row. row.family == t.family };

    ghost by = { λ t. Group };

    ghost key = { λ t. place_bytes t.family };

    fn passes(&self, row: &TokenRow) -> bool {
        row.family.number() == self.family.number()
    }

    fn by(&self) -> By {
        By::Group
    }

    fn key(&self) -> &[u8] {
        self.family.as_bytes()
    }

    ghost are_found = { λ t row passes. ap (λ n. Some (place_bytes n)) (eqb-true row.family t.family passes) };
}

impl Test<AccessRow> for OfFamily {
    ghost passes = { λ t row. row.family == t.family };

    ghost by = { λ t. Group };

    ghost key = { λ t. place_bytes t.family };

    fn passes(&self, row: &AccessRow) -> bool {
        row.family.number() == self.family.number()
    }

    fn by(&self) -> By {
        By::Group
    }

    fn key(&self) -> &[u8] {
        self.family.as_bytes()
    }

    ghost are_found = { λ t row passes. ap (λ n. Some (place_bytes n)) (eqb-true row.family t.family passes) };
}
