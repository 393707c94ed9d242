// Removing families, with all their tokens.

ghost use Rattle.std.specs.Prelude.{◌≡◌, ◌≤◌, ◌==◌, true, not, filter, length};
ghost use Rattle.std.specs.List.{list_all};
ghost use Rattle.sso_base.specs.Rows.{without, live_rows};
ghost use Rattle.oidc_words.specs.Lives.{access_life, family_life};
ghost use Rattle.refresh_answer.specs.Places.{place_bytes};
ghost use Rattle.refresh_answer.specs.Rows.{family_name, family_begun, access_begun};
ghost use Rattle.refresh_rows.specs.TokenRows as spec;

use crate::matching::OfFamily;
use crate::token_row::TokenRow;
use held_rows::{Held, Test};
use refresh_answer::{AccessRow, FamilyRow, Place};
use sso_base::Moment;

// Removes the family of a place, with its tokens.
fn drop_family(
    families: &mut Held<FamilyRow>,
    tokens: &mut Held<TokenRow>,
    accesses: &mut Held<AccessRow>,
    place: u64,
)
    ensures families { families.new.rows ≡ without family_name (place_bytes place) families.old.rows }
    ensures tokens { tokens.new.rows ≡ filter (λ t. not (t.family == place)) tokens.old.rows }
    ensures accesses { accesses.new.rows ≡ filter (λ x. not (x.family == place)) accesses.old.rows }
    ensures family_room { families.new.capacity ≡ families.old.capacity }
    ensures token_room { tokens.new.capacity ≡ tokens.old.capacity }
    ensures access_room { accesses.new.capacity ≡ accesses.old.capacity }
{
    let family = OfFamily {
        family: Place::new(place),
    };
    families.remove(family.family.as_bytes());
    tokens.take_out(&family);
    accesses.take_out(&family);
}

/// Removes the families that pass the test, with their tokens.
pub(crate) fn drop_passing<T: Test<FamilyRow>>(
    families: &mut Held<FamilyRow>,
    tokens: &mut Held<TokenRow>,
    accesses: &mut Held<AccessRow>,
    test: &T,
)
    requires tokens_here { list_all (λ t. spec.is_of families.old.rows t.family) tokens.old.rows ≡ true }
    requires accesses_here { list_all (λ x. spec.is_of families.old.rows x.family) accesses.old.rows ≡ true }
    ensures families { families.new.rows ≡ filter (λ f. not (T.passes test.now f)) families.old.rows }
    ensures tokens { tokens.new.rows ≡ spec.tokens_of families.new.rows tokens.old.rows }
    ensures accesses { accesses.new.rows ≡ spec.accesses_of families.new.rows accesses.old.rows }
    ensures family_room { families.new.capacity ≡ families.old.capacity }
    ensures token_room { tokens.new.capacity ≡ tokens.old.capacity }
    ensures access_room { accesses.new.capacity ≡ accesses.old.capacity }
{
    while let Some(family) = families.passing(test) {
        let place = family.by.number();
        drop_family(families, tokens, accesses, place);
    }
}

/// Removes the families that do not live at the moment, with their tokens.
pub(crate) fn drop_over(
    families: &mut Held<FamilyRow>,
    tokens: &mut Held<TokenRow>,
    accesses: &mut Held<AccessRow>,
    at: Moment,
)
    requires tokens_here { list_all (λ t. spec.is_of families.old.rows t.family) tokens.old.rows ≡ true }
    requires accesses_here { list_all (λ x. spec.is_of families.old.rows x.family) accesses.old.rows ≡ true }
    ensures families { families.new.rows ≡ live_rows family_life family_begun at families.old.rows }
    ensures tokens { tokens.new.rows ≡ spec.tokens_of families.new.rows tokens.old.rows }
    ensures accesses { accesses.new.rows ≡ spec.accesses_of families.new.rows accesses.old.rows }
    ensures family_room { families.new.capacity ≡ families.old.capacity }
    ensures token_room { tokens.new.capacity ≡ tokens.old.capacity }
    ensures access_room { accesses.new.capacity ≡ accesses.old.capacity }
{
    while let Some(family) = families.ended(at) {
        let place = family.by.number();
        drop_family(families, tokens, accesses, place);
    }
}

/// Removes the access tokens whose life is over.
pub(crate) fn drop_expired(accesses: &mut Held<AccessRow>, at: Moment)
    ensures rows { accesses.new.rows ≡ live_rows access_life access_begun at accesses.old.rows }
    ensures room { accesses.new.capacity ≡ accesses.old.capacity }
    ensures bound { length accesses.new.rows ≤ length accesses.old.rows }
{
    accesses.purge(at);
}
