// The common interface of the rows of a table.

ghost use Rattle.std.specs.Prelude.{◌≡◌, ℕ, List, Bool, Option, Some, option_map, true};
ghost use Rattle.held_rows.specs.declared.row.By.{By};
ghost use Rattle.held_rows.specs.declared.row.By.TheVariants.{Name};

use sso_base::Moment;

/// The keys by which a table finds rows.
#[derive(Clone, Copy, PartialEq, Eq)]
pub enum By {
    /// The name of a row. No other row has it.
    Name,
    /// The key of a group of rows. Several rows may share it, and a row may lack it.
    Group,
    /// The key of another group.
    OtherGroup,
}

/// A row of a table: a word or a text names it, and it lives for a number of seconds from a moment on.
pub trait Row {
    /// The bytes of its name.
    ghost name: { Self → List ℕ };

    /// The bytes of this key, if the row has it.
    ghost key: { By → Self → Option (List ℕ) };

    /// The moment from which it lives.
    ghost begun: { Self → ℕ };

    /// A further invariant of each row of its table.
    ghost IsSound: { Self → Type 0 };

    /// How many seconds it lives.
    ghost LIFE: { ℕ };

    /// How many seconds it lives.
    const LIFE: u32;

    /// The bytes of this key, if the row has it.
    fn key(&self, by: By) -> Option<&[u8]>
        ensures { option_map (λ k. k.now) result ≡ key by self.now };

    /// The moment from which it lives.
    fn begun(&self) -> Moment
        ensures { result ≡ begun self.now };

    /// The name is one of the keys.
    ghost named: { (row : Self) → key Name row ≡ Some (name row) };
}

/// A change of a row that preserves its keys and its moment.
pub trait Change<R: Row> {
    /// The changed row.
    ghost changed: { Self → R → R };

    /// Changes the row.
    fn change(&self, row: &mut R)
        ensures { row.new ≡ changed self.now row.old };

    /// The keys, the moment and the invariant of the row are preserved.
    ghost keys_stay: { (c : Self) (row : R) (by : By) → R.key by (changed c row) ≡ R.key by row };

    ghost moments_stay: { (c : Self) (row : R) → R.begun (changed c row) ≡ R.begun row };

    ghost rows_stay_sound: { (c : Self) (row : R) → R.IsSound row → R.IsSound (changed c row) };
}

/// A test that only rows with a certain key pass.
pub trait Test<R: Row> {
    /// The rows that pass.
    ghost passes: { Self → R → Bool };

    /// The kind of this key, and its bytes.
    ghost by: { Self → By };

    ghost key: { Self → List ℕ };

    /// Whether the row passes.
    fn passes(&self, row: &R) -> bool
        ensures { result ≡ passes self.now row.now };

    /// The kind of the key that passing rows have.
    fn by(&self) -> By
        ensures { result ≡ by self.now };

    /// The bytes of that key.
    fn key(&self) -> &[u8]
        ensures { result.now ≡ key self.now };

    /// No other row passes.
    ghost are_found: { (t : Self) (row : R) → passes t row ≡ true → R.key (by t) row ≡ Some (key t) };
}
