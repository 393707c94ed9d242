// A number of permits that threads share.

ghost use Rattle.std.specs.Prelude.{◌≡◌, ◌<◌, ◌^◌};

use crate::rule::{PermitSeat, PermitTable};

/// A number of permits. Threads share them by reference.
#[derive(Drop)]
pub struct Permits {
    pub(crate) table: PermitTable,
    // How many there are.
    pub(crate) most: u64,
    ghost one: { table.shared.table_id.words ≡ 1 },
    ghost same: { most ≡ table.shared.key },
    ghost short: { most < 2 ^ 32 },
}

/// A permit that is out.
#[derive(Drop)]
pub struct Permit {
    pub(crate) seat: PermitSeat,
}

/// All permits were out. Only the look that found this makes it.
#[derive(Drop)]
pub struct AllTaken {
    pub(crate) seat: PermitSeat,
}
