// A change of the browsers' jars.

use sso_places::{Jar, To};

/// A change of the browsers' jars.
#[derive(Drop)]
pub enum JarNote {
    /// A reply of this role set these cookies for the browser.
    Set { browser: u32, to: To, set: Jar },
    /// The thief's jars were replaced by copies of the owner's.
    Stolen { thief: u32, owner: u32 },
}

/// A browser and a role: the jar for whose next change there is room.
#[derive(Clone, Copy)]
pub struct Slot {
    /// The number of the browser.
    pub browser: u32,
    /// The role.
    pub to: To,
}
