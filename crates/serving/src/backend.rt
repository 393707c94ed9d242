// What the workers of a server share.

use sso_base::Core;
use std::alloc::Global;
use turn_store::Turn;
use work_permits::Gate;

/// What the workers of a server share: its role, the store with the role's core, and the gate before proofs of passwords.
#[derive(Drop)]
pub struct Backend<'a, R, X, O: Core + Send> {
    /// The runtime. A worker waits by it for the store and at the gate.
    pub rt: &'a R,
    /// The allocator.
    pub alloc: Global,
    /// The role.
    pub role: &'a X,
    /// The core of the role. The workers step it in turns.
    pub store: &'a Turn<O>,
    /// The gate before proofs of passwords. A worker proves one only behind it.
    pub gate: &'a Gate,
}
