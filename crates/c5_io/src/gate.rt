/// Who takes a turn. The number is the worker's or the session's own.
#[derive(Clone, Copy)]
pub enum Role {
    Primary(u32),
    Scheduler,
    Worker(u32),
    Snapshot,
    Session(u32),
}

/// Holds threads up before their turns, so that a test can fix their order. Each call returns.
pub trait Gate: Sync {
    /// Returns once this role may take this turn.
    fn pass(&self, role: Role, turn: u64);
}

/// A gate that holds nobody up.
#[derive(Clone, Copy)]
pub struct OpenGate;

impl Gate for OpenGate {
    fn pass(&self, _role: Role, _turn: u64) {}
}
