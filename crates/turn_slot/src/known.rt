//! What a pass knows.

use std::collections::LinkedList;

/// What a slot was made with. No value of it is made.
pub struct Origin<B> {
    pub base: B,
    pub passes: u64,
}

/// How far a pass has come with the turn.
pub enum TurnStage {
    /// It hasn't the turn.
    Without,
    /// It has the turn, and the value lies in the slot still.
    Won,
    /// It has the turn and the slot, and the value is with it.
    Out,
    /// It has the turn, and the value lies in the slot again.
    Back,
}

/// What a pass had seen when it was joined to another, or took one in. No value of it is made.
pub struct Part<E> {
    pub numbers: LinkedList<u64>,
    pub seen: LinkedList<E>,
}

/// What a pass knows. No value of it is made.
pub struct Known<B, E> {
    /// `None` if the pass was joined to another.
    pub origin: Option<Origin<B>>,
    /// The numbers that it unites.
    pub numbers: LinkedList<u64>,
    /// The history that it has seen.
    pub seen: LinkedList<E>,
    /// The holder words that its exchanges found.
    pub looks: LinkedList<u64>,
    pub stage: TurnStage,
    /// The passes that were just joined into it. Its next step drops them.
    pub parts: LinkedList<Part<E>>,
}
