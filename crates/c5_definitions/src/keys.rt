//! Keys of rows, held in the value itself.

ghost use Rattle.std.specs.Prelude.{◌≡◌, ◌≤◌, ◌<◌, [], ◌∷◌, ◌++◌, length};
ghost use Rattle.c5_rows.specs.Sizes.{max_sum_keys};

use c5_rows::{Key, MAX_SUM_KEYS, Padded};
use std::marker::Model;

/// 1 to 16 keys, held in the value itself.
#[derive(Clone, Copy)]
pub struct Keys {
    keys: Padded<Key, MAX_SUM_KEYS>,
}

impl Model for Keys {
    ghost use Rattle.std.specs.Prelude.{◌≤◌, ℕ, List, length};

    ghost Value = { List (List ℕ) };

    ghost view = { λ k. k.keys };

    ghost invariant = { λ k. 1 ≤ length k.keys };

    ghost inverse = { λ keys. record { keys = keys } };
}

impl Keys {
    /// One key.
    pub fn one(key: Key) -> Self
        ensures { result ≡ key ∷ [] }
    {
        let mut keys = Padded::new();
        keys.push(key);
        Keys { keys }
    }

    /// Adds a key at the end.
    pub fn push(&mut self, key: Key)
        requires room { length self.old < max_sum_keys }
        ensures { self.new ≡ self.old ++ key ∷ [] }
    {
        self.keys.push(key);
    }

    /// The keys, in order.
    pub fn as_slice(&self) -> &[Key]
        ensures value { result.now ≡ self.now }
        ensures some { 1 ≤ length self.now }
        ensures few { length self.now ≤ max_sum_keys }
    {
        self.keys.as_slice()
    }
}
