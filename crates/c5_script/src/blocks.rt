//! Read blocks.

ghost use Rattle.std.specs.List.{AllByRecursion};
ghost use Rattle.c5_rows.specs.Sizes.{max_sessions, max_read_lines};
ghost use Rattle.c5_rows.specs.Bytes.{IsKey};
ghost use Rattle.std.specs.Prelude.{◌≡◌, ◌≤◌, ◌<◌, ◌++◌, ◌∷◌, [], length, IfOk, OnOk, OnErr};
ghost use Rattle.c5_definitions.specs.FitsScript.{IsRead, IsReadLine};

use crate::bodies::know_key;
use c5_definitions::ReadLine;
use c5_rows::{Key, NoMemory};
use std::alloc::Global;
use std::marker::Model;

/// What a session asks for at once: 1 to 16 lines. Sessions count from 1, to 16.
#[derive(Drop)]
pub struct ReadBlock {
    session: u32,
    lines: Vec<ReadLine>,
}

impl Model for ReadBlock {
    ghost use Rattle.c5_definitions.specs.ScriptParts.{ReadParts};
    ghost use Rattle.c5_definitions.specs.FitsScript.{IsRead};

    ghost Value = { ReadParts };

    ghost view = { λ b. record { session = b.session; lines = b.lines.items } };

    ghost invariant = { λ b. IsRead (record { session = b.session; lines = b.lines.items }) };
}

fn know_keys(keys: &[Key])
    ensures { AllByRecursion IsKey keys.now }
{
    for key in keys {
        know_key(key);
    }
}

// What the types of its parts say of a line.
fn know_line(line: &ReadLine)
    ensures { IsReadLine line.now }
{
    match line {
        ReadLine::OneRow { name } => know_key(&name.key),
        ReadLine::SumOf { keys, .. } => know_keys(keys.as_slice()),
    }
}

impl ReadBlock {
    /// The block of one line.
    pub fn new(alloc: Global, session: u32, first: ReadLine) -> Result<Self, NoMemory>
        requires least { 1 ≤ session }
        requires most { session ≤ max_sessions }
        ensures { IfOk result (λ block. block ≡ record { session = session; lines = first ∷ [] }) }
    {
        know_line(&first);
        let mut lines = Vec::with_capacity(alloc, 1)?;
        lines.push(first)?;
        Ok(ReadBlock { session, lines })
    }

    /// Adds a line at the end. After `NoMemory` nothing has changed.
    pub fn push(&mut self, line: ReadLine) -> Result<(), NoMemory>
        requires room { length self.old.lines < max_read_lines }
        ensures ok { OnOk result
            (self.new
            ≡ record { session = self.old.session; lines = self.old.lines ++ line ∷ [] }) }
        ensures err { OnErr result (self.new ≡ self.old) }
    {
        know_line(&line);
        self.lines.push(line)?;
        Ok(())
    }

    /// Who asks.
    pub fn session(&self) -> u32
        ensures value { result ≡ self.now.session }
        ensures read { IsRead self.now }
    {
        self.session
    }

    /// What it asks for, in order.
    pub fn lines(&self) -> &[ReadLine]
        ensures value { result.now ≡ self.now.lines }
        ensures read { IsRead self.now }
    {
        &self.lines
    }
}
