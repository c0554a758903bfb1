//! Keys of rows, texts of cells and names of tables.

ghost use Rattle.std.specs.Prelude.{◌≡◌, length};
ghost use Rattle.std.specs.List.{list_all};
ghost use Rattle.c5_rows.specs.Bytes.{is_key_byte, is_text_byte, is_name_byte, IsKey, IsText};
ghost use Rattle.c5_rows.specs.Bytes.{IsTableName, checked_bytes};
ghost use Rattle.c5_rows.specs.Sizes.{max_key_bytes, max_text_bytes, max_name_bytes};

use crate::padded::{Blank, Padded};
use crate::sizes::{MAX_KEY_BYTES, MAX_NAME_BYTES, MAX_TEXT_BYTES};
use std::marker::Model;

/// Why bytes aren't a key, a text or the name of a table.
#[derive(Clone, Copy, Debug, PartialEq, Eq)]
pub enum Bad {
    /// There are too few or too many bytes.
    Length,
    /// A byte isn't allowed.
    Byte,
}

fn is_key_byte(byte: u8) -> bool
    ensures { result ≡ is_key_byte byte }
{
    byte >= 0x21 && byte <= 0x7e && byte != b'"'
}

fn is_text_byte(byte: u8) -> bool
    ensures { result ≡ is_text_byte byte }
{
    byte >= 0x20 && byte <= 0x7e && byte != b'"'
}

fn is_name_byte(byte: u8) -> bool
    ensures { result ≡ is_name_byte byte }
{
    byte.is_ascii_lowercase() || byte.is_ascii_digit() || byte == b'_'
}

/// Whether each of these bytes is allowed in a key.
// Every byte is tested, even after one that isn't allowed, so that the loop has no branch.
pub fn are_key_bytes(bytes: &[u8]) -> bool
    ensures { result ≡ list_all is_key_byte bytes.now }
{
    let mut all = true;
    for byte in bytes {
        all = all & is_key_byte(*byte);
    }
    all
}

/// Whether each of these bytes is allowed in a text.
pub fn are_text_bytes(bytes: &[u8]) -> bool
    ensures { result ≡ list_all is_text_byte bytes.now }
{
    let mut all = true;
    for byte in bytes {
        all = all & is_text_byte(*byte);
    }
    all
}

fn are_name_bytes(bytes: &[u8]) -> bool
    ensures { result ≡ list_all is_name_byte bytes.now }
{
    bytes.iter().all(|byte| is_name_byte(*byte))
}

/// The key of a row: 1 to 32 bytes, each from `21` to `7E` (hexadecimal) and not `22`.
/// Keys are ordered by their bytes; a proper prefix comes first.
#[derive(Clone, Copy, Debug, PartialEq, Eq, PartialOrd, Ord)]
pub struct Key {
    bytes: Padded<u8, MAX_KEY_BYTES>,
}

impl Model for Key {
    ghost use Rattle.std.specs.Prelude.{ℕ, List};
    ghost use Rattle.c5_rows.specs.Bytes.{IsKey};

    ghost Value = { List ℕ };

    ghost view = { λ k. k.bytes };

    ghost invariant = { λ k. IsKey k.bytes };

    ghost inverse = { λ items. record { bytes = items } };
}

impl Blank for Key {
    ghost use Rattle.std.specs.Prelude.{[], ◌∷◌};

    ghost blank_value = { 48 ∷ [] };

    fn blank() -> Self {
        Key {
            bytes: Padded::copied(b"0"),
        }
    }
}

impl Key {
    /// The key of these bytes. `Length` if there are fewer than 1 or more than 32;
    /// otherwise `Byte` if one of them isn't allowed.
    pub fn new(bytes: &[u8]) -> Result<Self, Bad>
        ensures { result ≡ checked_bytes 1 max_key_bytes is_key_byte bytes.now }
    {
        if bytes.is_empty() || bytes.len() > MAX_KEY_BYTES {
            return Err(Bad::Length);
        }
        if !are_key_bytes(bytes) {
            return Err(Bad::Byte);
        }
        Ok(Key {
            bytes: Padded::copied(bytes),
        })
    }

    /// The bytes of the key.
    pub fn bytes(&self) -> &[u8]
        ensures value { result.now ≡ self.now }
        ensures is_key { IsKey self.now }
    {
        self.bytes.as_slice()
    }
}

/// The text of a cell: 0 to 32 bytes, each from `20` to `7E` (hexadecimal) and not `22`.
#[derive(Clone, Copy, Debug, PartialEq, Eq)]
pub struct TextCell {
    bytes: Padded<u8, MAX_TEXT_BYTES>,
}

impl Model for TextCell {
    ghost use Rattle.std.specs.Prelude.{ℕ, List};
    ghost use Rattle.c5_rows.specs.Bytes.{IsText};

    ghost Value = { List ℕ };

    ghost view = { λ t. t.bytes };

    ghost invariant = { λ t. IsText t.bytes };

    ghost inverse = { λ items. record { bytes = items } };
}

impl TextCell {
    /// The text of these bytes. `Length` if there are more than 32;
    /// otherwise `Byte` if one of them isn't allowed.
    pub fn new(bytes: &[u8]) -> Result<Self, Bad>
        ensures { result ≡ checked_bytes 0 max_text_bytes is_text_byte bytes.now }
    {
        if bytes.len() > MAX_TEXT_BYTES {
            return Err(Bad::Length);
        }
        if !are_text_bytes(bytes) {
            return Err(Bad::Byte);
        }
        Ok(TextCell {
            bytes: Padded::copied(bytes),
        })
    }

    /// The bytes of the text.
    pub fn bytes(&self) -> &[u8]
        ensures value { result.now ≡ self.now }
        ensures is_text { IsText self.now }
    {
        self.bytes.as_slice()
    }
}

/// The name of a table: 1 to 16 bytes of `a-z`, `0-9` and `_`.
#[derive(Clone, Copy, PartialEq, Eq)]
pub struct TableName {
    bytes: Padded<u8, MAX_NAME_BYTES>,
}

impl Model for TableName {
    ghost use Rattle.std.specs.Prelude.{ℕ, List};
    ghost use Rattle.c5_rows.specs.Bytes.{IsTableName};

    ghost Value = { List ℕ };

    ghost view = { λ n. n.bytes };

    ghost invariant = { λ n. IsTableName n.bytes };

    ghost inverse = { λ items. record { bytes = items } };
}

impl Blank for TableName {
    ghost use Rattle.std.specs.Prelude.{[], ◌∷◌};

    ghost blank_value = { 48 ∷ [] };

    fn blank() -> Self {
        TableName {
            bytes: Padded::copied(b"0"),
        }
    }
}

impl TableName {
    /// The name of these bytes. `Length` if there are fewer than 1 or more than 16;
    /// otherwise `Byte` if one of them isn't allowed.
    pub fn new(bytes: &[u8]) -> Result<Self, Bad>
        ensures { result ≡ checked_bytes 1 max_name_bytes is_name_byte bytes.now }
    {
        if bytes.is_empty() || bytes.len() > MAX_NAME_BYTES {
            return Err(Bad::Length);
        }
        if !are_name_bytes(bytes) {
            return Err(Bad::Byte);
        }
        Ok(TableName {
            bytes: Padded::copied(bytes),
        })
    }

    /// The bytes of the name.
    pub fn bytes(&self) -> &[u8]
        ensures value { result.now ≡ self.now }
        ensures is_name { IsTableName self.now }
    {
        self.bytes.as_slice()
    }
}
