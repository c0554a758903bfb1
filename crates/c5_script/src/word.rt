//! The words of a line.

/// A word: bytes without spaces, or the bytes between two quotes.
#[derive(Clone, Copy)]
pub(crate) enum Word<'a> {
    Bare(&'a [u8]),
    Quoted(&'a [u8]),
}
