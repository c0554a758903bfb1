//! The words of a line.

ghost use Rattle.std.specs.Prelude.{◌≡◌, ◌≢◌, ◌<◌, ◌≤◌, ◌==◌, ◌||◌, [], ◌∷◌, length, take, drop};
ghost use Rattle.std.specs.Prelude.{position, slice_index, IfOk};
ghost use Rattle.std.specs.List.{list_all};
ghost use Rattle.c5_definitions.specs.Words.{bare, quoted};
ghost use Rattle.c5_definitions.specs.Lines.{between, in_bare, in_quoted, words_at, words_of};
ghost use Rattle.c5_definitions.specs.Lines.{is_line_byte, is_word_end};
ghost use Rattle.c5_script.specs.Words.{held_word, held_words};
ghost use Rattle.c5_script.specs.Reading.{FindsWord};
ghost use Rattle.c5_script.specs.Taking.{StepsTo};

use crate::fault::LineError;
use crate::word::Word;
use c5_definitions::ScriptKind;

fn is_line_byte(byte: u8) -> bool
    ensures { result ≡ is_line_byte byte }
{
    byte >= b' ' && byte <= b'~'
}

// Each byte of the line is a blank or a printable byte. Each is tested, also after one that is not
// allowed: so there is no branch in the loop.
fn has_line_bytes(line: &[u8]) -> bool
    ensures { result ≡ list_all is_line_byte line.now }
{
    let mut all = true;
    for byte in line {
        all = all & is_line_byte(*byte);
    }
    all
}

fn bare_end(bytes: &[u8]) -> Option<usize>
    ensures { result ≡ position (λ byte. byte == 32 || byte == 34) bytes.now }
{
    bytes.iter().position(|byte| *byte == b' ' || *byte == b'"')
}

fn quote(bytes: &[u8]) -> Option<usize>
    ensures { result ≡ position (λ byte. byte == 34) bytes.now }
{
    bytes.iter().position(|byte| *byte == b'"')
}

// The bare word that begins with the first byte, and the bytes after it.
fn bare_in(bytes: &[u8]) -> Result<(&[u8], &[u8]), ScriptKind>
    requires { 1 ≤ length bytes.now }
    ensures words { FindsWord (λ x. bare x.0.now) (λ x. x.1.now)
        (words_at (in_bare (take 1 bytes.now)) (drop 1 bytes.now)) result }
    ensures shorter { IfOk result (λ x. length x.1.now < length bytes.now) }
{
    match bare_end(&bytes[1..]) {
        None => Ok((bytes, &[])),
        Some(end) => {
            let (word, behind) = bytes.split_at(end + 1);
            if behind[0] == b'"' {
                return Err(ScriptKind::Quote);
            }
            Ok((word, behind))
        }
    }
}

// Nothing or a blank comes.
fn is_word_end(bytes: &[u8]) -> bool
    ensures { result ≡ is_word_end bytes.now }
{
    match bytes {
        [] => true,
        [byte, ..] => *byte == b' ',
    }
}

// The text up to the closing quote, and the bytes after that.
fn text_in(bytes: &[u8]) -> Result<(&[u8], &[u8]), ScriptKind>
    ensures words { FindsWord (λ x. quoted x.0.now) (λ x. x.1.now)
        (words_at (in_quoted []) bytes.now) result }
    ensures shorter { IfOk result (λ x. length x.1.now < length bytes.now) }
{
    match quote(bytes) {
        None => Err(ScriptKind::Quote),
        Some(end) => {
            let behind = &bytes[end + 1..];
            if !is_word_end(behind) {
                return Err(ScriptKind::Quote);
            }
            Ok((&bytes[..end], behind))
        }
    }
}

// The word that begins with the first byte, and the bytes after it.
fn word_in(bytes: &[u8]) -> Result<(Word<'_>, &[u8]), ScriptKind>
    requires some { 1 ≤ length bytes.now }
    requires no_blank { slice_index bytes.now 0 ≢ 32 }
    ensures words { FindsWord (λ x. held_word x.0) (λ x. x.1.now)
        (words_at between bytes.now) result }
    ensures shorter { IfOk result (λ x. length x.1.now < length bytes.now) }
{
    if bytes[0] == b'"' {
        match text_in(&bytes[1..]) {
            Ok((text, behind)) => Ok((Word::Quoted(text), behind)),
            Err(kind) => Err(kind),
        }
    } else {
        match bare_in(bytes) {
            Ok((word, behind)) => Ok((Word::Bare(word), behind)),
            Err(kind) => Err(kind),
        }
    }
}

/// The words of a line, in place of those that were held. After an `Err` any words are held.
pub(crate) fn words_in<'a>(line: &'a [u8], words: &mut Vec<Word<'a>>) -> Result<(), LineError>
    ensures { StepsTo (λ _. held_words words.new.items) result (words_of line.now) }
{
    if !has_line_bytes(line) {
        return Err(LineError::Fault(ScriptKind::Byte));
    }
    words.clear();
    let mut rest = line;
    while !rest.is_empty() {
        if rest[0] == b' ' {
            rest = &rest[1..];
        } else {
            let (word, behind) = match word_in(rest) {
                Ok(found) => found,
                Err(kind) => return Err(LineError::Fault(kind)),
            };
            words.push(word).map_err(|_| LineError::NoMemory)?;
            rest = behind;
        }
    }
    Ok(())
}
