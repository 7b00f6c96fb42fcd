// What is said of a typed pattern that is refused: where, why, what could have stood there, the line, and a mark under the byte.
ghost use Rattle.std.specs.Prelude.{◌≡◌, ◌<◌, ◌≤◌, ◌++◌, map, length, IfOk, string_bytes, OnOk};
ghost use Rattle.files.specs.Complaints.{expected_text, shown_byte, under_byte, mark_of, digit_more, cause_of, headline as headline_of, marked, complaint as complaint_of};

use crate::expecting::Wanted;
use crate::lines::{Line, line_rest, without_white};
use std::alloc::{AllocError, Global};
use syntax::{Expected, is_digit};

const TAB: u8 = b'\t';

const SPACE: u8 = b' ';

// A byte as it is shown: control characters but for tabs as spaces.
fn shown_byte(byte: u8) -> u8
    ensures { result ≡ shown_byte byte }
{
    if byte != TAB && byte.is_ascii_control() {
        SPACE
    } else {
        byte
    }
}

// What stands under a byte, left of the mark.
fn under_byte(byte: u8) -> u8
    ensures { result ≡ under_byte byte }
{
    if byte == TAB { TAB } else { SPACE }
}

// Where the mark stands.
fn mark(text: &[u8], at: usize) -> usize
    ensures value { result ≡ mark_of text.now at }
    ensures bound { result ≤ length text.now }
{
    if at < text.len() {
        at
    } else {
        without_white(text)
    }
}

// Whether a digit stands behind a digit.
fn is_digit_more(text: &[u8], at: usize) -> bool
    requires { at < length text.now }
    ensures { result ≡ digit_more text.now at }
{
    at > 0 && is_digit(text[at - 1]) && is_digit(text[at])
}

// Why a text is refused at a byte, where more can be said than what is expected.
fn cause(text: &[u8], at: usize) -> &'static str
    ensures { result.now ≡ cause_of text.now at }
{
    if at >= text.len() {
        "the text breaks off; "
    } else if is_digit_more(text, at) {
        "the number is too large with this digit; "
    } else {
        ""
    }
}

fn headline(
    heap: Global,
    line: u128,
    byte: u128,
    cause: &str,
    expected: Expected,
) -> Result<String, AllocError>
    ensures { IfOk result (λ s. string_bytes s ≡ headline_of line byte cause.now (expected_text expected)) }
{
    let wanted = Wanted(expected);
    format!(in heap; "line {line}, byte {byte}: {cause}expected {wanted}\n")
}

// The line in which the mark stands, in front of it and behind it, and the mark under it.
fn put_marked(said: &mut Vec<u8>, front: &[u8], back: &[u8]) -> Result<(), AllocError>
    ensures { OnOk result (said.new.items ≡ said.old.items ++ marked front.now back.now) }
{
    said.extend(front.iter().copied().map(shown_byte))?;
    said.extend(back.iter().copied().map(shown_byte))?;
    said.extend_from_slice(b"\n")?;
    said.extend(front.iter().copied().map(under_byte))?;
    said.extend_from_slice(b"^\n")?;
    Ok(())
}

// What is said of a text that is refused at a byte (or at its end), where this could have stood: bytes, since the text need not be UTF-8.
pub fn complaint(
    heap: Global,
    text: &[u8],
    at: usize,
    expected: Expected,
) -> Result<Vec<u8>, AllocError>
    ensures { IfOk result (λ v. v.items ≡ complaint_of text.now at expected) }
{
    let (front, back) = text.split_at(mark(text, at));
    let Line { number, start } = Line::last_of(front);
    let begun = &front[start..];
    let rest = &back[..line_rest(back)];
    let byte = begun.len() as u128 + 1;
    let head = headline(heap, number, byte, cause(text, at), expected)?;
    let mut said = Vec::from_slice(heap, head.as_bytes())?;
    put_marked(&mut said, begun, rest)?;
    Ok(said)
}
