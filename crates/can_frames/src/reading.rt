//! Reading of a line's frame: first where its identifier and the digits of its bytes are, and then the bytes.
ghost use Rattle.std.specs.Prelude.{◌≡◌, ℕ, [], ◌∷◌, ◌++◌, ◌+◌, ◌*◌, ◌<◌, ◌≤◌, true, Some, None, Ok, length, option_map};
ghost use Rattle.std.specs.Prelude.{option_and_then, not, IfSome, ◌==◌, if◌then◌else◌};
ghost use Rattle.std.specs.List.{prefix_len};
ghost use Rattle.std.specs.Result.{result_ok};
ghost use Rattle.hex.specs.Hex.{decode_of};
ghost use Rattle.can_frames.specs.LogLines.{body_of, first_word};
ghost use Rattle.can_frames.specs.declared.frame.Kind.TheVariants.{Classic, Error};
ghost use Rattle.can_frames.specs.Frames.{frame_of, frame_of_word, frame_of_parts, number_sign};
ghost use Rattle.can_frames.specs.inner.Seen.{identifier_view, form_view, IsIdentifier};

use crate::form::{Form, form_of};
use crate::frame::{Frame, Kind};
use crate::identifier::{Identifier, identifier_of};
use crate::line::{after_interface, body_of, first_word};
use crate::pairs::{bytes_of_pairs, bytes_of_sixteen};
use arrayvec::ArrayVec;

// How many bytes are before the first `#`.
fn identifier_len(word: &[u8]) -> usize
    ensures value { result ≡ prefix_len (λ b. not (b == number_sign)) word.now }
    ensures in_range { result ≤ length word.now }
{
    word.iter().take_while(|b| **b != b'#').count()
}

// Appends bytes, for which there is space.
#[inline(always)]
fn push_bytes<const N: usize>(bytes: &mut ArrayVec<u8, 64>, more: &[u8; N])
    requires { length bytes.old.items + N ≤ 64 }
    ensures { bytes.new.items ≡ bytes.old.items ++ more.now }
{
    let _ = bytes.try_extend_from_slice(more.as_slice());
}

// Appends the bytes that digits spell, pair by pair, and returns whether all of them are pairs of digits.
#[inline(always)]
fn push_pairs(bytes: &mut ArrayVec<u8, 64>, digits: &[u8]) -> bool
    requires { 2 * length bytes.old.items + length digits.now ≤ 128 }
    ensures { (if result then Some bytes.new.items else None)
        ≡ option_map (λ more. bytes.old.items ++ more) (result_ok (decode_of digits.now)) }
{
    let mut rest = digits;
    'pairs: while let Some((pair, after)) = rest.split_first_chunk::<2>() {
        let Some(one) = bytes_of_pairs::<2, 1>(pair) else {
            return false;
        };
        push_bytes(bytes, &one);
        rest = after;
    }
    rest.is_empty()
}

// The bytes that at most 128 digits spell.
fn bytes_of(digits: &[u8]) -> Option<ArrayVec<u8, 64>>
    requires { length digits.now ≤ 128 }
    ensures { option_map (λ bytes. bytes.items) result ≡ result_ok (decode_of digits.now) }
{
    // (before any digit is read)
    if digits.len() % 2 != 0 {
        return None;
    }
    let mut bytes = ArrayVec::new();
    let mut rest = digits;
    'sixteens: while let Some((sixteen, after)) = rest.split_first_chunk::<16>() {
        let Some(eight) = bytes_of_sixteen(sixteen) else {
            return None;
        };
        push_bytes(&mut bytes, &eight);
        rest = after;
    }
    if push_pairs(&mut bytes, rest) {
        Some(bytes)
    } else {
        None
    }
}

// The kind of a frame whose form is of this kind.
#[inline(always)]
fn kind_of(identifier: Identifier, kind: Kind) -> Kind
    ensures { result ≡ (if identifier.marks_error then Error else kind) }
{
    if identifier.marks_error {
        Kind::Error
    } else {
        kind
    }
}

// A frame of these bytes, of a form of this kind.
fn frame_with(identifier: Identifier, kind: Kind, bytes: ArrayVec<u8, 64>) -> Frame
    requires { IsIdentifier identifier }
    ensures { result ≡ record {
      kind = (if identifier.marks_error then Error else kind);
      extended = identifier.extended;
      identifier = identifier.number;
      bytes = bytes.items;
    } }
{
    Frame {
        kind: kind_of(identifier, kind),
        extended: identifier.extended,
        identifier: identifier.number,
        bytes,
    }
}

fn frame_of_parts(identifier: Identifier, form: Form<'_>) -> Option<Frame>
    requires identifier { IsIdentifier identifier }
    requires digits { length form.digits.now ≤ 128 }
    ensures { result ≡ frame_of_parts (identifier_view identifier) (form_view form.entry) }
{
    let bytes = bytes_of(form.digits)?;
    Some(frame_with(identifier, form.kind, bytes))
}

#[tactic(auto, unfolding(crate::specs::Frames::frame_of_word))]
fn frame_of_word(word: &[u8]) -> Option<Frame>
    ensures { result ≡ frame_of_word word.now }
{
    let (digits, rest) = word.split_at(identifier_len(word));
    let identifier = identifier_of(digits)?;
    match rest {
        [_, text @ ..] => {
            let form = form_of(text)?;
            frame_of_parts(identifier, form)
        }
        [] => None,
    }
}

// What is before a `#` at the end.
#[inline(always)]
fn before_mark(bytes: &[u8]) -> Option<&[u8]>
    ensures { IfSome result (λ front. bytes.now ≡ front.now ++ number_sign ∷ []) }
{
    match bytes {
        [front @ .., b'#'] => Some(front),
        _ => None,
    }
}

// Turns a frame into a classic one with these eight bytes.
#[inline(always)]
fn become_classic(frame: &mut Frame, identifier: Identifier, eight: &[u8; 8])
    requires { IsIdentifier identifier }
    ensures { frame.new ≡ record {
      kind = (if identifier.marks_error then Error else Classic);
      extended = identifier.extended;
      identifier = identifier.number;
      bytes = eight.now;
    } }
{
    frame.kind = kind_of(identifier, Kind::Classic);
    frame.extended = identifier.extended;
    frame.identifier = identifier.number;
    frame.bytes = ArrayVec::new();
    let _ = frame.bytes.try_extend_from_slice(eight.as_slice());
}

// Reads the frame of what begins with its word, if that is an identifier and eight bytes, as in most lines, and ends the line.
#[inline(always)]
fn fill_usual(frame: &mut Frame, rest: &[u8]) -> bool
    ensures { result ≡ true → frame_of_word (first_word rest.now) ≡ Some frame.new }
{
    let Some((front, data)) = rest.split_last_chunk::<16>() else {
        return false;
    };
    let Some(digits) = before_mark(front) else {
        return false;
    };
    let Some(identifier) = identifier_of(digits) else {
        return false;
    };
    let Some(eight) = bytes_of_sixteen(data) else {
        return false;
    };
    become_classic(frame, identifier, &eight);
    true
}

// Reads the frame of a word that something may follow.
#[inline(never)]
fn fill_other(frame: &mut Frame, rest: &[u8]) -> bool
    ensures { (if result then Some frame.new else None) ≡ frame_of_word (first_word rest.now) }
{
    match frame_of_word(first_word(rest)) {
        Some(found) => {
            *frame = found;
            true
        }
        None => false,
    }
}

/// Reads the frame of a log line, as [`read_frame`] does, into the place of another, and returns whether there is one. It is
/// faster, as no frame is moved. If there is none, what is there afterwards is meaningless.
#[inline(always)]
#[tactic(auto, unfolding(crate::specs::Frames::frame_of))]
pub fn fill_frame(frame: &mut Frame, line: &[u8]) -> bool
    ensures { (if result then Some frame.new else None) ≡ frame_of (body_of line.now) }
{
    match after_interface(body_of(line)) {
        Some(rest) => fill_usual(frame, rest) || fill_other(frame, rest),
        None => false,
    }
}

/// The frame of a log line, which is without its LF and may end in a CR. `None` if it is no frame line, like a comment
/// or a truncated line.
pub fn read_frame(line: &[u8]) -> Option<Frame>
    ensures { result ≡ frame_of (body_of line.now) }
{
    let mut frame = Frame::empty();
    if fill_frame(&mut frame, line) {
        Some(frame)
    } else {
        None
    }
}
