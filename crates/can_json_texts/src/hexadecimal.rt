//! Hexadecimal pairs.
ghost use Rattle.std.specs.Prelude.{◌≡◌, ◌∷◌, ◌++◌, [], OnOk};
ghost use Rattle.std.specs.List.{flat_map};
ghost use Rattle.hex.specs.Hex.{encode_upper};
ghost use Rattle.json.specs.Print.{quoted};
ghost use Rattle.can_json_texts.specs.Texts.{pair_text};

use dbc_text_buffer::TextBuffer;
use dbc_values::Memory;

const DIGITS: [u8; 16] = *b"0123456789ABCDEF";

// The two digits of a byte, which go into a string as they are.
#[inline(always)]
#[tactic(auto, using(crate::proofs::Digits::plain_pair))]
fn pair_of(byte: u8) -> (u8, u8)
    ensures { result.0 ∷ result.1 ∷ [] ≡ pair_text byte }
{
    (
        DIGITS[usize::from(byte / 16)],
        DIGITS[usize::from(byte % 16)],
    )
}

// The digits of eight bytes.
#[inline(always)]
fn pairs_of_eight(bytes: &[u8; 8]) -> [u8; 16]
    ensures { result ≡ flat_map pair_text bytes.now }
{
    let [a, b, c, d, e, f, g, h] = *bytes;
    let (a, i) = pair_of(a);
    let (b, j) = pair_of(b);
    let (c, k) = pair_of(c);
    let (d, l) = pair_of(d);
    let (e, m) = pair_of(e);
    let (f, n) = pair_of(f);
    let (g, o) = pair_of(g);
    let (h, p) = pair_of(h);
    [a, i, b, j, c, k, d, l, e, m, f, n, g, o, h, p]
}

// The digits of four bytes.
#[inline(always)]
fn pairs_of_four(bytes: &[u8; 4]) -> [u8; 8]
    ensures { result ≡ flat_map pair_text bytes.now }
{
    let [a, b, c, d] = *bytes;
    let (a, i) = pair_of(a);
    let (b, j) = pair_of(b);
    let (c, k) = pair_of(c);
    let (d, l) = pair_of(d);
    [a, i, b, j, c, k, d, l]
}

// The digits of bytes, as they go into a string, one by one.
fn push_few_pairs(text: &mut TextBuffer, bytes: &[u8]) -> Result<(), Memory>
    ensures { OnOk result (text.new.items ≡ text.old.items ++ flat_map pair_text bytes.now) }
{
    for byte in bytes {
        let (high, low) = pair_of(*byte);
        text.push_piece(&[high, low])?;
    }
    Ok(())
}

// The digits of bytes that are mostly fewer than eight: four at once, and the others one by one.
#[tactic(auto, using(crate::proofs::Digits::four_first))]
fn push_short_pairs(text: &mut TextBuffer, bytes: &[u8]) -> Result<(), Memory>
    ensures { OnOk result (text.new.items ≡ text.old.items ++ flat_map pair_text bytes.now) }
{
    match bytes.split_first_chunk::<4>() {
        Some((four, after)) => {
            text.push_piece(&pairs_of_four(four))?;
            push_few_pairs(text, after)?;
            Ok(())
        }
        None => push_few_pairs(text, bytes),
    }
}

// The same, eight bytes at a time.
#[tactic(auto, using(crate::proofs::Digits::eight_more))]
fn push_pairs(text: &mut TextBuffer, bytes: &[u8]) -> Result<(), Memory>
    ensures { OnOk result (text.new.items ≡ text.old.items ++ flat_map pair_text bytes.now) }
{
    let mut rest = bytes;
    'eights: while let Some((eight, after)) = rest.split_first_chunk::<8>() {
        text.push_piece(&pairs_of_eight(eight))?;
        rest = after;
    }
    push_short_pairs(text, rest)
}

/// Appends a string of hexadecimal pairs in upper case, one for each byte.
pub fn push_hexadecimal(text: &mut TextBuffer, bytes: &[u8]) -> Result<(), Memory>
    ensures { OnOk result (text.new.items ≡ text.old.items ++ quoted (encode_upper bytes.now)) }
{
    text.push(b'"')?;
    push_pairs(text, bytes)?;
    text.push(b'"')?;
    Ok(())
}
