//! The remaining tokens of a text.
ghost use Rattle.std.specs.Prelude.{◌+◌, ◌<◌, ◌^◌, length};

mod stepping;

/// The remaining tokens of a text, as an iterator. After a fault it yields nothing more.
#[derive(Clone, Copy, Debug)]
pub struct Tokens<'a> {
    rest: &'a [u8],
    line: u64,
    ghost fits: { line + length rest.now < 2 ^ 64 },
}
