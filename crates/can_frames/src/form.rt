//! Forms of frames: what comes after the first `#`.
ghost use Rattle.std.specs.Prelude.{◌≡◌, ◌≤◌, ◌*◌, length, option_map, IfSome};
ghost use Rattle.can_frames.specs.Frames.{form_of, classic_form, fd_form, remote_form, form_up_to, is_raw_length};
ghost use Rattle.can_frames.specs.Frames.{is_raw_length_code, is_asked_length};
ghost use Rattle.can_frames.specs.inner.Seen.{form_view};

use crate::frame::Kind;

/// The contents of a frame's form. Whether its digits are hexadecimal and spell bytes is not checked.
#[derive(Clone, Copy)]
pub(crate) struct Form<'l> {
    /// The kind, if the identifier marks no error.
    pub kind: Kind,
    /// The digits of its bytes, at most 128.
    pub digits: &'l [u8],
}

fn is_raw_length(b: u8) -> bool
    ensures { result ≡ is_raw_length b }
{
    matches!(b, b'9' | b'A'..=b'F' | b'a'..=b'f')
}

fn is_raw_length_code(text: &[u8]) -> bool
    ensures { result ≡ is_raw_length_code text.now }
{
    match text {
        [b'_', code] => is_raw_length(*code),
        _ => false,
    }
}

#[tactic(auto, unfolding(crate::specs::Frames::classic_form))]
fn classic_form(text: &[u8]) -> Option<Form<'_>>
    ensures value { option_map form_view result ≡ classic_form text.now }
    ensures short { IfSome result (λ form. length form.digits.now ≤ 128) }
{
    let digits = match text.split_at_checked(16) {
        Some((digits, code)) if is_raw_length_code(code) => digits,
        _ => text,
    };
    if digits.len() > 16 {
        return None;
    }
    Some(Form {
        kind: Kind::Classic,
        digits,
    })
}

#[tactic(auto, unfolding(crate::specs::Frames::fd_form))]
fn fd_form(text: &[u8]) -> Option<Form<'_>>
    ensures value { option_map form_view result ≡ fd_form text.now }
    ensures short { IfSome result (λ form. length form.digits.now ≤ 128) }
{
    match text {
        [flags, digits @ ..] if flags.is_ascii_hexdigit() && digits.len() <= 128 => Some(Form {
            kind: Kind::Fd,
            digits,
        }),
        _ => None,
    }
}

fn is_asked_length(text: &[u8]) -> bool
    ensures { result ≡ is_asked_length text.now }
{
    match text {
        [] => true,
        [b'0'..=b'8'] => true,
        [b'8', code @ ..] => is_raw_length_code(code),
        _ => false,
    }
}

#[tactic(auto, unfolding(crate::specs::Frames::remote_form))]
fn remote_form(text: &[u8]) -> Option<Form<'_>>
    ensures value { option_map form_view result ≡ remote_form text.now }
    ensures short { IfSome result (λ form. length form.digits.now ≤ 128) }
{
    if !is_asked_length(text) {
        return None;
    }
    Some(Form {
        kind: Kind::Remote,
        digits: b"",
    })
}

/// The form of a frame, from what comes after the first `#` of its word.
#[tactic(auto, unfolding(crate::specs::Frames::form_of))]
pub(crate) fn form_of(text: &[u8]) -> Option<Form<'_>>
    ensures value { option_map form_view result ≡ form_of text.now }
    ensures short { IfSome result (λ form. length form.digits.now ≤ 128) }
{
    match text {
        [b'#', rest @ ..] => fd_form(rest),
        [b'R', rest @ ..] => remote_form(rest),
        _ => classic_form(text),
    }
}
