//! The identifier format and the kind of a frame, cached as members.
ghost use Rattle.std.specs.Prelude.{◌≡◌, ◌++◌, true, false, IfOk, OnOk, codes, if◌then◌else◌};
ghost use Rattle.json.specs.Json.{boolean};
ghost use Rattle.can_json_texts.specs.Members.{keyed, further_members};
ghost use Rattle.can_frames.specs.declared.frame.Kind.TheVariants.{Classic, Fd, Remote, Error};
ghost use Rattle.can_json_lines.specs.Lines.{kind_word, flag_members};

use can_frames::Kind;
use can_json_texts::Key;
use dbc_text_buffer::{ReadyText, TextBuffer};
use dbc_values::Memory;
use std::alloc::Global;

/// The keys of the identifier format and the kind.
#[derive(Drop)]
pub(crate) struct FlagKeys {
    extended: Key,
    kind: Key,
    ghost is_extended: { extended ≡ record { mark = 44; name = codes "extended" } },
    ghost is_kind: { kind ≡ record { mark = 44; name = codes "kind" } },
}

impl FlagKeys {
    fn of(alloc: Global) -> Result<FlagKeys, Memory> {
        Ok(FlagKeys {
            extended: Key::further(alloc, b"extended")?,
            kind: Key::further(alloc, b"kind")?,
        })
    }
}

fn push_flag(text: &mut TextBuffer, flag: bool) -> Result<(), Memory>
    ensures { OnOk result (text.new.items ≡ text.old.items ++ (if flag then codes "true" else codes "false")) }
{
    if flag {
        text.push_piece(b"true")
    } else {
        text.push_piece(b"false")
    }
}

fn push_flag_member(text: &mut TextBuffer, key: &Key, flag: bool) -> Result<(), Memory>
    ensures { OnOk result (text.new.items ≡ text.old.items ++ keyed key.now (boolean flag)) }
{
    key.push_to(text)?;
    push_flag(text, flag)?;
    Ok(())
}

fn kind_word(kind: Kind) -> &'static [u8]
    ensures { result.now ≡ kind_word kind }
{
    match kind {
        Kind::Classic => b"data",
        Kind::Fd => b"fd",
        Kind::Remote => b"remote",
        Kind::Error => b"error",
    }
}

#[tactic(auto, using(crate::proofs::Labels::two_further))]
fn push_flags(
    text: &mut TextBuffer,
    keys: &FlagKeys,
    extended: bool,
    kind: Kind,
) -> Result<(), Memory>
    ensures { OnOk result (text.new.items ≡ text.old.items ++ further_members (flag_members extended kind)) }
{
    push_flag_member(text, &keys.extended, extended)?;
    keys.kind.push_quoted(text, kind_word(kind))
}

fn ready_flags(
    alloc: Global,
    keys: &FlagKeys,
    extended: bool,
    kind: Kind,
) -> Result<ReadyText, Memory>
    ensures { IfOk result (λ ready. ready ≡ further_members (flag_members extended kind)) }
{
    let mut text = TextBuffer::new(alloc);
    push_flags(&mut text, keys, extended, kind)?;
    ReadyText::of(alloc, text.as_slice())
}

// The members of each kind, for one identifier format.
#[derive(Drop)]
struct KindFlags {
    extended: bool,
    classic: ReadyText,
    fd: ReadyText,
    remote: ReadyText,
    error: ReadyText,
    ghost is_classic: { classic ≡ further_members (flag_members extended Classic) },
    ghost is_fd: { fd ≡ further_members (flag_members extended Fd) },
    ghost is_remote: { remote ≡ further_members (flag_members extended Remote) },
    ghost is_error: { error ≡ further_members (flag_members extended Error) },
}

impl KindFlags {
    fn of(alloc: Global, keys: &FlagKeys, extended: bool) -> Result<KindFlags, Memory>
        ensures { IfOk result (λ flags. flags.extended ≡ extended) }
    {
        Ok(KindFlags {
            extended,
            classic: ready_flags(alloc, keys, extended, Kind::Classic)?,
            fd: ready_flags(alloc, keys, extended, Kind::Fd)?,
            remote: ready_flags(alloc, keys, extended, Kind::Remote)?,
            error: ready_flags(alloc, keys, extended, Kind::Error)?,
        })
    }

    #[inline(always)]
    fn of_kind(&self, kind: Kind) -> &ReadyText
        ensures { result.now ≡ further_members (flag_members self.now.extended kind) }
    {
        match kind {
            Kind::Classic => &self.classic,
            Kind::Fd => &self.fd,
            Kind::Remote => &self.remote,
            Kind::Error => &self.error,
        }
    }
}

/// The identifier format, standard (11-bit) or extended (29-bit), and the kind of a frame as members, cached for each of both.
#[derive(Drop)]
pub(crate) struct Flags {
    standard: KindFlags,
    extended: KindFlags,
    ghost is_standard: { standard.extended ≡ false },
    ghost is_extended: { extended.extended ≡ true },
}

impl Flags {
    /// All of these members.
    pub fn of(alloc: Global) -> Result<Flags, Memory> {
        let keys = FlagKeys::of(alloc)?;
        Ok(Flags {
            standard: KindFlags::of(alloc, &keys, false)?,
            extended: KindFlags::of(alloc, &keys, true)?,
        })
    }

    /// Appends the members of a frame.
    #[inline(always)]
    pub fn push_to(&self, text: &mut TextBuffer, extended: bool, kind: Kind) -> Result<(), Memory>
        ensures { OnOk result (text.new.items ≡ text.old.items ++ further_members (flag_members extended kind)) }
    {
        let flags = if extended {
            &self.extended
        } else {
            &self.standard
        };
        flags.of_kind(kind).push_to(text)
    }
}
