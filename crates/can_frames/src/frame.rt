//! Frames.
ghost use Rattle.std.specs.Prelude.{◌≡◌, [], false};
ghost use Rattle.can_frames.specs.Frames.{is_data, number_of};
ghost use Rattle.can_frames.specs.declared.frame.Kind.TheVariants.{Classic};

use arrayvec::ArrayVec;
use std::marker::Model;

/// What a frame is.
#[derive(Clone, Copy, Debug, PartialEq, Eq)]
pub enum Kind {
    /// A data frame of at most 8 bytes.
    Classic,
    /// An FD data frame, of at most 64 bytes.
    Fd,
    /// A request for a frame, which has no bytes.
    Remote,
    /// A controller's report, in any of the other forms and with the bytes of that form.
    Error,
}

/// A frame of a log.
#[derive(Drop)]
pub struct Frame {
    /// What it is.
    pub kind: Kind,
    /// Whether its identifier is extended (29-bit) rather than standard (11-bit); an extended identifier may be small, too.
    pub extended: bool,
    /// Its identifier alone, without the bits for extended (29-bit) and kind.
    pub identifier: u32,
    /// Its bytes.
    pub bytes: ArrayVec<u8, 64>,
}

impl Model for Frame {
    ghost use Rattle.can_frames.specs.Frames as frames;

    ghost Value = { frames.Frame };

    ghost view = { λ a. record { kind = a.kind; extended = a.extended; identifier = a.identifier; bytes = a.bytes.items } };

    ghost invariant = { λ a. frames.IsFrame (record {
      kind = a.kind;
      extended = a.extended;
      identifier = a.identifier;
      bytes = a.bytes.items;
    }) };
}

impl Frame {
    /// A classic frame of the identifier 0 without bytes, into which another one is read.
    pub fn empty() -> Frame
        ensures { result ≡ record { kind = Classic; extended = false; identifier = 0; bytes = [] } }
    {
        Frame {
            kind: Kind::Classic,
            extended: false,
            identifier: 0,
            bytes: ArrayVec::new(),
        }
    }

    /// Whether it is a data frame: its bytes hold signals.
    pub fn is_data(&self) -> bool
        ensures { result ≡ is_data self.now }
    {
        match self.kind {
            Kind::Classic | Kind::Fd => true,
            Kind::Remote | Kind::Error => false,
        }
    }

    /// The CAN identifier by which a database knows the frame: its identifier, with bit 31 set if that is extended (29-bit).
    pub fn number(&self) -> u32
        ensures { result ≡ number_of self.now }
    {
        if self.extended {
            self.identifier + (1 << 31)
        } else {
            self.identifier
        }
    }
}
