//! In which order the bits of a signal go through the bytes of a message.
ghost use Rattle.std.specs.Prelude.{◌≡◌};
ghost use Rattle.dbc_records.specs.Records.{is_intel};

/// The byte order of a signal.
#[derive(Clone, Copy, Debug, PartialEq, Eq)]
pub enum ByteOrder {
    /// `0`: the start bit is the most significant one, and the others are in lower bits and in later bytes.
    Motorola,
    /// `1`: the start bit is the least significant one, and the others are in higher bits and in later bytes.
    Intel,
}

impl ByteOrder {
    /// Whether it is Intel byte order.
    pub fn is_intel(self) -> bool
        ensures { result ≡ is_intel self }
    {
        matches!(self, ByteOrder::Intel)
    }
}
