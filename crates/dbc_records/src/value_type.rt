//! Whether the raw values of a signal have a sign.
ghost use Rattle.std.specs.Prelude.{◌≡◌};
ghost use Rattle.dbc_records.specs.Records.{is_signed};

/// The value type of a signal.
#[derive(Clone, Copy, Debug, PartialEq, Eq)]
pub enum ValueType {
    /// `+`: raw values are 0 or more.
    Unsigned,
    /// `-`: raw values are in two's complement.
    Signed,
}

impl ValueType {
    /// Whether raw values have a sign.
    pub fn is_signed(self) -> bool
        ensures { result ≡ is_signed self }
    {
        matches!(self, ValueType::Signed)
    }
}
