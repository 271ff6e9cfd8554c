//! Codes of diagnostics.
ghost use Rattle.std.specs.Prelude.{◌≡◌};
ghost use Rattle.can_diagnostics.specs.Codes.{code_number, code_word};

/// What a diagnostic reports. The numbers, 1 to 18 in this order, and the names don't change.
#[derive(Clone, Copy, Debug, PartialEq, Eq)]
pub enum Code {
    /// The CAN identifier of a message is no standard (11-bit) or extended (29-bit) identifier.
    BadIdentifier,
    /// Another message has the CAN identifier.
    SharedIdentifier,
    /// Another message has the name.
    SharedName,
    /// Another J1939 message has the message's PGN.
    SharedGroup,
    /// A bit of a signal is beyond its message's length (DLC).
    Outside,
    /// Two signals that can be active at once share a bit.
    Overlap,
    /// The multiplexor (switch) of a multiplexed signal doesn't exist.
    NoSwitch,
    /// The entry of a signal's multiplexing has a range that ends before it begins, or names a signal that is no multiplexor.
    BadMuxRow,
    /// The multiplexing chain from a signal, from multiplexor to multiplexor, leads to a signal twice.
    SwitchLoop,
    /// The raw bits of a signal are an IEEE 754 float.
    Float,
    /// A signal has more than 64 bits.
    Long,
    /// No scale holds the values of a signal exactly.
    Scale,
    /// A sender or a receiver is no node of the database.
    UnknownNode,
    /// The signal's raw bits can't have the value of a value description.
    ValueOutOfRange,
    /// An earlier value description of the `VAL_` entry has the value.
    RepeatedValue,
    /// An entry is for a message, a signal or a node that doesn't exist.
    DanglingRow,
    /// An earlier entry of the kind has the key.
    RepeatedRow,
    /// A default or a value is of an attribute without a definition.
    UnknownAttribute,
}

impl Code {
    /// The code's number.
    pub fn number(self) -> u8
        ensures { result ≡ code_number self }
    {
        match self {
            Code::BadIdentifier => 1,
            Code::SharedIdentifier => 2,
            Code::SharedName => 3,
            Code::SharedGroup => 4,
            Code::Outside => 5,
            Code::Overlap => 6,
            Code::NoSwitch => 7,
            Code::BadMuxRow => 8,
            Code::SwitchLoop => 9,
            Code::Float => 10,
            Code::Long => 11,
            Code::Scale => 12,
            Code::UnknownNode => 13,
            Code::ValueOutOfRange => 14,
            Code::RepeatedValue => 15,
            Code::DanglingRow => 16,
            Code::RepeatedRow => 17,
            Code::UnknownAttribute => 18,
        }
    }

    /// The code's name, as above.
    pub fn word(self) -> &'static [u8]
        ensures { result.now ≡ code_word self }
    {
        match self {
            Code::BadIdentifier => b"BadIdentifier",
            Code::SharedIdentifier => b"SharedIdentifier",
            Code::SharedName => b"SharedName",
            Code::SharedGroup => b"SharedGroup",
            Code::Outside => b"Outside",
            Code::Overlap => b"Overlap",
            Code::NoSwitch => b"NoSwitch",
            Code::BadMuxRow => b"BadMuxRow",
            Code::SwitchLoop => b"SwitchLoop",
            Code::Float => b"Float",
            Code::Long => b"Long",
            Code::Scale => b"Scale",
            Code::UnknownNode => b"UnknownNode",
            Code::ValueOutOfRange => b"ValueOutOfRange",
            Code::RepeatedValue => b"RepeatedValue",
            Code::DanglingRow => b"DanglingRow",
            Code::RepeatedRow => b"RepeatedRow",
            Code::UnknownAttribute => b"UnknownAttribute",
        }
    }
}
