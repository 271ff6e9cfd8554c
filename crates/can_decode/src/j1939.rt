//! The fields of a 29-bit identifier.
ghost use Rattle.std.specs.Prelude.{◌≡◌};
ghost use Rattle.can_decode.specs.Identifiers.{fields_of};

/// The fields that SAE J1939-21 reads from a 29-bit identifier ("Protocol Data Unit Fields").
#[derive(Clone, Copy, Debug, PartialEq, Eq)]
pub struct J1939 {
    /// The priority, 0 to 7: the lower takes precedence.
    pub priority: u8,
    /// The extended data page, 0 or 1.
    pub extended_page: u8,
    /// The data page, 0 or 1.
    pub page: u8,
    /// The PDU format.
    pub format: u8,
    /// The PDU specific: below format 240 the destination address, otherwise a part of the PGN.
    pub specific: u8,
    /// The source address.
    pub source: u8,
}

impl J1939 {
    /// The fields of an identifier. Its bits 29 to 31 are ignored.
    pub fn of(identifier: u32) -> J1939
        ensures { result ≡ fields_of identifier }
    {
        J1939 {
            priority: (identifier >> 26 & 7) as u8,
            extended_page: (identifier >> 25 & 1) as u8,
            page: (identifier >> 24 & 1) as u8,
            format: (identifier >> 16 & 0xFF) as u8,
            specific: (identifier >> 8 & 0xFF) as u8,
            source: (identifier & 0xFF) as u8,
        }
    }
}
