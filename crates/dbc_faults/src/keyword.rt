//! The words that the grammar names.
ghost use Rattle.std.specs.Prelude.{◌≡◌};
ghost use Rattle.dbc_faults.specs.Patterns.{bytes_of};

/// A word with a position of its own in a text.
#[derive(Clone, Copy, Debug, PartialEq, Eq)]
pub enum Keyword {
    /// `VERSION`.
    Version,
    /// `NS_`.
    Symbols,
    /// `BS_`.
    BitTiming,
    /// `BU_`.
    Nodes,
    /// `BO_`.
    Message,
    /// `SG_`.
    Signal,
    /// `EV_`.
    Variable,
    /// `VAL_TABLE_`.
    Table,
    /// `VAL_`.
    Values,
    /// `SIG_VALTYPE_`.
    Float,
    /// `SG_MUL_VAL_`.
    Mux,
    /// `CM_`.
    Comment,
    /// `BA_DEF_`.
    Definition,
    /// `BA_DEF_DEF_`.
    Default,
    /// `BA_`.
    Attribute,
    /// `INT`.
    IntForm,
    /// `HEX`.
    HexForm,
    /// `FLOAT`.
    FloatForm,
    /// `STRING`.
    StringForm,
    /// `ENUM`.
    EnumForm,
}

impl Keyword {
    /// The word as it is in a text.
    pub fn bytes(self) -> &'static [u8]
        ensures { result.now ≡ bytes_of self }
    {
        match self {
            Keyword::Version => b"VERSION",
            Keyword::Symbols => b"NS_",
            Keyword::BitTiming => b"BS_",
            Keyword::Nodes => b"BU_",
            Keyword::Message => b"BO_",
            Keyword::Signal => b"SG_",
            Keyword::Variable => b"EV_",
            Keyword::Table => b"VAL_TABLE_",
            Keyword::Values => b"VAL_",
            Keyword::Float => b"SIG_VALTYPE_",
            Keyword::Mux => b"SG_MUL_VAL_",
            Keyword::Comment => b"CM_",
            Keyword::Definition => b"BA_DEF_",
            Keyword::Default => b"BA_DEF_DEF_",
            Keyword::Attribute => b"BA_",
            Keyword::IntForm => b"INT",
            Keyword::HexForm => b"HEX",
            Keyword::FloatForm => b"FLOAT",
            Keyword::StringForm => b"STRING",
            Keyword::EnumForm => b"ENUM",
        }
    }
}
