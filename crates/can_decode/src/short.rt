//! Frames that are shorter than their message.
ghost use Rattle.std.specs.Prelude.{◌≡◌};
ghost use Rattle.can_decode.specs.declared.short.Short.TheVariants.{Refuse};
ghost use Rattle.can_decode.specs.DecodedLines.{is_refused};

/// How a frame that has less data than its message (a truncated frame) is decoded.
#[derive(Clone, Copy, Debug, PartialEq, Eq)]
pub enum Short {
    /// It is reported as having the wrong data size.
    Refuse,
    /// The signals that are present and have all their bits in the data.
    Show,
}

impl Default for Short {
    fn default() -> Short
        ensures { result ≡ Refuse }
    {
        Short::Refuse
    }
}

impl Short {
    /// Whether a frame with this many bytes of data is refused, if its message has `wanted`.
    pub fn refuses(self, there: usize, wanted: u16) -> bool
        ensures { result ≡ is_refused self there wanted }
    {
        match self {
            Short::Refuse => there < usize::from(wanted),
            Short::Show => false,
        }
    }
}
