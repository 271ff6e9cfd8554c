//! The verbs of a script.
ghost use Rattle.std.specs.Prelude.{◌≡◌};
ghost use Rattle.std.specs.List.{find};
ghost use Rattle.std.specs.Str.{bytes_eq};
ghost use Rattle.session_script.specs.Words.{verb_word, verb_of};

/// What a line of a script begins with.
#[derive(Clone, Copy, Debug, PartialEq, Eq)]
pub enum Verb {
    /// A line of a log comes.
    Log,
    /// A message is inserted at an index.
    AddMessage,
    /// The message at an index is removed.
    RemoveMessage,
    /// The first line of the message at an index is changed.
    ChangeMessage,
    /// The message at an index takes another CAN identifier.
    Renumber,
    /// A signal is inserted at an index of a message.
    AddSignal,
    /// A signal of a message is removed.
    RemoveSignal,
    /// A signal of a message is changed.
    ChangeSignal,
    /// A signal of a message takes another name.
    RenameSignal,
    /// A multiplexer entry is set.
    SetMux,
    /// A `VAL_` entry is set.
    SetValues,
    /// A value table is set.
    SetTable,
    /// An attribute of a message is set.
    SetAttribute,
    /// The multiplexer entries of a signal are removed.
    DropMux,
    /// The `VAL_` entries of a signal are removed.
    DropValues,
    /// The value tables of a name are removed.
    DropTable,
    /// The entries of an attribute of a message are removed.
    DropAttribute,
    /// Something is shown.
    Show,
    /// The database is printed.
    Print,
}

const ALL: [Verb; 19] = [
    Verb::Log,
    Verb::AddMessage,
    Verb::RemoveMessage,
    Verb::ChangeMessage,
    Verb::Renumber,
    Verb::AddSignal,
    Verb::RemoveSignal,
    Verb::ChangeSignal,
    Verb::RenameSignal,
    Verb::SetMux,
    Verb::SetValues,
    Verb::SetTable,
    Verb::SetAttribute,
    Verb::DropMux,
    Verb::DropValues,
    Verb::DropTable,
    Verb::DropAttribute,
    Verb::Show,
    Verb::Print,
];

impl Verb {
    /// The verb as a script spells it.
    pub fn word(self) -> &'static [u8]
        ensures { result.now ≡ verb_word self }
    {
        match self {
            Verb::Log => b"log",
            Verb::AddMessage => b"add-message",
            Verb::RemoveMessage => b"remove-message",
            Verb::ChangeMessage => b"change-message",
            Verb::Renumber => b"renumber",
            Verb::AddSignal => b"add-signal",
            Verb::RemoveSignal => b"remove-signal",
            Verb::ChangeSignal => b"change-signal",
            Verb::RenameSignal => b"rename-signal",
            Verb::SetMux => b"set-mux",
            Verb::SetValues => b"set-values",
            Verb::SetTable => b"set-table",
            Verb::SetAttribute => b"set-attribute",
            Verb::DropMux => b"drop-mux",
            Verb::DropValues => b"drop-values",
            Verb::DropTable => b"drop-table",
            Verb::DropAttribute => b"drop-attribute",
            Verb::Show => b"show",
            Verb::Print => b"print",
        }
    }

    /// The verb that a word spells.
    #[tactic(auto, unfolding(crate::specs::Words::verb_of))]
    pub(crate) fn of(word: &[u8]) -> Option<Verb>
        ensures { result ≡ verb_of word.now }
    {
        first_with_word(&ALL, word)
    }
}

// The first of the verbs that is spelled in this way.
fn first_with_word(verbs: &[Verb], word: &[u8]) -> Option<Verb>
    ensures { result ≡ find (λ verb. bytes_eq (verb_word verb) word.now) verbs.now }
{
    for verb in verbs {
        if verb.word() == word {
            return Some(*verb);
        }
    }
    None
}
