//! A law of the definitions. The function does nothing: what it ensures is the law.
ghost use Rattle.std.specs.Prelude.{List};
ghost use Rattle.dbc_records.specs.Databases.{Database};
ghost use Rattle.dbc_tokens.specs.Tokens.{Token};
ghost use Rattle.dbc_reader.specs.declared.start.Starts.{Starts};
ghost use Rattle.dbc_reader.specs.Located.{SpellsFrom};
ghost use Rattle.dbc_reader.specs.Starts.{HaveStarts};

/// Each record of a database that tokens spell has a start, and so has each signal.
pub fn all_have_starts()
    ensures { (tokens : List Token) (database : Database) (starts : Starts) → SpellsFrom tokens database starts
        → HaveStarts database starts }
{}
