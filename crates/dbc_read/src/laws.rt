//! Laws of tokens and of reading. The functions do nothing: what they ensure is the law.
ghost use Rattle.dbc_read.specs.Laws.{FaultOrDatabase, FaultOrStatement, FaultsAreOfTexts, OneDatabase, OneReading};
ghost use Rattle.dbc_read.specs.Laws.{OneReadingAlone, OneStatement};

pub use dbc_tokens::laws::{one_cut, tokens_in_order};

/// Tokens have no first fault exactly when they spell a database.
pub fn fault_or_database()
    ensures { FaultOrDatabase }
{}

/// Tokens spell one database at most.
pub fn one_database()
    ensures { OneDatabase }
{}

/// Tokens have no first fault as one statement exactly when they spell one that may be on its own.
pub fn fault_or_statement()
    ensures { FaultOrStatement }
{}

/// Tokens spell one statement at most.
pub fn one_statement()
    ensures { OneStatement }
{}

/// A text has one database and no first fault, or one first fault and no database.
pub fn one_reading()
    ensures { OneReading }
{}

/// A text is one statement and has no first fault as such, or has one first fault and is none.
pub fn one_reading_alone()
    ensures { OneReadingAlone }
{}

/// A first fault names a line of its text, and isn't that memory ran out.
pub fn faults_are_of_texts()
    ensures { FaultsAreOfTexts }
{}
