//! Laws of printing: what is printed is spelled, and nothing else is. The functions do nothing: what they ensure is the law.
ghost use Rattle.std.specs.Prelude.{[], ◌∷◌, All, Some};
ghost use Rattle.dbc_values.specs.Names.{IsName, IsText, IsSymbol};
ghost use Rattle.dbc_records.specs.Records.{IsTableRow, IsMessage, IsSignal, IsValueRow, IsFloatRow, IsMuxRow};
ghost use Rattle.dbc_records.specs.Comments.{IsComment};
ghost use Rattle.dbc_records.specs.Attributes.{IsAttrDef, IsAttrDefault, IsAttrRow};
ghost use Rattle.dbc_records.specs.Kept.{IsKept};
ghost use Rattle.dbc_records.specs.CanonicalText.{version_layout, symbols_layout, timing_layout, nodes_layout, table_layout};
ghost use Rattle.dbc_records.specs.CanonicalText.{message_layout, signal_layout, comment_layout, definition_layout, default_layout};
ghost use Rattle.dbc_records.specs.CanonicalText.{attribute_layout, values_layout, float_layout, mux_layout, kept_layout};
ghost use Rattle.dbc_reader.specs.Spelling.{Symbols, Timing, Nodes, Table, OfMessage, OfComment, Definition, Default, Attribute};
ghost use Rattle.dbc_reader.specs.Spelling.{Values, Float, Mux, OfKept, form, form_alone, version_form, timing_of};
ghost use Rattle.dbc_reader.specs.declared.statement.Statement.TheVariants as statements;
ghost use Rattle.dbc_read.specs.PrintLaws.{PrintedUniquely, IsTiming, LinesJoin, PrintLaw};

/// The line of a version has the tokens of its form, and they spell it and nothing else.
pub fn version_line()
    ensures { PrintedUniquely IsText version_layout (λ version. version_form (Some version)) }
{}

/// The lines of a list of symbols have the tokens of its form, and they spell it and nothing else.
pub fn symbols_lines()
    ensures { PrintedUniquely (All IsSymbol) symbols_layout (λ symbols. form (Symbols symbols)) }
{}

/// The line of a bit timing has the tokens of its form, and they spell it and nothing else.
pub fn bit_timing_line()
    ensures { PrintedUniquely IsTiming (λ numbers. timing_layout (timing_of (numbers ∷ []))) (λ numbers. form (Timing numbers)) }
{}

/// The line of a list of nodes has the tokens of its form, and they spell it and nothing else.
pub fn nodes_line()
    ensures { PrintedUniquely (All IsName) nodes_layout (λ nodes. form (Nodes nodes)) }
{}

/// The line of a value table has the tokens of its form, and they spell it and nothing else.
pub fn table_line()
    ensures { PrintedUniquely IsTableRow table_layout (λ row. form (Table row)) }
{}

/// The lines of a message with its signals have the tokens of its form, and they spell it and nothing else.
pub fn message_lines()
    ensures { PrintedUniquely IsMessage message_layout (λ message. form (OfMessage message)) }
{}

/// The line of a signal on its own has the tokens of its form, and they spell it and nothing else.
pub fn signal_line()
    ensures { PrintedUniquely IsSignal signal_layout (λ signal. form_alone (statements.Signal signal)) }
{}

/// The lines of a comment have the tokens of its form, and they spell it and nothing else.
pub fn comment_line()
    ensures { PrintedUniquely IsComment comment_layout (λ comment. form (OfComment comment)) }
{}

/// The line of an attribute's definition has the tokens of its form, and they spell it and nothing else.
pub fn definition_line()
    ensures { PrintedUniquely IsAttrDef definition_layout (λ definition. form (Definition definition)) }
{}

/// The line of an attribute's default has the tokens of its form, and they spell it and nothing else.
pub fn default_line()
    ensures { PrintedUniquely IsAttrDefault default_layout (λ row. form (Default row)) }
{}

/// The line of an attribute has the tokens of its form, and they spell it and nothing else.
pub fn attribute_line()
    ensures { PrintedUniquely IsAttrRow attribute_layout (λ row. form (Attribute row)) }
{}

/// The line of a signal's value descriptions has the tokens of its form, and they spell it and nothing else.
pub fn values_line()
    ensures { PrintedUniquely IsValueRow values_layout (λ row. form (Values row)) }
{}

/// The line of a signal's float type has the tokens of its form, and they spell it and nothing else.
pub fn float_line()
    ensures { PrintedUniquely IsFloatRow float_layout (λ row. form (Float row)) }
{}

/// The line of a signal's extended multiplexing has the tokens of its form, and they spell it and nothing else.
pub fn mux_line()
    ensures { PrintedUniquely IsMuxRow mux_layout (λ row. form (Mux row)) }
{}

/// The line of a statement kept verbatim has the tokens of its form, and they spell it and nothing else.
pub fn kept_line()
    ensures { PrintedUniquely IsKept kept_layout (λ statement. form (OfKept statement)) }
{}

/// A text that ends in a line feed, and another after it, have the tokens of both.
pub fn lines_join()
    ensures { LinesJoin }
{}

/// The tokens of a database's canonical text spell that database and no other.
pub fn printed_database()
    ensures { PrintLaw }
{}
