//! Laws of the rows of lines. The functions do nothing: what they ensure is the law.
ghost use Rattle.can_csv_lines.specs.Laws.{RowsReadBack};

/// What is written for a log reads back as its rows, by the reader of the crate `csv`. So no byte of a field is taken for a
/// separator, and none is lost.
#[tactic(auto, using(crate::proofs::Back::rows_read_back))]
pub fn rows_read_back()
    ensures { RowsReadBack }
{}
