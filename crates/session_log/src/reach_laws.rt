//! Laws of the definitions. The functions do nothing: what they ensure is the law.
ghost use Rattle.std.specs.Prelude.{◌≡◌, ℕ, false, List, Ok};
ghost use Rattle.dbc_records.specs.Records.{Message};
ghost use Rattle.dbc_records.specs.Databases.{Database};
ghost use Rattle.can_layout.specs.Plans.{plan_of};
ghost use Rattle.can_layout.specs.Diagrams.{picture_of};
ghost use Rattle.can_decode.specs.declared.short.Short.{Short};
ghost use Rattle.can_decode.specs.DecodedLines.{decoded_line};
ghost use Rattle.dbc_edits.specs.declared.edit.Edit.{Edit};
ghost use Rattle.dbc_edits.specs.Edits.{edited};
ghost use Rattle.session_log.specs.Touched.{edit_numbers, is_among, line_touched};
ghost use Rattle.session_log.specs.Elsewhere.{SameElsewhere};

/// An accepted edit leaves the messages and entries of all CAN identifiers except its own as they were.
pub fn others_stay()
    ensures { (before after : Database) (edit : Edit) → edited before edit ≡ Ok after → SameElsewhere (edit_numbers before edit)
        before after }
{}

/// A message whose CAN identifier is none of the edit's keeps its plan and its diagram.
pub fn untouched_messages_stay()
    ensures plan { (before after : Database) (edit : Edit) (message : Message) → edited before edit ≡ Ok after
        → is_among (edit_numbers before edit) message.head.number ≡ false → plan_of after message ≡ plan_of before message }
    ensures picture { (before after : Database) (edit : Edit) (message : Message) → edited before edit ≡ Ok after
        → is_among (edit_numbers before edit) message.head.number ≡ false → picture_of after message ≡ picture_of before message }
{}

/// A line whose frame an edit doesn't touch is decoded as before, though indexes have moved, however truncated frames are decoded.
pub fn untouched_lines_stay()
    ensures { (short : Short) (before after : Database) (edit : Edit) (line : List ℕ) → edited before edit ≡ Ok after
        → line_touched (edit_numbers before edit) line ≡ false → decoded_line short after line ≡ decoded_line short before line }
{}
