//! Laws of the definitions. The functions do nothing: what they ensure is the law.
ghost use Rattle.std.specs.Prelude.{◌≡◌};
ghost use Rattle.dbc_records.specs.Records.{Message};
ghost use Rattle.dbc_records.specs.Databases.{Database};
ghost use Rattle.can_entries.specs.Rows.{rows_of};
ghost use Rattle.can_layout.specs.Plans.{plan_of};
ghost use Rattle.can_layout.specs.Diagrams.{picture_of};

/// The plan and the diagram of a message read only the message and the entries of its CAN identifier, so they are the same in two
/// databases that agree in these.
pub fn own_rows_alone()
    ensures plan { (a b : Database) (message : Message) → rows_of message.head.number a ≡ rows_of message.head.number b
        → plan_of a message ≡ plan_of b message }
    ensures picture { (a b : Database) (message : Message) → rows_of message.head.number a ≡ rows_of message.head.number b
        → picture_of a message ≡ picture_of b message }
{}
