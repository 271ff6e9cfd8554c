//! Laws of the definitions. The functions do nothing: what they ensure is the law.
ghost use Rattle.std.specs.Prelude.{◌≡◌, ◌++◌};
ghost use Rattle.std.specs.List.{flat_map};
ghost use Rattle.dbc_records.specs.Records.{Message};
ghost use Rattle.dbc_records.specs.Databases.{Database};
ghost use Rattle.can_entries.specs.Rows.{rows_of};
ghost use Rattle.can_references.specs.RowFaults.{row_faults};
ghost use Rattle.can_check.specs.MessageFaults.{message_faults, own_faults, head_then_own};
ghost use Rattle.can_check.specs.AllFaults.{all_faults};

/// The diagnostics of a message are those of its head and then its own, and those of a database are the ones of its messages, in
/// order, and then the ones of its entries.
pub fn faults_in_order()
    ensures message { (database : Database) (message : Message) → message_faults database message
        ≡ head_then_own database message }
    ensures all { (database : Database) → all_faults database ≡ flat_map (head_then_own database) database.messages
        ++ row_faults database }
{}

/// A message's own diagnostics are the same in two databases that have the same entries of its CAN identifier and the same nodes.
pub fn own_rows_and_nodes_alone()
    ensures { (one other : Database) (message : Message) → rows_of message.head.number one ≡ rows_of message.head.number other
        → one.nodes ≡ other.nodes → own_faults one message ≡ own_faults other message }
{}
