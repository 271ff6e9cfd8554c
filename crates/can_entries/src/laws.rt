//! Laws of the definitions. The functions do nothing: what they ensure is the law.
ghost use Rattle.std.specs.Prelude.{◌≡◌, ℕ, List};
ghost use Rattle.dbc_records.specs.Databases.{Database};
ghost use Rattle.can_entries.specs.Rows.{rows_of, first_values, first_float, first_mux, first_row};

/// The first entry of a signal among those of its message is the first of all entries with that CAN identifier and that name.
pub fn first_of_key()
    ensures values { (database : Database) (number : ℕ) (name : List ℕ) → first_values name (rows_of number database)
        ≡ first_row (λ row. row.number) (λ row. row.signal) number name database.values }
    ensures floats { (database : Database) (number : ℕ) (name : List ℕ) → first_float name (rows_of number database)
        ≡ first_row (λ row. row.number) (λ row. row.signal) number name database.floats }
    ensures muxes { (database : Database) (number : ℕ) (name : List ℕ) → first_mux name (rows_of number database)
        ≡ first_row (λ row. row.number) (λ row. row.signal) number name database.muxes }
{}
