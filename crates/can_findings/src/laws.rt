//! A law of the definitions. The function does nothing: what it ensures is the law.
ghost use Rattle.std.specs.Prelude.{◌≡◌, map};
ghost use Rattle.dbc_records.specs.Databases.{Database};
ghost use Rattle.dbc_reader.specs.declared.start.Starts.{Starts};
ghost use Rattle.can_check.specs.AllFaults.{all_faults};
ghost use Rattle.can_findings.specs.AllFindings.{all_findings};

/// Without their locations, the findings are all diagnostics, in the same order.
#[tactic(auto, using(crate::proofs::Same::same_faults))]
pub fn same_faults()
    ensures { (database : Database) (starts : Starts) → map (λ finding. finding.diagnostic) (all_findings database starts)
        ≡ all_faults database }
{}
