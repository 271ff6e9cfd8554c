//! Laws of the objects of lines. The functions do nothing, or call the law of log lines: what they ensure is the law.
ghost use Rattle.can_json_laws.specs.LineLaws.{ParsesBack, KeysAreUnique, ReportsNoLess, ObjectsAreLines, ValuesAreExact};

use can_frames::laws::log_lines;

/// The text of an object reads back as the object, by the definition of JSON of the crate `json`.
#[tactic(auto, using(crate::proofs::Parsed::parses_back))]
pub fn parses_back()
    ensures { ParsesBack }
{
    log_lines();
}

/// No object has a key twice.
pub fn keys_are_unique()
    ensures { KeysAreUnique }
{
    log_lines();
}

/// An object contains no less than its decoded line: what `decode` writes for a frame follows from the object.
#[tactic(auto, using(crate::proofs::StatedAll::reports_no_less))]
pub fn reports_no_less()
    ensures { ReportsNoLess }
{
    log_lines();
}

/// The text of an object is one line of UTF-8: no byte in it is below 32. Bytes that aren't UTF-8 become characters.
pub fn objects_are_lines()
    ensures { ObjectsAreLines }
{
    log_lines();
}

/// The number that is reported for a signal is its exact value.
pub fn values_are_exact()
    ensures { ValuesAreExact }
{}
