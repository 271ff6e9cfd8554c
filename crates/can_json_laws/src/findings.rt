//! Laws of the objects of diagnostics, faults and locations. The functions do nothing: what they ensure is the law.
ghost use Rattle.can_json_laws.specs.FindingLaws.{FindingsParseBack, FaultsParseBack, LocationsParseBack};

/// The text of a diagnostic's object reads back as the object, by the definition of JSON of the crate `json`.
#[tactic(auto, using(crate::proofs::ParseBack::findings_parse_back))]
pub fn findings_parse_back()
    ensures { FindingsParseBack }
{}

/// The text of a fault's object reads back as the object.
#[tactic(auto, using(crate::proofs::ParseBack::faults_parse_back))]
pub fn faults_parse_back()
    ensures { FaultsParseBack }
{}

/// The text of a location's object reads back as the object.
#[tactic(auto, using(crate::proofs::ParseBack::locations_parse_back))]
pub fn locations_parse_back()
    ensures { LocationsParseBack }
{}
