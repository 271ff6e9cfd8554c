//! Laws of the objects of databases. The functions do nothing: what they ensure is the law.
ghost use Rattle.can_json_laws.specs.DatabaseLaws.{MessagesParseBack, RestParsesBack, SignalsAreAsPlanned};

/// The text of a message's object reads back as the object, by the definition of JSON of the crate `json`.
#[tactic(auto, using(crate::proofs::Messages::messages_parse_back))]
pub fn messages_parse_back()
    ensures { MessagesParseBack }
{}

/// The text of the object of everything else reads back as that object.
#[tactic(auto, using(crate::proofs::Rest::rest_parses_back))]
pub fn rest_parses_back()
    ensures { RestParsesBack }
{}

/// What is reported for a signal is what its plan decodes it by: positions, chain, the reason why it can't be
/// decoded, and value descriptions.
pub fn signals_are_as_planned()
    ensures { SignalsAreAsPlanned }
{}
