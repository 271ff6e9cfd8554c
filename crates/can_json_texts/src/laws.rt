//! Laws of the definitions. The functions do nothing: what they ensure is the law.
ghost use Rattle.can_json_texts.specs.Texts.{BytesRecovered};
ghost use Rattle.can_json_texts.specs.Members.{ObjectsArePrinted};

/// The bytes of a text are its own, or those of its hexadecimal pairs.
#[tactic(auto, using(crate::proofs::Spellings::bytes_recovered))]
pub fn bytes_recovered()
    ensures { BytesRecovered }
{}

/// The text of an object by its members is what the crate `json` prints for it.
#[tactic(auto, using(crate::proofs::Objects::objects_are_printed))]
pub fn objects_are_printed()
    ensures { ObjectsArePrinted }
{}
