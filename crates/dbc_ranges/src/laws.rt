//! Laws of the definitions. The functions do nothing: what they ensure is the law.
ghost use Rattle.dbc_ranges.specs.PartLaws.{ItemsSayParts};

/// The items by which parts are counted are the parts of the form of a statement, one after another.
pub fn items_say_parts()
    ensures { ItemsSayParts }
{}
