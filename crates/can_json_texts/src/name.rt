//! Names and symbols.
ghost use Rattle.std.specs.Prelude.{◌≡◌, ◌∷◌, ◌++◌, [], OnOk};
ghost use Rattle.json.specs.Token.{key, string};

use crate::text::JsonText;
use crate::value::ToJson;
use dbc_values::{Memory, Name, Symbol};

impl JsonText {
    /// A name, which is a string of its own bytes.
    #[tactic(auto, using(crate::proofs::Names::text_of_name))]
    pub fn name(&mut self, name: &Name) -> Result<(), Memory>
        ensures { OnOk result (self.new ≡ self.old ++ string name.now ∷ []) }
    {
        self.text(name.as_bytes())
    }

    /// A key that is a name.
    #[tactic(auto, using(crate::proofs::Names::name_utf8))]
    pub fn name_key(&mut self, name: &Name) -> Result<(), Memory>
        ensures { OnOk result (self.new ≡ self.old ++ key name.now ∷ []) }
    {
        match std::str::from_utf8(name.as_bytes()) {
            Ok(name) => self.key(name),
            Err(_) => unreachable!(),
        }
    }
}

impl ToJson for Name {
    ghost use Rattle.can_json_texts.specs.Records.{name_json};

    ghost json_of = { name_json };

    fn write(&self, text: &mut JsonText) -> Result<(), Memory> {
        text.name(self)
    }
}

impl ToJson for Symbol {
    ghost use Rattle.can_json_texts.specs.Records.{name_json};

    ghost json_of = { name_json };

    #[tactic(auto, using(crate::proofs::Names::text_of_symbol))]
    fn write(&self, text: &mut JsonText) -> Result<(), Memory> {
        text.text(self.as_bytes())
    }
}
