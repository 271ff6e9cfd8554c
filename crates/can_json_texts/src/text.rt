//! A JSON text that is being written.
ghost use Rattle.std.specs.Prelude.{◌≡◌, ◌∷◌, ◌++◌, [], OnOk, decimal};
ghost use Rattle.json.specs.Token.{begin_object, end_object, begin_array, end_array, key, string, number, boolean, null};
ghost use Rattle.json.specs.Print.{print, IsNumber};
ghost use Rattle.can_json_texts.specs.Texts.{text_of, characters};

use crate::quoting::characters_of;
use dbc_values::Memory;
use json::Writer;
use std::alloc::Global;
use std::marker::Model;

/// A JSON text that is being written. Contracts see its tokens. If memory runs out, a prefix of what was to be
/// written may be there.
#[derive(Drop)]
pub struct JsonText {
    writer: Writer,
    alloc: Global,
}

impl Model for JsonText {
    ghost use Rattle.std.specs.Prelude.{◌≡◌, List, []};
    ghost use Rattle.json.specs.Token.{Token, tokens_code};

    ghost Value = { List Token };

    ghost coded = { tokens_code };

    ghost view = { λ a. a.writer.tokens };

    ghost invariant = { λ a. a.writer.before ≡ [] };
}

impl JsonText {
    /// An empty text.
    pub fn new(alloc: Global) -> JsonText
        ensures { result ≡ [] }
    {
        JsonText {
            writer: Writer::new(Vec::new(alloc)),
            alloc,
        }
    }

    /// Where its memory comes from.
    pub fn allocator(&self) -> Global {
        self.alloc
    }

    /// The bytes of the text.
    pub fn into_bytes(self) -> Vec<u8>
        ensures { result.items ≡ print self }
    {
        self.writer.into_inner()
    }

    /// `{`
    pub fn begin_object(&mut self) -> Result<(), Memory>
        ensures { OnOk result (self.new ≡ self.old ++ begin_object ∷ []) }
    {
        self.writer.begin_object()?;
        Ok(())
    }

    /// `}`
    pub fn end_object(&mut self) -> Result<(), Memory>
        ensures { OnOk result (self.new ≡ self.old ++ end_object ∷ []) }
    {
        self.writer.end_object()?;
        Ok(())
    }

    /// `[`
    pub fn begin_array(&mut self) -> Result<(), Memory>
        ensures { OnOk result (self.new ≡ self.old ++ begin_array ∷ []) }
    {
        self.writer.begin_array()?;
        Ok(())
    }

    /// `]`
    pub fn end_array(&mut self) -> Result<(), Memory>
        ensures { OnOk result (self.new ≡ self.old ++ end_array ∷ []) }
    {
        self.writer.end_array()?;
        Ok(())
    }

    /// A key of an object.
    pub fn key(&mut self, name: &str) -> Result<(), Memory>
        ensures { OnOk result (self.new ≡ self.old ++ key name.now ∷ []) }
    {
        self.writer.key(name)?;
        Ok(())
    }

    /// `null`
    pub fn null(&mut self) -> Result<(), Memory>
        ensures { OnOk result (self.new ≡ self.old ++ null ∷ []) }
    {
        self.writer.null()?;
        Ok(())
    }

    /// `true` or `false`
    pub fn boolean(&mut self, b: bool) -> Result<(), Memory>
        ensures { OnOk result (self.new ≡ self.old ++ boolean b ∷ []) }
    {
        self.writer.boolean(b)?;
        Ok(())
    }

    /// A whole number without a sign.
    pub fn whole(&mut self, n: u64) -> Result<(), Memory>
        ensures { OnOk result (self.new ≡ self.old ++ number (decimal n) ∷ []) }
    {
        self.writer.u64(n)?;
        Ok(())
    }

    /// A number by its digits.
    pub fn number(&mut self, digits: &str) -> Result<(), Memory>
        requires { IsNumber digits.now }
        ensures { OnOk result (self.new ≡ self.old ++ number digits.now ∷ []) }
    {
        self.writer.number(digits)?;
        Ok(())
    }

    /// A string of characters.
    pub fn string(&mut self, text: &str) -> Result<(), Memory>
        ensures { OnOk result (self.new ≡ self.old ++ string text.now ∷ []) }
    {
        self.writer.string(text)?;
        Ok(())
    }

    // A string of the characters of single bytes.
    fn characters(&mut self, bytes: &[u8]) -> Result<(), Memory>
        ensures { OnOk result (self.new ≡ self.old ++ string (characters bytes.now) ∷ []) }
    {
        let text = characters_of(self.alloc, bytes)?;
        self.string(text.as_str())
    }

    /// A string of bytes. If they aren't UTF-8, each becomes the character with its value.
    #[tactic(auto, using(crate::proofs::Spellings::own_text, crate::proofs::Spellings::text_of_characters))]
    pub fn text(&mut self, bytes: &[u8]) -> Result<(), Memory>
        ensures { OnOk result (self.new ≡ self.old ++ string (text_of bytes.now) ∷ []) }
    {
        match std::str::from_utf8(bytes) {
            Ok(text) => self.string(text),
            Err(_) => self.characters(bytes),
        }
    }
}
