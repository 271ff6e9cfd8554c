//! Laws of the definitions. The functions do nothing: what they ensure is the law.
ghost use Rattle.std.specs.Prelude.{◌↔◌, ℕ, List, Some};
ghost use Rattle.session_script.specs.Commands.{Command, Means};
ghost use Rattle.session_script.specs.ScriptGrammar.{IsScriptLine};

/// A line asks for a command exactly when it is written as the grammar of script lines has that command: its verb, and its
/// arguments, separated by single blanks.
pub fn script_lines()
    ensures { (line : List ℕ) (command : Command) → Means line (Some command) ↔ IsScriptLine line command }
{}
