//! Laws over definitions alone.
ghost use Rattle.std.specs.Prelude.{◌≡◌, ℕ, List, Ok};
ghost use Rattle.depot_script.specs.declared.command.Command.{Command};
ghost use Rattle.depot_script.specs.Scripts.{IsScript, text_of_script, script_of, IsTextOfScript};

/// A script that has a text is read back from it. So no text loses anything, and no two scripts have the same text.
pub fn scripts_are_read_back()
    ensures { (s : List Command) → IsScript s → script_of (text_of_script s) ≡ Ok s }
{}

/// A text that is read is the text of the resulting script. So each script has one spelling.
pub fn scripts_have_one_spelling()
    ensures { (text : List ℕ) (s : List Command) → script_of text ≡ Ok s → IsTextOfScript text s }
{}
