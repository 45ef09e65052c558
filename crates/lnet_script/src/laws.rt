//! Laws of the definitions.

ghost use Rattle.std.specs.Prelude.{◌≡◌, ◌≤◌, ◌↔◌, ℕ, List, length, Ok, Err, Some};
ghost use Rattle.lnet_script.specs.declared.command.Command.{Command};
ghost use Rattle.lnet_script.specs.Spelling.{Spells};
ghost use Rattle.lnet_script.specs.Reading.{command_of};
ghost use Rattle.lnet_script.specs.Scripts.{script_limit, IsScript, IsBadLine, commands_of};

/// Words are read as the one command that they spell.
pub fn words_spell_one_command()
    ensures { (words : List (List ℕ)) (c : Command) → (command_of words ≡ Some c) ↔ Spells words c }
{}

/// Bytes are read as the commands that their pieces spell, and are refused at the line of the first piece that spells none.
pub fn scripts_by_their_pieces()
    ensures read { (bytes : List ℕ) (cs : List Command) → length bytes ≤ script_limit → (commands_of bytes ≡ Ok cs) ↔ IsScript bytes cs }
    ensures refused { (bytes : List ℕ) (line : ℕ) → length bytes ≤ script_limit → (commands_of bytes ≡ Err line) ↔ IsBadLine bytes line }
{}
