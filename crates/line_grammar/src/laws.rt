//! Laws of the definitions, for crates above: functions with nothing to do, whose contracts are the
//! laws.
ghost use Rattle.std.specs.Prelude.{◌≡◌, ◌↔◌};
ghost use Rattle.line_grammar.specs.declared.command.Change.{Change};
ghost use Rattle.line_grammar.specs.declared.command.Command.{Command};
ghost use Rattle.line_grammar.specs.declared.command.Command.TheVariants as commands;
ghost use Rattle.line_grammar.specs.Spelling.{change_text, command_text};
ghost use Rattle.line_grammar.specs.Spellable.{IsSpellable, IsSpellableChange};

/// No two commands that have a text have the same text.
pub fn one_command_a_text()
    ensures { (c d : Command) → IsSpellable c → IsSpellable d
        → command_text c ≡ command_text d → c ≡ d }
{}

/// A change has a text exactly where its command has one, and it is the same text.
pub fn a_change_is_a_line()
    ensures spellable { (c : Change) → IsSpellableChange c ↔ IsSpellable (commands.Change c) }
    ensures text { (c : Change) → change_text c ≡ command_text (commands.Change c) }
{}
