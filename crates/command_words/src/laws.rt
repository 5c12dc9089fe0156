//! Laws of the definitions, for crates above: functions with nothing to do, whose contracts are the laws.
ghost use Rattle.std.specs.Prelude.{◌≡◌, ℕ, List};
ghost use Rattle.command_words.specs.Written.{AreWordsOf};
ghost use Rattle.command_words.specs.declared.word.Word.{Word};

/// The same words are written for one command at most.
pub fn one_command()
    ensures { (words : List (List ℕ)) (v w : Word) → AreWordsOf words v → AreWordsOf words w → v ≡ w }
{}
