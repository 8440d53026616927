// What holds of words.
ghost use Rattle.std.specs.Prelude.{◌≡◌, List};
ghost use Rattle.command_words.specs.declared.command.Command.{Command};
ghost use Rattle.command_words.specs.Words.{Means, Text};

/// No words mean two commands.
pub fn one_meaning()
    ensures { (words : List Text) (a b : Command) → Means words a → Means words b → a ≡ b }
{}
