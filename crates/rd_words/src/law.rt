//! The law of the words.
ghost use Rattle.std.specs.Prelude.{◌≡◌, List};
ghost use Rattle.rd_words.specs.Words.{Text, values_of};
ghost use Rattle.rd_words.specs.Command.{values_by_clap};

/// The words say what `clap` makes of them for this command, and they are faulty exactly where it refuses them. The call does
/// nothing.
pub fn words_are_read_as_by_clap()
    ensures { (words : List Text) → values_of words ≡ values_by_clap words }
{}
