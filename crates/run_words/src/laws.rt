//! Laws of the words.

ghost use Rattle.run_words.specs.Words.{OneCommand};

/// Each list of words is at most one command.
pub fn one_command()
    ensures { OneCommand }
{}
