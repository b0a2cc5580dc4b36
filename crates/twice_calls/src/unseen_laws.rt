ghost use Rattle.twice_calls.specs.Unseen.{ReadUnseen, UnaskedAreUnseen};

/// Beside files that tell the same of each file that the words ask for, the words ask for the same files and call for the same; and a job reads the same.
pub fn unseen_law()
    ensures words { UnaskedAreUnseen }
    ensures job { ReadUnseen }
{}
