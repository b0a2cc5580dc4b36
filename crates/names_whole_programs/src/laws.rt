ghost use Rattle.names_whole_programs.specs.Laws.{AnExpansionExists, OneExpansion, PlainProgramsStay, StrictIsWide};

/// One thing comes of each whole program before its names are resolved, and only one, with `--wide` and without it. A program without instances is what it
/// expands to, and what is expanded without the word is so with it.
pub fn expansion_laws()
    ensures one { OneExpansion }
    ensures exists { AnExpansionExists }
    ensures strict { StrictIsWide }
    ensures plain { PlainProgramsStay }
{}
