ghost use Rattle.names_outcome_laws.specs.Programs.{NamedProgramsHaveOne, NamesAlwaysCome, ProgramsHaveAnOutcome};

/// Something comes of each program with its configuration: of its names, and of the whole. Want of memory is no outcome.
pub fn program_laws()
    ensures names { NamesAlwaysCome }
    ensures outcome { ProgramsHaveAnOutcome }
{}

/// Each program whose definitions have names has an outcome of this kind: where it is a specification, each definition without a name in its table is one of a
/// LET, and of one LET.
pub fn lets_law()
    ensures { NamedProgramsHaveOne }
{}
