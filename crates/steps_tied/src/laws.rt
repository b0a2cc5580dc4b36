ghost use Rattle.steps_tied.specs.Laws.{BehavioursAreNamed, CutsAreReached, RunsOverOrders, WrongIsUnready};

/// What is so over cuts of the logs is so over the orders of their lines that are allowed.
pub fn tied_laws()
    ensures runs { RunsOverOrders }
    ensures reached { CutsAreReached }
    ensures named { BehavioursAreNamed }
    ensures wrong { WrongIsUnready }
{}
