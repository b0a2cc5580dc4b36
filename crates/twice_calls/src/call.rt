//! What the clauses of `run` say of a call.

ghost use Rattle.std.specs.Prelude.{◌≡◌};
ghost use Rattle.run_words.specs.Line.{words_of};
ghost use Rattle.twice_calls.specs.Ends.{Ends};

use base_core::{Files, Sink};
use run_call::{Status, run};
use std::alloc::Global;

/// Does what the words say, as `run`: each call ends so.
pub fn run_ends<F: Files, S: Sink>(
    alloc: Global,
    words: &[String],
    files: &mut F,
    out: &mut S,
) -> Status
    ensures ends { Ends (words_of words.now) (F.holds files.old) (F.faults files.old) (F.faults files.new) (S.faults out.old) (S.faults out.new)
        (S.written out.old) (S.written out.new) result }
    ensures same { F.holds files.new ≡ F.holds files.old }
{
    run(alloc, words, files, out)
}
