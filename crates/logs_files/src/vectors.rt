ghost use Rattle.std.specs.Prelude.{◌≡◌, IfOk, map};
ghost use Rattle.std.specs.List.{list_any};
ghost use Rattle.base_cuts.specs.Views.{logs_of};
ghost use Rattle.logs_updates.specs.Clocks.{is_vector, vector_in};
ghost use Rattle.logs_files.specs.Logs.{are_vectors, vectors_in};

use base_clocks::Stamps;
use base_core::NoMemory;
use logs_lines::FileLines;
use logs_updates::{Clock, Line};
use std::alloc::Global;

/// Whether some step has a clock of nodes.
pub(crate) fn are_vectors(files: &[FileLines]) -> bool
    ensures { result ≡ are_vectors files.now }
{
    files.iter().any(|file| has_vector(file))
}

fn has_vector(file: &FileLines) -> bool
    ensures { result ≡ list_any (λ l. is_vector l.clock) file.now.steps }
{
    file.steps.items().iter().any(|step| is_vector(step))
}

fn is_vector(step: &Line) -> bool
    ensures { result ≡ is_vector step.now.clock }
{
    match &step.clock {
        Clock::Number(_) => false,
        Clock::Vector(_) => true,
    }
}

/// What the clocks of each file say of nodes.
pub(crate) fn all_vectors(alloc: Global, files: &[FileLines]) -> Result<Vec<Vec<Stamps>>, NoMemory>
    ensures { IfOk result (λ vectors. logs_of vectors.items ≡ vectors_in files.now) }
{
    let mut vectors = Vec::with_capacity(alloc, files.len())?;
    for file in files {
        let log = step_vectors(alloc, file.steps.items())?;
        vectors.push(log)?;
    }
    Ok(vectors)
}

fn step_vectors(alloc: Global, steps: &[Line]) -> Result<Vec<Stamps>, NoMemory>
    ensures { IfOk result (λ vectors. vectors.items ≡ map (λ l. vector_in l.clock) steps.now) }
{
    let mut vectors = Vec::with_capacity(alloc, steps.len())?;
    for step in steps {
        let stamps = vector_in(alloc, step)?;
        vectors.push(stamps)?;
    }
    Ok(vectors)
}

fn vector_in(alloc: Global, step: &Line) -> Result<Stamps, NoMemory>
    ensures { IfOk result (λ stamps. stamps ≡ vector_in step.now.clock) }
{
    match &step.clock {
        Clock::Number(_) => Ok(Stamps::new(alloc)),
        Clock::Vector(stamps) => stamps.copy(alloc),
    }
}
