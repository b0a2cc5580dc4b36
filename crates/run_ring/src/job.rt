ghost use Rattle.std.specs.Prelude.{◌≡◌, IfOk};
ghost use Rattle.run_words.specs.Words.{JobMeets};
ghost use Rattle.run_ring.specs.Ring.{ring_job};

use base_core::{Names, NoMemory, Text};
use run_words::{Job, Options};
use std::alloc::Global;

/// The job of the smoke test: `validate Ring.tla Ring.log`.
#[tactic(auto, using(crate::proofs::Meeting::meets_as_ring))]
pub fn ring_job(alloc: Global) -> Result<Job, NoMemory>
    ensures job { IfOk result (λ j. j ≡ ring_job) }
    ensures meets { IfOk result JobMeets }
{
    let job = made(alloc)?;
    Ok(job)
}

fn made(alloc: Global) -> Result<Job, NoMemory>
    ensures { IfOk result (λ j. j ≡ ring_job) }
{
    let mut logs = Names::new(alloc);
    logs.push(Text::from_text(alloc, "Ring.log")?)?;
    Ok(Job {
        module: Text::from_text(alloc, "Ring.tla")?,
        logs,
        config: None,
        silent: None,
        options: Options {
            within: 1,
            stutter: false,
            limit: 10_000,
        },
        why: None,
        near: None,
        wide: false,
        ties: false,
    })
}
