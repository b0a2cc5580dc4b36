ghost use Rattle.std.specs.Prelude.{◌≡◌, ◌<◌, ◌+◌, ◌^◌, IfOk, length};
ghost use Rattle.base_cuts.specs.Cuts.{taken, total, with_one};
ghost use Rattle.base_cuts.specs.Orders.{none_of};

use std::alloc::{AllocError, Global};
use std::hash::{Hash, Hasher};
use std::marker::Model;

/// How many lines of each log are taken, seen as the list of these numbers.
#[derive(Drop)]
pub struct Cut {
    counts: Vec<u32>,
}

impl Model for Cut {
    ghost use Rattle.std.specs.Prelude.{List, ℕ};

    ghost Value = { List ℕ };

    ghost view = { λ c. c.counts.items };
}

impl Cut {
    /// Nothing of so many logs.
    #[tactic(auto, using(crate::proofs::Starting::none_pushed))]
    pub(crate) fn none(alloc: Global, files: usize) -> Result<Cut, AllocError>
        ensures { IfOk result (λ cut. cut ≡ none_of files) }
    {
        let mut counts = Vec::with_capacity(alloc, files)?;
        for _ in 0..files {
            counts.push(0)?;
        }
        Ok(Cut { counts })
    }

    /// How many lines of the log of that number, from 0: none past the last log.
    pub fn taken(&self, file: usize) -> u32
        ensures { result ≡ taken self.now file }
    {
        match self.counts.get(file) {
            Some(count) => *count,
            None => 0,
        }
    }

    /// How many lines of all logs together.
    pub fn total(&self) -> usize
        requires { total self.now < 2 ^ 64 }
        ensures { result ≡ total self.now }
    {
        sum_of(self.counts.as_slice())
    }

    /// An equal cut.
    pub fn copy(&self, alloc: Global) -> Result<Cut, AllocError>
        ensures { IfOk result (λ cut. cut ≡ self.now) }
    {
        let counts = copied(alloc, self.counts.as_slice())?;
        Ok(Cut { counts })
    }

    /// One more line of that log.
    pub(crate) fn with_one(&self, alloc: Global, file: usize) -> Result<Cut, AllocError>
        requires inside { file < length self.now }
        requires room { taken self.now file + 1 < 2 ^ 32 }
        ensures { IfOk result (λ cut. cut ≡ with_one self.now file) }
    {
        let mut counts = copied(alloc, self.counts.as_slice())?;
        counts[file] += 1;
        Ok(Cut { counts })
    }
}

fn sum_of(counts: &[u32]) -> usize
    requires { total counts.now < 2 ^ 64 }
    ensures { result ≡ total counts.now }
{
    let mut sum = 0;
    for count in counts {
        sum += *count as usize;
    }
    sum
}

fn copied(alloc: Global, counts: &[u32]) -> Result<Vec<u32>, AllocError>
    ensures { IfOk result (λ made. made.items ≡ counts.now) }
{
    let mut made = Vec::with_capacity(alloc, counts.len())?;
    for count in counts {
        made.push(*count)?;
    }
    Ok(made)
}

impl PartialEq for Cut {
    ghost use Rattle.std.specs.Cmp.{partial_equiv_from_equiv};
    ghost use Rattle.std.specs.Cmp.Lexicographic.{lists_per};
    ghost use Rattle.std.proofs.lemmas.Cmp.{nat_eq_equiv};
    ghost use Rattle.base_cuts.specs.CutOrder.{cut_eq};

    ghost eq = { cut_eq };

    ghost laws = { lists_per (partial_equiv_from_equiv nat_eq_equiv) };

    fn eq(&self, other: &Cut) -> bool {
        self.counts == other.counts
    }
}

impl Eq for Cut {
    ghost use Rattle.std.specs.Cmp.Lexicographic.{lists_equiv};
    ghost use Rattle.std.proofs.lemmas.Cmp.{nat_eq_equiv};

    ghost laws = { lists_equiv nat_eq_equiv };
}

impl Hash for Cut {
    ghost use Rattle.std.proofs.Common.{ap};
    ghost use Rattle.base_cuts.specs.CutOrder.{cut_decides, cut_input};

    ghost hash_input = { cut_input };

    ghost respects_eq = { λ c d e. ap cut_input ((cut_decides c d).0 e) };

    fn hash<H: Hasher>(&self, state: &mut H) {
        self.counts.as_slice().hash(state)
    }
}
