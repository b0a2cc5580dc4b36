ghost use Rattle.std.specs.Prelude.{◌≡◌, ◌++◌, [], ◌∷◌, IfOk, OnOk, OnErr};
ghost use Rattle.base_clocks.specs.Stamps.{number, number_so_far};

use crate::stamp::Stamp;
use base_core::{NoMemory, Text};
use std::alloc::Global;
use std::marker::Model;

/// A clock of several nodes, seen as the list of what it says of each.
#[derive(Debug, Drop)]
pub struct Stamps {
    items: Vec<Stamp>,
}

impl Model for Stamps {
    ghost use Rattle.std.specs.Prelude.{List};
    ghost use Rattle.base_clocks.specs.declared.stamp.Stamp.{Stamp};
    ghost use Rattle.base_clocks.specs.StampCodes.{stamps_code};

    ghost Value = { List Stamp };

    ghost coded = { stamps_code };

    ghost view = { λ s. s.items.items };
}

impl Stamps {
    /// Nothing of any node.
    pub fn new(alloc: Global) -> Stamps
        ensures { result ≡ [] }
    {
        Stamps {
            items: Vec::new(alloc),
        }
    }

    /// Adds what is said of one more node. On a refusal the clock is as it was.
    pub fn push(&mut self, item: Stamp) -> Result<(), NoMemory>
        ensures pushed { OnOk result (self.new ≡ self.old ++ item ∷ []) }
        ensures kept { OnErr result (self.new ≡ self.old) }
    {
        self.items.push(item)?;
        Ok(())
    }

    /// What is said of each node.
    pub fn items(&self) -> &[Stamp]
        ensures { result.now ≡ self.now }
    {
        &self.items
    }

    /// An equal clock.
    pub fn copy(&self, alloc: Global) -> Result<Stamps, NoMemory>
        ensures { IfOk result (λ copy. copy ≡ self.now) }
    {
        copied(alloc, self.items())
    }

    /// The number that it gives the node.
    pub fn number(&self, node: &Text) -> u64
        ensures { result ≡ number self.now node.now }
    {
        number_in(self.items(), node)
    }
}

fn copied(alloc: Global, stamps: &[Stamp]) -> Result<Stamps, NoMemory>
    ensures { IfOk result (λ copy. copy ≡ stamps.now) }
{
    let mut copy = Stamps::new(alloc);
    for stamp in stamps {
        let node = stamp.node.copy()?;
        copy.push(Stamp {
            node,
            number: stamp.number,
        })?;
    }
    Ok(copy)
}

fn number_in(stamps: &[Stamp], node: &Text) -> u64
    ensures { result ≡ number stamps.now node.now }
{
    let mut greatest = 0;
    for stamp in stamps {
        greatest = with_stamp(greatest, stamp, node);
    }
    greatest
}

/// The greater of the number so far and the stamp's, if that is of the node.
fn with_stamp(greatest: u64, stamp: &Stamp, node: &Text) -> u64
    ensures { result ≡ number_so_far greatest stamp.now node.now }
{
    if stamp.node == *node {
        return greatest.max(stamp.number);
    }
    greatest
}
