//! Described sets, and the list types of their parts.

ghost use Rattle.std.specs.Prelude.{◌≡◌, ◌++◌, [], ◌∷◌, OnErr, OnOk, length, map, option_copied, option_map, slice_get};
ghost use Rattle.values_sets.specs.DescribedSets.{NoFields, NoParts, fields_list, parts_list};
ghost use Rattle.values_sets.specs.DescribedViews.{field_item};

use base_core::NoMemory;
use std::alloc::Global;
use std::marker::Model;
use values_core::Value;

/// A set that is described and not listed, seen as the tree of its description.
#[cycle(described)]
#[derive(Drop)]
pub struct Described {
    pub node: DescribedNode,
}

/// How a set is described. Sets are those of Lamport, *Specifying Systems*.
#[cycle(described)]
#[derive(Drop)]
pub enum DescribedNode {
    Nat,
    Int,
    /// `STRING`.
    Strings,
    /// `BOOLEAN`.
    Booleans,
    /// `Seq(S)`.
    SeqOf(Box<Described>),
    /// `SUBSET S`.
    PowerOf(Box<Described>),
    /// `a..b`.
    Interval(i64, i64),
    /// `[A -> S]`, of which the domain is a value.
    Functions(Value, Box<Described>),
    /// `[h : S, k : T]`.
    Records(Fields),
    /// `S \X T`.
    Product(Parts),
    /// `S \cup T`.
    Union(Box<Described>, Box<Described>),
    /// `S \cap T`.
    Inter(Box<Described>, Box<Described>),
    /// `S \ T`.
    Minus(Box<Described>, Box<Described>),
    /// A set that is a value.
    Listed(Value),
}

/// A field of a set of records: its name, kept as a string value, and the set of its values.
#[cycle(described)]
#[derive(Drop)]
pub struct Field {
    pub name: Value,
    pub part: Described,
}

/// The fields of a set of records, in their order.
#[cycle(described)]
#[derive(Drop)]
pub struct Fields {
    items: Vec<Field>,
}

/// The parts of a set of tuples, in their order.
#[cycle(described)]
#[derive(Drop)]
pub struct Parts {
    items: Vec<Described>,
}

impl Model for Described {
    ghost use Rattle.values_sets.specs.DescribedSets.{Described as Seen};
    ghost use Rattle.values_sets.specs.DescribedSizes.{described_size};
    ghost use Rattle.values_sets.specs.DescribedCodes.{described_code};

    ghost Value = { Seen };

    ghost coded = { described_code };

    ghost use Rattle.values_sets.specs.DescribedViews.{node_view};

    ghost view = { λ a. node_view a.node };

    ghost size = { described_size };

    ghost use Rattle.values_sets.specs.DescribedFalls.{described_falls};

    ghost size_decreases = { λ a h. described_falls a.node };
}

impl Model for Fields {
    ghost use Rattle.values_sets.specs.DescribedSets.{Fields};
    ghost use Rattle.values_sets.specs.DescribedSizes.{fields_size};
    ghost use Rattle.values_sets.specs.DescribedCodes.{fields_code};

    ghost Value = { Fields };

    ghost coded = { fields_code };

    ghost use Rattle.values_sets.specs.DescribedViews.{fields_of};

    ghost view = { λ a. fields_of a.items.items };

    ghost size = { fields_size };

    ghost use Rattle.values_sets.specs.DescribedFalls.{fields_falls};

    ghost size_decreases = { λ a h. fields_falls a.items.items };
}

impl Model for Parts {
    ghost use Rattle.values_sets.specs.DescribedSets.{Parts};
    ghost use Rattle.values_sets.specs.DescribedSizes.{parts_size};
    ghost use Rattle.values_sets.specs.DescribedCodes.{parts_code};

    ghost Value = { Parts };

    ghost coded = { parts_code };

    ghost use Rattle.values_sets.specs.DescribedViews.{parts_of};

    ghost view = { λ a. parts_of a.items.items };

    ghost size = { parts_size };

    ghost use Rattle.values_sets.specs.DescribedFalls.{parts_falls};

    ghost size_decreases = { λ a h. parts_falls a.items.items };
}

impl Fields {
    /// No fields.
    pub fn new(alloc: Global) -> Fields
        ensures { result ≡ NoFields }
    {
        Fields {
            items: Vec::new(alloc),
        }
    }

    /// Adds one at the end. On a refusal the list is as it was.
    pub fn push(&mut self, item: Field) -> Result<(), NoMemory>
        ensures pushed { OnOk result (fields_list self.new ≡ fields_list self.old ++ (item.name, item.part) ∷ []) }
        ensures kept { OnErr result (self.new ≡ self.old) }
    {
        self.items.push(item)?;
        Ok(())
    }

    /// How many fields there are.
    pub fn len(&self) -> usize
        ensures { result ≡ length (fields_list self.now) }
    {
        self.items.len()
    }

    /// The field of that index, from 0.
    pub fn get(&self, i: usize) -> Option<&Field>
        ensures { option_map field_item (option_copied result) ≡ slice_get (fields_list self.now) i }
    {
        self.items.get(i)
    }

    /// The fields in their order.
    pub fn items(&self) -> &[Field]
        ensures { map field_item result.now ≡ fields_list self.now }
    {
        &self.items
    }
}

impl Parts {
    /// No parts.
    pub fn new(alloc: Global) -> Parts
        ensures { result ≡ NoParts }
    {
        Parts {
            items: Vec::new(alloc),
        }
    }

    /// Adds one at the end. On a refusal the list is as it was.
    pub fn push(&mut self, item: Described) -> Result<(), NoMemory>
        ensures pushed { OnOk result (parts_list self.new ≡ parts_list self.old ++ item ∷ []) }
        ensures kept { OnErr result (self.new ≡ self.old) }
    {
        self.items.push(item)?;
        Ok(())
    }

    /// How many parts there are.
    pub fn len(&self) -> usize
        ensures { result ≡ length (parts_list self.now) }
    {
        self.items.len()
    }

    /// The part of that index, from 0.
    pub fn get(&self, i: usize) -> Option<&Described>
        ensures { option_copied result ≡ slice_get (parts_list self.now) i }
    {
        self.items.get(i)
    }

    /// The parts in their order.
    pub fn items(&self) -> &[Described]
        ensures { result.now ≡ parts_list self.now }
    {
        &self.items
    }
}
