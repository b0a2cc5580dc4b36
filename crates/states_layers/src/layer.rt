ghost use Rattle.std.specs.Prelude.{OnOk};
ghost use Rattle.states_layers.specs.Found.{AddsNew, Merged};

use crate::member::Member;
use crate::sharing::SharedValues;
use indexmap::IndexMap;
use std::alloc::AllocError;

/// Adds the entry to the layer, with the index of the node that it was reached from, where it is not there.
pub fn add<E: Member>(layer: &mut IndexMap<E, u32>, entry: E, from: u32) -> Result<(), AllocError>
    ensures { OnOk result (AddsNew layer.old.entries entry from layer.new.entries) }
{
    layer.entry(entry)?.or_insert(from);
    Ok(())
}

/// Adds the entries of the list that the layer lacks, but none once the layer has more than `most`. Their values are shared where they can be.
pub fn merge<E: Member>(
    layer: &mut IndexMap<E, u32>,
    list: Vec<E>,
    from: u32,
    most: usize,
    values: &mut SharedValues,
) -> Result<(), AllocError>
    ensures { OnOk result (Merged layer.old.entries list.items from most layer.new.entries) }
{
    for entry in list {
        if layer.len() > most {
            continue;
        }
        if layer.contains_key(&entry) {
            continue;
        }
        let member = entry.shared(values)?;
        add(layer, member, from)?;
    }
    Ok(())
}
