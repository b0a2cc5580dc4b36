ghost use Rattle.std.specs.Prelude.{◌≡◌, IfOk, is_some, map};
ghost use Rattle.std.specs.List.{list_all};
ghost use Rattle.values_json.specs.Reads.{Finds};
ghost use Rattle.logs_shapes.specs.Seen.{shape_seen};
ghost use Rattle.logs_lines.specs.Values.{EachOf, SeeReads, UpdateReads};

use crate::names::SpecNames;
use crate::parts::{are_known_sees, are_known_updates, read_sees, read_updates};
use base_core::NoMemory;
use logs_shapes::Shape;
use logs_updates::{Sees, Updates};
use std::alloc::Global;

/// The updates of a line with their values, or none where a part of one is no value.
pub(crate) fn updates_of<N: SpecNames>(
    alloc: Global,
    names: &N,
    shape: &Shape,
) -> Result<Option<Updates>, NoMemory>
    ensures { IfOk result (Finds (EachOf (UpdateReads (N.setting names.now)) (shape_seen shape.now).updates)) }
{
    read_updates(alloc, names, shape.updates)
}

/// What a line sees with its values, or none where a part of it is no value.
pub(crate) fn sees_of<N: SpecNames>(
    alloc: Global,
    names: &N,
    shape: &Shape,
) -> Result<Option<Sees>, NoMemory>
    ensures { IfOk result (Finds (EachOf (SeeReads (N.setting names.now)) (shape_seen shape.now).sees)) }
{
    read_sees(alloc, names, shape.sees)
}

/// Whether each update of a line begins with a variable's name.
pub(crate) fn knows_updates<N: SpecNames>(names: &N, shape: &Shape) -> bool
    ensures { result ≡ list_all (λ name. is_some ((N.setting names.now).variable name)) (map (λ u. u.path.name) (shape_seen shape.now).updates) }
{
    are_known_updates(names, shape.updates)
}

/// Whether each of what a line sees begins with a variable's name.
pub(crate) fn knows_sees<N: SpecNames>(names: &N, shape: &Shape) -> bool
    ensures { result ≡ list_all (λ name. is_some ((N.setting names.now).variable name)) (map (λ v. v.path.name) (shape_seen shape.now).sees) }
{
    are_known_sees(names, shape.sees)
}
