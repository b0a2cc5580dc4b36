ghost use Rattle.std.specs.Prelude.{◌≡◌, is_some, true};
ghost use Rattle.serde_json.specs.View.{items_view};
ghost use Rattle.logs_shapes.specs.Parts.{each_of, see_of, update_of};

use crate::clock::RawClock;
use serde_json::Value as Json;

/// What a line's keys are, borrowed from its JSON: each item of `updates` is an operation, by
/// `update_of`, and each of `sees` what is seen at a path, by `see_of`.
#[derive(Clone, Copy)]
pub struct Shape<'a> {
    pub init: bool,
    pub event: Option<&'a str>,
    pub args: &'a [Json],
    pub clock: Option<RawClock<'a>>,
    pub updates: &'a [Json],
    pub sees: &'a [Json],
    ghost updates_whole: { is_some (each_of update_of (items_view updates.now)) ≡ true },
    ghost sees_whole: { is_some (each_of see_of (items_view sees.now)) ≡ true },
}
