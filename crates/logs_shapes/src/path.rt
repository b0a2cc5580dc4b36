ghost use Rattle.std.specs.Prelude.{◌≡◌, option_map};
ghost use Rattle.serde_json.specs.View.{items_view, view};
ghost use Rattle.logs_shapes.specs.Parts.{path_in, path_of};
ghost use Rattle.logs_shapes.specs.Seen.{path_seen};

use crate::raw::RawPath;
use base_core::limits::MAX_KEYS;
use serde_json::Value as Json;

/// The path that is written so, or none where it has not the shape of one.
pub fn path_of(json: &Json) -> Option<RawPath<'_>>
    ensures { option_map path_seen result ≡ path_of (view json.now) }
{
    match json {
        Json::String(name) => Some(RawPath {
            name: name.as_str(),
            keys: &[],
        }),
        Json::Array(items) => path_in(items.as_slice()),
        _ => None,
    }
}

fn path_in(items: &[Json]) -> Option<RawPath<'_>>
    ensures { option_map path_seen result ≡ path_in (items_view items.now) }
{
    let (first, keys) = items.split_first()?;
    let name = first.as_str()?;
    if keys.len() > MAX_KEYS {
        return None;
    }
    Some(RawPath { name, keys })
}
