ghost use Rattle.std.specs.Prelude.{◌≡◌, option_map};
ghost use Rattle.serde_json.specs.View.{members_view, view};
ghost use Rattle.logs_shapes.specs.Keys.{content};

use crate::key::Key;
use serde_json::{Map, Value as Json};

/// What stands at the key, where it is there.
pub(crate) fn content(members: &Map<String, Json>, key: Key) -> Option<&Json>
    ensures { option_map (λ json. view json.now) result ≡ content key (members_view members.now.entries) }
{
    members.get(key.text())
}
