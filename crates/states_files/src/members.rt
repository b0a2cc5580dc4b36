ghost use Rattle.std.specs.Prelude.{◌≡◌, is_some, option_map};
ghost use Rattle.serde_json.specs.Find.{get_member};
ghost use Rattle.serde_json.specs.View.{members_view, view};

use serde_json::{Map, Value as Json};

/// What stands at the key, where it is there.
pub(crate) fn content<'a>(members: &'a Map<String, Json>, key: &str) -> Option<&'a Json>
    ensures { option_map (λ json. view json.now) result ≡ get_member key.now (members_view members.now.entries) }
{
    members.get(key)
}

/// Whether something stands at the key.
pub(crate) fn is_there(members: &Map<String, Json>, key: &str) -> bool
    ensures { result ≡ is_some (get_member key.now (members_view members.now.entries)) }
{
    match content(members, key) {
        Some(_) => true,
        None => false,
    }
}
