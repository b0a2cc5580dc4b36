ghost use Rattle.std.specs.Prelude.{◌↔◌, IsTrue, option_map};
ghost use Rattle.logs_updates.specs.Changes.{Finds, LeadsTo};

use crate::keys::PathKey;
use crate::update::See;
use values_core::Value;

/// Whether the path is there in the variable's value, and what is seen stands at it.
pub fn seen(see: &See, value: &Value) -> bool
    ensures { IsTrue result ↔ LeadsTo see.now.path.keys value.now see.now.value }
{
    value.is_value();
    match leads_to(see.path.keys(), value) {
        Some(inner) => inner.same(&see.value),
        None => false,
    }
}

/// What the keys lead to from the value.
fn leads_to<'a>(keys: &[PathKey], value: &'a Value) -> Option<&'a Value>
    ensures { Finds (LeadsTo keys.now value.now) (option_map (λ v. v.now) result) }
{
    value.is_value();
    let Some((key, rest)) = keys.split_first() else {
        return Some(value);
    };
    let Some(inner) = key.at(value) else {
        return None;
    };
    leads_to(rest, inner)
}
