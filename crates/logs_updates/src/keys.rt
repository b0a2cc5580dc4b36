ghost use Rattle.std.specs.Prelude.{◌≡◌, ◌≤◌, ◌++◌, [], ◌∷◌, IfOk, IsOk, OnOk, OnErr, option_map};
ghost use Rattle.values_core.specs.Functions.{Applies};

use base_core::NoMemory;
use smallvec::SmallVec;
use std::alloc::Global;
use std::default::MadeWith;
use std::marker::Model;
use values_core::Value;

/// A key of a path, seen as its value.
#[derive(Drop)]
pub struct PathKey {
    value: Value,
}

impl Model for PathKey {
    ghost use Rattle.values_core.specs.Data.{Val};
    ghost use Rattle.values_core.specs.Tree.{val_code};

    ghost Value = { Val };

    ghost coded = { val_code };

    ghost view = { λ k. k.value };
}

impl PathKey {
    pub fn value(&self) -> &Value
        ensures { result.now ≡ self.now }
    {
        &self.value
    }

    /// The value of the function at this key; none where it is no function, or the key is outside its
    /// domain.
    pub fn at<'a>(&self, function: &'a Value) -> Option<&'a Value>
        ensures { Applies function.now self.now (option_map (λ v. v.now) result) }
    {
        function.apply(&self.value)
    }
}

/// What stands in the place of a key where there is none.
impl MadeWith<Global> for PathKey {
    fn made_with(_alloc: Global) -> PathKey {
        PathKey {
            value: Value::boolean(false),
        }
    }
}

/// The keys of a path in order, seen as the list of their values. Up to two of them lie in the path
/// itself, and take no memory of their own.
#[derive(Drop)]
pub struct Keys {
    items: SmallVec<PathKey, 2>,
}

impl Model for Keys {
    ghost use Rattle.std.specs.Prelude.{List};
    ghost use Rattle.values_core.specs.Data.{Val};
    ghost use Rattle.logs_updates.specs.PathCodes.{values_code};

    ghost Value = { List Val };

    ghost coded = { values_code };

    ghost view = { λ l. l.items.items };
}

impl Keys {
    pub fn new(alloc: Global) -> Keys
        ensures { result ≡ [] }
    {
        Keys {
            items: SmallVec::new(alloc),
        }
    }

    /// Room for this many keys, and none yet.
    pub fn with_capacity(alloc: Global, count: usize) -> Result<Keys, NoMemory>
        ensures empty { IfOk result (λ keys. keys ≡ []) }
        ensures inline { count ≤ 2 → IsOk result }
    {
        let items = SmallVec::with_capacity(alloc, count)?;
        Ok(Keys { items })
    }

    /// Adds a key at the end, or nothing where memory is wanting.
    pub fn push(&mut self, value: Value) -> Result<(), NoMemory>
        ensures pushed { OnOk result (self.new ≡ self.old ++ value ∷ []) }
        ensures kept { OnErr result (self.new ≡ self.old) }
    {
        self.items.push(PathKey { value })?;
        Ok(())
    }

    pub fn items(&self) -> &[PathKey]
        ensures { result.now ≡ self.now }
    {
        self.items.as_slice()
    }
}
