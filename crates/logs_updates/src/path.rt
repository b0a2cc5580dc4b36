ghost use Rattle.std.specs.Prelude.{◌≡◌, ◌≤◌, [], length, IfOk, IsOk};

use crate::keys::{Keys, PathKey};
use base_core::NoMemory;
use states_core::VarId;
use std::alloc::Global;
use std::marker::Model;

/// A variable, and the keys that lead from its value to what stands at the path: at most 32. Most paths are whole variables, which take no room for keys.
#[derive(Drop)]
pub struct Path {
    node: PathNode,
}

/// A variable alone, or with the keys behind it. As one enum they take less room than side by side, and each item of each line has them.
#[derive(Drop)]
enum PathNode {
    Whole(VarId),
    Inner(VarId, Box<Keys>),
}

impl Model for Path {
    ghost use Rattle.std.specs.Prelude.{◌≤◌, length};
    ghost use Rattle.logs_updates.specs.Paths.{KeyPath};
    ghost use Rattle.logs_updates.specs.PathCodes.{path_code};
    ghost use Rattle.logs_updates.specs.PathNodes.{path_at};

    ghost Value = { KeyPath };

    ghost coded = { path_code };

    ghost view = { λ p. path_at p.node };

    ghost invariant = { λ p. length (path_at p.node).keys ≤ 32 };
}

impl Path {
    /// The path of a whole variable.
    pub fn whole(variable: VarId) -> Path
        ensures variable { result.variable ≡ variable }
        ensures keys { result.keys ≡ [] }
    {
        Path {
            node: PathNode::Whole(variable),
        }
    }

    /// The path of a variable with these keys, the outermost first.
    pub fn new(alloc: Global, variable: VarId, keys: Keys) -> Result<Path, NoMemory>
        requires { length keys ≤ 32 }
        ensures variable { IfOk result (λ path. path.variable ≡ variable) }
        ensures keys { IfOk result (λ path. path.keys ≡ keys) }
        ensures whole { keys ≡ [] → IsOk result }
    {
        if keys.items().is_empty() {
            return Ok(Path::whole(variable));
        }
        let keys = Box::new(alloc, keys)?;
        Ok(Path {
            node: PathNode::Inner(variable, keys),
        })
    }

    pub fn variable(&self) -> VarId
        ensures { result ≡ self.now.variable }
    {
        match &self.node {
            PathNode::Whole(variable) => *variable,
            PathNode::Inner(variable, _) => *variable,
        }
    }

    /// The keys, the outermost first.
    pub fn keys(&self) -> &[PathKey]
        ensures keys { result.now ≡ self.now.keys }
        ensures few { length result.now ≤ 32 }
    {
        match &self.node {
            PathNode::Whole(_) => &[],
            PathNode::Inner(_, keys) => keys.items(),
        }
    }
}
