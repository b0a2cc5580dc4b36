ghost use Rattle.std.specs.Prelude.{◌≤◌, length};

use crate::key::Word;
use serde_json::Value as Json;

/// A path as it stands in a line: the name that it begins with, and the keys behind it, at most 32.
#[derive(Clone, Copy)]
pub struct RawPath<'a> {
    pub name: &'a str,
    pub keys: &'a [Json],
    ghost few: { length keys.now ≤ 32 },
}

/// An operation as it stands in a line: its word, its path, and the contents behind, of which there
/// are as many as the word asks for.
#[derive(Clone, Copy)]
pub struct RawUpdate<'a> {
    pub word: Word,
    pub path: RawPath<'a>,
    pub contents: &'a [Json],
}

/// A path with what is seen there, as it stands in a line.
#[derive(Clone, Copy)]
pub struct RawSee<'a> {
    pub path: RawPath<'a>,
    pub content: &'a Json,
}
