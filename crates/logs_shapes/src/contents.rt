ghost use Rattle.std.specs.Prelude.{◌≡◌, option_map};
ghost use Rattle.serde_json.specs.View.{view};
ghost use Rattle.logs_shapes.specs.Keys.{content};
ghost use Rattle.logs_shapes.specs.Objects.{contents_in};

use crate::key::Key;
use serde_json::Value as Json;

/// What stands at the keys of a line, each where it is there.
#[derive(Clone, Copy)]
pub(crate) struct Contents<'a> {
    pub(crate) init: Option<&'a Json>,
    pub(crate) event: Option<&'a Json>,
    pub(crate) args: Option<&'a Json>,
    pub(crate) clock: Option<&'a Json>,
    pub(crate) update: Option<&'a Json>,
    pub(crate) see: Option<&'a Json>,
}

impl<'a> Contents<'a> {
    /// What stands at the key, where it is there.
    pub(crate) fn at(self, key: Key) -> Option<&'a Json>
        ensures { option_map (λ json. view json.now) result ≡ content key (contents_in self.entry) }
    {
        match key {
            Key::Init => self.init,
            Key::Event => self.event,
            Key::Args => self.args,
            Key::Clock => self.clock,
            Key::Update => self.update,
            Key::See => self.see,
        }
    }
}
