ghost use Rattle.std.specs.Prelude.{◌≡◌, MatchOption, false};
ghost use Rattle.std.specs.Str.{bytes_eq};
ghost use Rattle.logs_shapes.specs.Keys.{contents_of, key_text, word_of};

/// A key of a line, in the order in which the keys are tested.
#[derive(Clone, Copy, Debug, Drop, PartialEq, Eq)]
pub enum Key {
    Init,
    Event,
    Args,
    Clock,
    Update,
    See,
}

impl Key {
    /// The key that is spelled so, or none. What most lines have is tried first.
    pub(crate) fn named(text: &str) -> Option<Key>
        ensures { MatchOption result ((k : Key) → bytes_eq text.now (key_text k) ≡ false) (λ k. text.now ≡ key_text k) }
    {
        if text == "see" {
            return Some(Key::See);
        }
        if text == "update" {
            return Some(Key::Update);
        }
        if text == "event" {
            return Some(Key::Event);
        }
        if text == "args" {
            return Some(Key::Args);
        }
        if text == "clock" {
            return Some(Key::Clock);
        }
        if text == "init" {
            return Some(Key::Init);
        }
        None
    }

    /// The key as it stands in a line.
    pub fn text(self) -> &'static str
        ensures { result.now ≡ key_text self }
    {
        match self {
            Key::Init => "init",
            Key::Event => "event",
            Key::Args => "args",
            Key::Clock => "clock",
            Key::Update => "update",
            Key::See => "see",
        }
    }
}

/// The word that says what an operation does.
#[derive(Clone, Copy, Debug, Drop, PartialEq, Eq)]
pub enum Word {
    Set,
    Put,
    Drop,
    Add,
    Remove,
    Append,
}

impl Word {
    /// The word that is spelled so, or none.
    pub fn named(text: &str) -> Option<Word>
        ensures { result ≡ word_of text.now }
    {
        if text == "set" {
            return Some(Word::Set);
        }
        if text == "put" {
            return Some(Word::Put);
        }
        if text == "drop" {
            return Some(Word::Drop);
        }
        if text == "add" {
            return Some(Word::Add);
        }
        if text == "remove" {
            return Some(Word::Remove);
        }
        if text == "append" {
            return Some(Word::Append);
        }
        None
    }

    /// How many contents stand behind the path of such an operation.
    pub fn contents(self) -> usize
        ensures { result ≡ contents_of self }
    {
        match self {
            Word::Put => 2,
            _ => 1,
        }
    }
}
