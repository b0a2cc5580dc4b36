//! The commands of the program, and their options.

ghost use Rattle.std.specs.Prelude.{◌≡◌};
ghost use Rattle.run_words.specs.Parsers.{flag_id, id_of};

/// A command of the program.
#[derive(Clone, Copy, Debug, Drop)]
pub enum Command {
    Validate,
    Check,
    SelfRun,
}

/// An option that takes a value.
#[derive(Clone, Copy, Debug, Drop)]
pub enum Setting {
    Config,
    Within,
    Silent,
    Limit,
    Witness,
    Why,
    Near,
}

/// An option that takes no value.
#[derive(Clone, Copy, Debug, Drop)]
pub enum Flag {
    Stutter,
    Wide,
    Ties,
}

impl Flag {
    /// The name of the flag, without its dashes.
    pub(crate) fn id<'a>(self) -> &'a str
        ensures { result.now ≡ flag_id self }
    {
        match self {
            Flag::Stutter => "stutter",
            Flag::Wide => "wide",
            Flag::Ties => "ties",
        }
    }
}

impl Setting {
    /// The name of the option, without its dashes.
    pub(crate) fn id<'a>(self) -> &'a str
        ensures { result.now ≡ id_of self }
    {
        match self {
            Setting::Config => "config",
            Setting::Within => "within",
            Setting::Silent => "silent",
            Setting::Limit => "limit",
            Setting::Witness => "witness",
            Setting::Why => "why",
            Setting::Near => "near",
        }
    }
}
