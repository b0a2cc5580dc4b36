/// What came of a row.
#[derive(Clone, Copy, Drop)]
pub enum Told {
    /// The copy is changed, and what was copied is as it was.
    Kept,
    /// What was copied is no longer as it was, or the copy is.
    Wrong,
    /// A request for memory failed, and both are as they were.
    NoMemory,
}

impl Told {
    /// What came of a call that was answered.
    pub fn of(is_kept: bool) -> Told {
        if is_kept { Told::Kept } else { Told::Wrong }
    }

    /// What came of a call for which memory was wanting.
    pub fn of_refused(is_kept: bool) -> Told {
        if is_kept { Told::NoMemory } else { Told::Wrong }
    }

    pub fn word(self) -> &'static str {
        match self {
            Told::Kept => "kept",
            Told::Wrong => "wrong",
            Told::NoMemory => "no memory",
        }
    }
}
