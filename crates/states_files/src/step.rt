ghost use Rattle.std.specs.Prelude.{◌≡◌};
ghost use Rattle.states_files.specs.Fields.{step_of};

/// By which step a state was reached.
#[derive(Clone, Copy, Debug, Drop)]
pub(crate) enum StepKind {
    Init,
    Silent,
    Line,
}

impl StepKind {
    /// The step that the text names, or none.
    pub(crate) fn named(text: &str) -> Option<StepKind>
        ensures { result ≡ step_of text.now }
    {
        if text == "init" {
            return Some(StepKind::Init);
        }
        if text == "silent" {
            return Some(StepKind::Silent);
        }
        if text == "line" {
            return Some(StepKind::Line);
        }
        None
    }
}
