use logs_updates::Line;
use names_terms::Spec;
use run_texts::Labels;

/// What near lines are told of: a line of a log beside a specification, and what a report names.
#[derive(Clone, Copy, Drop)]
pub(crate) struct Subject<'a> {
    pub labels: &'a Labels<'a>,
    pub spec: &'a Spec,
    pub line: &'a Line,
}
