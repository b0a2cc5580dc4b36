use base_core::Names;

/// What a report names: the specification's files, the logs and the variables, what is not checked, how many
/// lines there are, and how many states a layer may have.
#[derive(Clone, Copy, Drop)]
pub struct Labels<'a> {
    pub files: &'a Names,
    pub logs: &'a Names,
    pub variables: &'a Names,
    pub unchecked: &'a Names,
    pub lines: usize,
    pub limit: u32,
}
