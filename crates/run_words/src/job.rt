//! What the program is asked to do.

use base_core::{Names, Text};

/// How far an explanation may go: how many steps a line of the log may take, whether a step may stutter, and how many states
/// a layer may have.
#[derive(Clone, Copy, Debug, Drop)]
pub struct Options {
    pub within: u32,
    pub stutter: bool,
    pub limit: u32,
}

/// The files that are read, and how.
#[derive(Debug, Drop)]
pub struct Job {
    /// The path of the module's file.
    pub module: Text,
    /// The paths of the logs.
    pub logs: Names,
    /// The path of the configuration; without one it is `INIT Init NEXT Next`.
    pub config: Option<Text>,
    /// The operator whose steps alone may be unlogged; without one any step of Next may.
    pub silent: Option<Text>,
    pub options: Options,
    /// How many branches are told of at most where the log is not explained; none are where nothing was asked for.
    pub why: Option<u32>,
    /// How many near lines are told of at most where the log is not explained; none are where nothing was asked for.
    pub near: Option<u32>,
    /// Whether what no step of the log needs may be passed over in the files that are read.
    pub wide: bool,
    /// Whether lines of several logs may stand in each order that their clocks leave open.
    pub ties: bool,
}

/// A command with what it needs.
#[derive(Debug, Drop)]
pub enum Words {
    /// `validate [options] MODULE LOG..`
    Validate(Job),
    /// `check [options] --witness FILE MODULE LOG..`, with the path of the file of states.
    Check(Job, Text),
    /// `selfrun N`
    SelfRun(u32),
}
