//! The limits of this project's profile: each stands here once.

/// The most members that a set, and the most pairs that a function, may have.
pub const MAX_MEMBERS: usize = 100_000;

/// The most levels that a value may have.
pub const MAX_VALUE_DEPTH: u8 = 32;

/// How many evaluations may stand inside one another.
pub const MAX_EVALUATIONS: u32 = 400;

/// The most bytes that the file of a module may have.
pub const MAX_MODULE_BYTES: usize = 1_048_576;

/// The most modules of a program, standard ones not counted.
pub const MAX_MODULES: usize = 32;

/// The most tokens that a text may have.
pub const MAX_TOKENS: usize = 200_000;

/// How many unfinished constructs a token may stand inside.
pub const MAX_UNFINISHED: u64 = 100;

/// The most brackets that are open in the head of a definition.
pub const MAX_HEAD_BRACKETS: usize = 100;

/// The most bytes that a configuration's file may have.
pub const MAX_CONFIGURATION_BYTES: usize = 65_536;

/// The most braces that stand inside each other in a configuration.
pub const MAX_BRACES: usize = 32;

/// How many levels and how many names are looked through for fairness.
pub const MAX_FAIR_DEPTH: u32 = 16;

/// The most bytes that all logs have together.
pub const MAX_LOG_BYTES: usize = 67_108_864;

/// The most steps that all logs have together.
pub const MAX_STEPS: u32 = 200_000;

/// The most bytes that a line of a log has, without its line feed.
pub const MAX_LINE_BYTES: usize = 1_048_576;

/// The most keys that a path has.
pub const MAX_KEYS: usize = 32;

/// The most nodes that a clock has.
pub const MAX_NODES: usize = 64;

/// How deep arrays and objects may nest in a line's object.
pub const MAX_JSON_DEPTH: usize = 126;

/// The most bytes that a file of states may have.
pub const MAX_STATES_BYTES: usize = 268_435_456;
