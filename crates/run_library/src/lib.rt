//! The call of the program: over the files and, where the words have `--wide`, with the modules of the library behind them.
#![tactic(auto)]

mod behind;
mod call;
mod paths;

pub use behind::WithLibrary;
pub use call::run_with_library;
