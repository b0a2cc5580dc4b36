//! Modules in which what can not be read is passed over, a unit at a time: a proof, an operator of the language that this project has not.
//! LOCAL is left away there, and an instance of a standard module without a name is as if it stood under EXTENDS. Only a module that is
//! refused as a whole is read so.
#![tactic(auto)]

mod alone;
mod forms;
mod laws;
mod loading;
mod parted;
mod reading;
mod unread;

pub use laws::{wide_laws, wide_program_laws};
pub use loading::{TextReader, load_modules};
pub use reading::read_wide;
pub use unread::Unread;
