//! Calls of TLC's operators for assertions and for printing, spelled out: `Assert(p, t)` is `CASE p -> TRUE`, `Print(t, e)` and `TLCEval(e)` are e, and
//! `PrintT(t)` is TRUE.
#![tactic(auto)]

mod bound_names;
mod calls;
mod laws;
mod own_names;
mod program;
mod rows;
mod spelling;

pub use laws::spelling_laws;
pub use program::spelled_out;
