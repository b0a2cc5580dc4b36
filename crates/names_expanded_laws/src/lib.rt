//! That what `load_modules` accepts is what `resolve` and its laws ask for, also with what its instances make.
#![tactic(auto)]

mod expansion_laws;
mod wide_loading_laws;

pub use expansion_laws::expanded_laws;
pub use wide_loading_laws::wide_load_laws;
