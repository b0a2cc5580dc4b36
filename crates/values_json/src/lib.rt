//! Values of TLA+ from JSON, and back.
#![tactic(auto)]

mod laws;
mod making;
mod printing;
mod reading;
mod spelling;

pub use laws::json_laws;
pub use reading::from_json;
pub use spelling::push_json;
