//! The lines that the program writes: what it refuses, and the report of an answer.
#![tactic(auto)]

mod answers;
mod configs;
mod files;
mod forms;
mod given_states;
mod labels;
mod laws;
mod logs;
mod modules;
mod order;
mod places;
mod quoting;
mod resolved;
mod smoke;
mod spelled;
mod states;
mod verdicts;

pub use answers::{answer_text, log_name};
pub use configs::config_refusal;
pub use files::{device_text, missing_text, too_long_text, words_text};
pub use forms::form_refusal;
pub use given_states::states_refusal;
pub use labels::Labels;
pub use laws::text_laws;
pub use logs::{log_refusal, push_line};
pub use modules::{module_refusal, piece_refusal};
pub use order::in_order;
pub use places::{name_at, push_at};
pub use resolved::names_refusal;
pub use smoke::smoke_text;
pub use states::push_state;
pub use verdicts::verdict_text;
