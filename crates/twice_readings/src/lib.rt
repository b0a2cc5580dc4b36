//! Two readings of the same files come to the same program and configuration, and to specifications and logs that differ by the numbers of definitions alone. What
//! is read without the word `--wide` is read so with it. What is read and accepted is not refused, and two refusals of one run are one. What a
//! configuration gives stands in it. Beside each specification stands one of the same program without definitions that nothing means.
#![tactic(auto)]

mod given_places;
mod let_rows;
mod not_refused;
mod one_reading;
mod one_refusal;

pub use given_places::job_places_law;
pub use let_rows::let_rows_law;
pub use not_refused::not_refused_laws;
pub use one_reading::{reading_laws, strict_stays_wide};
pub use one_refusal::one_refusal_law;
