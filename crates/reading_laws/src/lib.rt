//! Laws of what is read: a path, the files that tell and a text each give one outcome, the folder and the main module, the program and the configuration; and
//! each thing that a configuration leaves unchecked is told in one line. What a configuration gives stands in its own file.
#![tactic(auto)]

mod given_places_laws;
mod one_reading_laws;
mod telling_laws;

pub use given_places_laws::given_places_law;
pub use one_reading_laws::{no_refusal_laws, one_program_laws, reader_laws, strict_laws};
pub use telling_laws::unchecked_law;
