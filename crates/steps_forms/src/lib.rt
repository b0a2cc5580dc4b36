//! Whether Init and Next of a specification fix every variable, and whether the operator of the steps that no line shows has a form.
#![tactic(auto)]

mod forms;

pub use forms::whole_forms;
