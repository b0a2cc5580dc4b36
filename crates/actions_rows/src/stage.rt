use actions_meanings::Which;
use logs_updates::See;
use names_terms::Operators;
use states_core::Partial;

/// What an action is walked over: what is taken apart, Init or an action; the definitions and how many variables there are; the state before; and
/// what is seen of the state that is made. Init is walked over that state alone.
#[derive(Clone, Copy, Drop)]
pub struct Stage<'a> {
    pub which: Which,
    pub variables: usize,
    pub operators: &'a Operators,
    pub state: &'a Partial,
    pub sees: &'a [See],
}
