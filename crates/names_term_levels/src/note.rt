use names_term_parts::{LevelFault, Slots};

/// What is known of a text: the slots that stand in it, those that stand under a prime, its first fault, and whether it means fairness.
#[derive(Drop)]
pub struct Note {
    pub occurs: Slots,
    pub primed: Slots,
    pub fault: Option<LevelFault>,
    pub fair: bool,
}
