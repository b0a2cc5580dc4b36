//! What an evaluator does where nothing is evaluated: the scene of a term, the values of bound names, changes within values, sets of fields and of
//! products, what UNCHANGED follows, functions that use themselves, operands, and what is made of their answers.
#![tactic(auto)]

mod answered;
mod bound_values;
mod changing;
mod field_sets;
mod lists;
mod operands;
mod products;
mod recursion;
mod scene;
mod unchanged;

pub use answered::{
    are_equivalent, denied, functions, infix_at, infix_on, interval_of, is_part, joined_at,
    joined_of, set_in, truth_value,
};
pub use bound_values::{
    BoundSet, advance, bound_set, expect_sets, has_combination, key_with, member_lists, slots_with,
    start,
};
pub use changing::{
    Layer, applied, before_primes, inside_at, place_behind, prime_count, primes_among, rebuilt,
    rebuilt_same, text_key,
};
pub use field_sets::{Part, part_of, records_of};
pub use lists::{boxed, named_pair, push, push_if};
pub use operands::{first_of, makes_set, only, only_term, others_of, place_at, places_of};
pub use products::{beside_place, operand_terms, product_of};
pub use recursion::{Recursion, applied_by, first_applied, sets_of_names, slots_at};
pub use scene::{Scene, definition, one_more, primed, slot, slots_and, variable, with_slots};
pub use unchanged::{behind, variable_stays, within};
