//! The operations of TLA+ on values. Each fault names the operand that is at fault, from 0, or the
//! whole term.
#![tactic(auto)]

mod functions;
mod integers;
mod listings;
mod products;
mod sequences;
mod sets;

pub use functions::{apply_at, domain, except_one, merge, single};
pub use integers::{add, at_most, div, division_law, less, modulo, mul, negate, power, sub};
pub use listings::{big_union, interval};
pub use products::{
    count_law, depth_law, function_set, powerset, product, record_set, records, tuples,
};
pub use sequences::{append, concat, head, len_of, subseq, tail};
pub use sets::{cardinality, intersect, minus, union};
pub use values_core::{EvalKind, OpFault, THE_TERM};
