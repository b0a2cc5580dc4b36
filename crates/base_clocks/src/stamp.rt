use base_core::Text;

/// The number that a clock gives a node.
#[derive(Debug, Drop)]
pub struct Stamp {
    pub node: Text,
    pub number: u64,
}
