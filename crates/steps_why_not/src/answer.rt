use steps_why_branches::Why;

/// Why the first branches of a line end, in their order.
#[derive(Drop)]
pub struct Whys {
    pub list: Vec<Why>,
    /// Whether there are more branches than are listed.
    pub more: bool,
}
