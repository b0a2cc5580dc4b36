/// An entry of a layer: after how many lines and silent steps, and the index of the node before it.
#[derive(Drop)]
pub struct Node<E> {
    pub line: u32,
    pub silents: u32,
    pub entry: E,
    pub from: u32,
}

/// From the entries of a layer by a silent step, or from those after a line by the step of the next.
#[derive(Clone, Copy, Drop)]
pub enum Move {
    Wait { line: u32, silents: u32 },
    Go { line: u32 },
}
