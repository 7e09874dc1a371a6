// What an element line tells.

// An element line: its kind, the number of its nodes, and the first of them, at most four, packed as the vertices of a cell are.
#[derive(Clone, Copy)]
pub struct Element {
    pub kind: usize,
    pub many: usize,
    pub packed: u64,
}
