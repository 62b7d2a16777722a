// Rows of numbers.

/// The numbers of a line, which is counted from 1. Where it has one field, the other two are 0.
#[derive(Clone, Copy, Debug, PartialEq, Eq)]
pub struct Row {
    pub line: u64,
    pub values: [i128; 3],
}
