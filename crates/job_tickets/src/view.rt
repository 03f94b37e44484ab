// What a seat knows, as plain data.
use std::alloc::Global;
use std::collections::LinkedList;

/// What a seat knows: the limit; how many seats were made, where it is the first, and else 0; how many seats it stands for; the
/// numbers that these drew; how often they got none; whether one of them found that all were drawn. No value of it is made.
pub struct View {
    pub limit: u64,
    pub made: u64,
    pub seats: u64,
    pub drawn: LinkedList<u64, Global>,
    pub nones: u64,
    pub all: bool,
}
