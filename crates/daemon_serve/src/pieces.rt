// How much a wire in memory gives at a time.
ghost use Rattle.std.specs.Prelude.{◌<◌, All};

// The greatest lengths of the pieces, used in a circle; none sets no bound.
#[derive(Drop)]
pub(crate) struct Pieces {
    lengths: Vec<u32>,
    next: usize,
    ghost positive: { All (λ n. 0 < n) lengths.items },
}

impl Pieces {
    pub(crate) fn new(lengths: Vec<u32>) -> Pieces
        requires { All (λ n. 0 < n) lengths.items }
    {
        Pieces { lengths, next: 0 }
    }

    // The bound of the next piece.
    pub(crate) fn next_bound(&mut self) -> usize
        ensures { 0 < result }
    {
        if self.lengths.is_empty() {
            return usize::MAX;
        }
        let at = self.next % self.lengths.len();
        self.next = at + 1;
        self.lengths[at] as usize
    }
}
