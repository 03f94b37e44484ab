// The steps of a memo's history.

/// What a publication came to. `New`: the value was kept. `Already`: the key had a value. `Full`: it had none, and the values
/// kept and this one would weigh more than the limit.
#[derive(Clone, Copy, Debug, PartialEq, Eq, Drop)]
pub enum Kept {
    New,
    Already,
    Full,
}

/// What a step of the history was: a look that found a value or none, or a publication.
#[derive(Clone, Copy, Debug, PartialEq, Eq, Drop)]
pub enum What {
    Hit,
    Miss,
    New,
    Already,
    Full,
}

/// One step of a history, made by one call. A key stands in it by its number, which counts keys from 0 as they are first
/// seen. The weight is that of the value published, and 0 for a look.
#[derive(Clone, Copy, Debug, PartialEq, Eq, Drop)]
pub struct MemoCall {
    pub client: u32,
    pub key: u64,
    pub what: What,
    pub weight: u64,
}
