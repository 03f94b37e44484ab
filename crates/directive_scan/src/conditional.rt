// The lines of conditionals, and what is wrong with one.

/// A branch of a conditional, or its end.
#[derive(Debug, Clone, Copy, PartialEq, Eq)]
pub enum BranchName {
    Elif,
    Else,
    Endif,
}

/// What is wrong with a file's conditionals (ISO C 6.10), each with its physical line.
#[derive(Debug, Clone, Copy, PartialEq, Eq)]
pub enum Malformed {
    /// An `#elif`, an `#else` or an `#endif` outside any conditional.
    WithoutIf { name: BranchName, at: u32 },
    /// An `#elif` or an `#else` behind the `#else` of its conditional.
    AfterElse { name: BranchName, at: u32 },
    /// The opening of a conditional that isn't ended: the last one in the file.
    Unended { at: u32 },
}
