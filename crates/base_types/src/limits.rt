//! The limits of a run, each under one name; `specs/Limits.antt` has the same names in lower case. What goes beyond one is
//! refused with its own words or reason (docs/FORMATS.md, "Limits").

/// Bytes of a file's body.
pub const BODY_LIMIT: usize = 16_777_216;

/// Bytes of a compile list.
pub const LIST_LIMIT: usize = 16_777_216;

/// Jobs of a compile list.
pub const JOB_LIMIT: usize = 20_000;

/// Words of a job.
pub const JOB_WORDS_LIMIT: usize = 1_000;

/// Bytes of a word, and of a job's working directory.
pub const WORD_LIMIT: usize = 4_096;

/// Bytes of a path, and of a text that is located; a link's text is shorter.
pub const PATH_LIMIT: usize = 4_096;

/// Bytes of a component of a path.
pub const NAME_LIMIT: usize = 255;

/// Links followed for one text.
pub const LINK_LIMIT: u32 = 40;

/// Entries of a request.
pub const ENTRY_LIMIT: usize = 100_000;

/// Bytes of a request, and of an image.
pub const REQUEST_LIMIT: usize = 268_435_456;

/// Visits of a job: its files, one for each way in which searches find it.
pub const VISIT_LIMIT: usize = 50_000;

/// Choices of definitions of a computed directive, where the words name no budget.
pub const DEFAULT_BUDGET: u32 = 4_096;

/// The greatest budget.
pub const BUDGET_LIMIT: u32 = 65_536;

/// Units of work of one choice of definitions.
pub const CHOICE_WORK_LIMIT: u64 = 100_000;

/// Units of work of a job.
pub const WORK_LIMIT: u64 = 20_000_000;

/// Bytes of a job's text.
pub const TEXT_LIMIT: usize = 67_108_864;

/// Bytes of a diagnostic.
pub const DIAGNOSTIC_LIMIT: usize = 65_536;

/// How deep files include others.
pub const INCLUDE_DEPTH_LIMIT: usize = 200;

/// How deep macro arguments are expanded in others.
pub const ARGUMENT_DEPTH_LIMIT: u32 = 400;

/// How deep the expression of a condition nests.
pub const CONDITION_DEPTH_LIMIT: u8 = 200;

/// Clients of a run.
pub const CLIENT_LIMIT: usize = 64;

/// Hosts of a run.
pub const HOST_LIMIT: usize = 64;

/// Slots of a host.
pub const SLOT_LIMIT: u32 = 64;

/// The weight of the values that a memo keeps.
pub const MEMO_LIMIT: u64 = 4_000_000;

/// Numbers of an order of turns.
pub const ORDER_LIMIT: usize = 1_000_000;
