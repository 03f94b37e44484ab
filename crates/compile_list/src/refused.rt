// Why a list is refused.
use job_words::WordError;
use thiserror::Error;

/// Why a list is refused. In a line, the first of these that holds: a `\` ends the line (`Escape`); 20,000 jobs came before
/// (`Limit`); its words give no job (`Words`); an earlier job has the output's name (`Output`). `Limit` is also why a list of
/// more than 16,777,216 bytes is refused. `Memory`: no memory was found.
#[derive(Clone, Copy, Debug, PartialEq, Eq, Drop, Error)]
pub enum ListWhy {
    #[error("escape")]
    Escape,
    #[error("limit")]
    Limit,
    #[error("words {}", word_number(.0))]
    Words(WordError),
    #[error("output")]
    Output,
    #[error("memory")]
    Memory,
}

/// A line of a list, counted from 1, and why it is refused; line 0 is the list as a whole.
#[derive(Clone, Copy, Debug, PartialEq, Eq, Drop, Error)]
#[error("list {line}: {why}")]
pub struct ListError {
    pub line: u32,
    pub why: ListWhy,
}

// The number of a reason in reports.
fn word_number(why: &WordError) -> u8 {
    match why {
        WordError::NoSource => 1,
        WordError::TwoSources => 2,
        WordError::Unknown => 3,
        WordError::NoOperand => 4,
        WordError::BadMacro => 5,
        WordError::Limit => 6,
        WordError::Cwd => 7,
        WordError::Memory => 8,
    }
}
