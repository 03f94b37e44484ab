// What is wrong with a list that is refused, in words.
use base_types::Bytes;
use bstr::ByteSlice;
use compile_list::{ListError, ListWhy, read_list, words_of_line};
use job_words::{WordError, read_words};
use std::alloc::{AllocError, Global};

/// The line of a list that is wrong, 0 for the list as a whole; the word at which that shows, if it does; and what is wrong.
#[derive(Drop)]
pub struct WrongList {
    pub line: u32,
    pub word: Option<Bytes>,
    pub why: &'static str,
}

impl WrongList {
    fn of(line: u32, why: &'static str) -> WrongList {
        WrongList {
            line,
            word: None,
            why,
        }
    }
}

/// What is wrong with a list; None where nothing is. An error is want of memory.
pub fn wrong_list(alloc: Global, list: &[u8]) -> Result<Option<WrongList>, AllocError> {
    let ListError { line, why } = match read_list(alloc, list) {
        Ok(_) => return Ok(None),
        Err(error) => error,
    };
    match why {
        ListWhy::Escape => Ok(Some(WrongList::of(line, "a `\\` at the end (escape)"))),
        ListWhy::Limit => Ok(Some(WrongList::of(line, limit(line)))),
        ListWhy::Words(_) | ListWhy::Output => wrong_job(alloc, line, line_at(list, line)),
        ListWhy::Memory => Err(AllocError),
    }
}

fn limit(line: u32) -> &'static str {
    match line {
        0 => "more than 16,777,216 bytes (limit)",
        _ => "more than 20,000 jobs (limit)",
    }
}

// A line of a list by its number, from 1.
fn line_at(list: &[u8], number: u32) -> &[u8] {
    for (place, line) in list.lines().enumerate() {
        if place + 1 == number as usize {
            return line;
        }
    }
    list
}

// What is wrong with the job of a line.
fn wrong_job(alloc: Global, line: u32, text: &[u8]) -> Result<Option<WrongList>, AllocError> {
    let Ok(words) = words_of_line(alloc, text) else {
        return Err(AllocError);
    };
    let [cwd, words @ ..] = words.as_slice() else {
        return Ok(None);
    };
    let cwd = cwd.as_slice();
    match read_words(alloc, cwd, words) {
        Ok(job) => at_word(
            alloc,
            line,
            Some(job.output()),
            "an earlier job's output (output)",
        ),
        Err(WordError::Memory) => Err(AllocError),
        Err(why) => at_word(
            alloc,
            line,
            word_at_fault(alloc, cwd, words, why),
            reason(why),
        ),
    }
}

fn at_word(
    alloc: Global,
    line: u32,
    word: Option<&[u8]>,
    why: &'static str,
) -> Result<Option<WrongList>, AllocError> {
    let word = match word {
        Some(word) => Some(Bytes::copy_of(alloc, word)?),
        None => None,
    };
    Ok(Some(WrongList { line, word, why }))
}

// The word at which a reason shows.
fn word_at_fault<'a>(
    alloc: Global,
    cwd: &'a [u8],
    words: &'a [Bytes],
    why: WordError,
) -> Option<&'a [u8]> {
    match why {
        WordError::Cwd => Some(cwd),
        WordError::NoSource | WordError::Limit | WordError::Memory => None,
        WordError::NoOperand => Some(words.last()?.as_slice()),
        WordError::TwoSources | WordError::Unknown | WordError::BadMacro => {
            last_of_first_wrong(alloc, cwd, words, why)
        }
    }
}

// The last of the fewest words, counted from the first, that give no job for a reason.
fn last_of_first_wrong<'a>(
    alloc: Global,
    cwd: &[u8],
    words: &'a [Bytes],
    why: WordError,
) -> Option<&'a [u8]> {
    for (place, word) in words.iter().enumerate() {
        if read_words(alloc, cwd, &words[..place + 1]).err() == Some(why) {
            return Some(word.as_slice());
        }
    }
    None
}

// A reason in words, with its number in the report.
fn reason(why: WordError) -> &'static str {
    match why {
        WordError::NoSource => "no source (words 1)",
        WordError::TwoSources => "a second source (words 2)",
        WordError::Unknown => "unknown option (words 3)",
        WordError::NoOperand => "no operand (words 4)",
        WordError::BadMacro => "no macro (words 5)",
        WordError::Limit => "more than 1,000 words, or a word of more than 4,096 bytes (words 6)",
        WordError::Cwd => "no working directory (words 7)",
        WordError::Memory => "out of memory",
    }
}
