// Reading compile words.
ghost use Rattle.std.specs.Prelude.{◌≡◌, ◌≤◌, ◌⊎◌, ◌==◌, nat_le, not, ◌++◌, Ok, Err, None, length, unwrap_or, IfOk, IfErr, IsTrue, MatchOption, OnOk};
ghost use Rattle.std.specs.List.{list_all};
ghost use Rattle.base_types.specs.Limits.{job_words_limit, word_limit};
ghost use Rattle.tree_model.specs.Walk as walks;
ghost use Rattle.job_words.specs.Words as compile;
ghost use Rattle.job_words.specs.Words.{add_once, each_once, is_directory, are_short, output_of, read_on, job_reading, stem, nothing, with_source};
ghost use Rattle.job_words.specs.parts.Told.{IsLast, IsReadOn, IsShortWord, HasTexts, NoneFrom, texts_given, told_word, at_any};

use crate::Job;
use crate::given::{Given, Taker};
use crate::job::Parts;
use crate::word::{Word, word_of};
use base_types::limits::{JOB_WORDS_LIMIT, WORD_LIMIT};
use base_types::{Bytes, List};
use search_path::Setup;
use std::alloc::{AllocError, Global};
use std::collections::HashSet;
use thiserror::Error;

/// Why words give no job. In this order: the working directory doesn't begin with `/`, or has a byte 0 or more than
/// 4,096 bytes (`Cwd`); there are more than 1,000 words, or one has more than 4,096 bytes (`Limit`); then the words
/// from left to right: a second source (`TwoSources`), a word that isn't known (`Unknown`), an option whose operand is
/// missing or empty (`NoOperand`), a macro that can't be defined or undefined so (`BadMacro`); and at last that no word is
/// a source (`NoSource`). `Memory`: no memory was found.
#[derive(Clone, Copy, Debug, PartialEq, Eq, Drop, Error)]
pub enum WordError {
    #[error("NoSource")]
    NoSource,
    #[error("TwoSources")]
    TwoSources,
    #[error("Unknown")]
    Unknown,
    #[error("NoOperand")]
    NoOperand,
    #[error("BadMacro")]
    BadMacro,
    #[error("Limit")]
    Limit,
    #[error("Cwd")]
    Cwd,
    #[error("Memory")]
    Memory,
}

impl From<AllocError> for WordError {
    ghost use Rattle.std.specs.Prelude.{◌≡◌};
    ghost use Rattle.job_words.specs.declared.reading.WordError.{WordError};

    ghost from_gives = { λ _ e. e ≡ WordError.Memory };

    fn from(_error: AllocError) -> WordError {
        WordError::Memory
    }
}

/// The job that a working directory and compile words give, or the first reason why they give none. Options are those
/// of GCC: `-I`, `-iquote`, `-isystem`, `-idirafter`, `-include`, `-D`, `-U` and `-o`, each with its operand in the same
/// word or the next one, and `-trigraphs`; `-c`, `-E`, `-S`, `-w`, `-pipe`, `-pthread`, `-nostdinc` and what begins with
/// `-O`, `-W` (but not `-Wp,`), `-g`, `-f`, `-m`, `-pedantic` or `-std=` have no effect.
///
/// The operand of `-D` is read as what stands behind `#define`, with its first `=` as a space and, where it has none, ` 1`
/// behind it. It is a `BadMacro` where this isn't one line that defines a macro (ISO C 6.10.3), as one with a line feed or
/// with a comment that never ends. The operand of `-U` is a `BadMacro` where it isn't one identifier that may be defined.
///
/// Time is proportional to the bytes of the words, as far as the hashes of directories and of parameters' names differ.
pub fn read_words(alloc: Global, cwd: &[u8], words: &[Bytes]) -> Result<Job, WordError>
    ensures job { IfOk result (λ job. job_reading cwd.now words.now ≡ Ok job) }
    ensures why { IfErr result (λ e. (e ≡ WordError.Memory) ⊎ (job_reading cwd.now words.now ≡ Err e)) }
{
    let words = copied(alloc, words)?;
    read_words_of(alloc, cwd, words)
}

/// The same, where the words are given away, so that the job keeps them without a copy.
#[tactic(auto, unfolding(crate::specs::Words::job_reading))]
pub fn read_words_of(alloc: Global, cwd: &[u8], words: List<Bytes>) -> Result<Job, WordError>
    ensures job { IfOk result (λ job. job_reading cwd.now words ≡ Ok job) }
    ensures why { IfErr result (λ e. (e ≡ WordError.Memory) ⊎ (job_reading cwd.now words ≡ Err e)) }
{
    if !is_directory(cwd) {
        return Err(WordError::Cwd);
    }
    if !are_short(words.as_slice()) {
        return Err(WordError::Limit);
    }
    let given = read_all(alloc, words.as_slice())?;
    job_of(alloc, cwd, words, given)
}

// A working directory begins with `/`, and has at most 4,096 bytes and no byte 0.
#[tactic(auto, unfolding(crate::specs::Words::is_directory))]
fn is_directory(cwd: &[u8]) -> bool
    ensures { result ≡ is_directory cwd.now }
{
    begins_at_root(cwd) && cwd.len() <= WORD_LIMIT && has_no_zero(cwd)
}

fn begins_at_root(text: &[u8]) -> bool
    ensures { result ≡ walks.is_absolute text.now }
{
    match text {
        [first, ..] => *first == b'/',
        [] => false,
    }
}

fn has_no_zero(text: &[u8]) -> bool
    ensures { result ≡ list_all (λ b. not (b == 0)) text.now }
{
    text.iter().all(|b| *b != 0)
}

#[tactic(auto, unfolding(crate::specs::Words::are_short))]
fn are_short(words: &[Bytes]) -> bool
    ensures test { result ≡ are_short words.now }
    ensures few { IsTrue result → length words.now ≤ job_words_limit }
    ensures short { IsTrue result → IsTrue (list_all (λ word. nat_le (length word) word_limit) words.now) }
{
    words.len() <= JOB_WORDS_LIMIT && are_texts(words)
}

// Each word has at most 4,096 bytes.
fn are_texts(words: &[Bytes]) -> bool
    ensures { result ≡ list_all (λ word. nat_le (length word) word_limit) words.now }
{
    words.iter().all(|word| word.len() <= WORD_LIMIT)
}

// What the words give, from left to right.
fn read_all(alloc: Global, words: &[Bytes]) -> Result<Given, WordError>
    requires { IsTrue (list_all (λ word. nat_le (length word) word_limit) words.now) }
    ensures given { IfOk result (λ given. read_on None words.now nothing ≡ Ok given) }
    ensures few { IfOk result (λ given. texts_given given ≤ length words.now) }
    ensures why { IfErr result (λ e. (e ≡ WordError.Memory) ⊎ (read_on None words.now nothing ≡ Err e)) }
{
    let mut given = Given::nothing(alloc);
    let mut waiting = None;
    for word in words {
        waiting = read_word(alloc, waiting, word.as_slice(), &mut given)?;
    }
    match waiting {
        None => Ok(given),
        Some(_) => Err(WordError::NoOperand),
    }
}

// Reads a word, as the operand of the option that waits for one, or else by itself; the option that waits behind it.
fn read_word(
    alloc: Global,
    waiting: Option<Taker>,
    word: &[u8],
    given: &mut Given,
) -> Result<Option<Taker>, WordError>
    requires { length word.now ≤ word_limit }
    ensures { IsReadOn (λ next. at_any next waiting word.now given.old) given.old given.new result }
{
    match waiting {
        Some(taker) => read_operand(alloc, taker, word, given),
        None => read_by_itself(alloc, word_of(word), given),
    }
}

// Reads a word that is no operand of an option in front of it.
fn read_by_itself(
    alloc: Global,
    word: Word<'_>,
    given: &mut Given,
) -> Result<Option<Taker>, WordError>
    requires { IsShortWord (told_word word) }
    ensures { IsReadOn (λ next. compile.at_word next (told_word word.entry) given.old) given.old given.new result }
{
    match word {
        Word::Takes(taker, text) => {
            if text.is_empty() {
                return Ok(Some(taker));
            }
            read_operand(alloc, taker, text, given)
        }
        Word::Trigraphs => {
            given.trigraphs = true;
            Ok(None)
        }
        Word::NoEffect => Ok(None),
        Word::Source(name) => read_source(alloc, name, given),
        Word::Unknown => Err(WordError::Unknown),
    }
}

// Reads an operand, which may not be empty.
fn read_operand(
    alloc: Global,
    taker: Taker,
    text: &[u8],
    given: &mut Given,
) -> Result<Option<Taker>, WordError>
    requires { length text.now ≤ word_limit }
    ensures { IsReadOn (λ next. compile.at_operand next taker text.now given.old) given.old given.new result }
{
    if text.is_empty() {
        return Err(WordError::NoOperand);
    }
    given.give(alloc, taker, text)?;
    Ok(None)
}

// Reads the source's name.
fn read_source(alloc: Global, name: &[u8], given: &mut Given) -> Result<Option<Taker>, WordError>
    ensures { IsReadOn (λ next. compile.at_source next name.now given.old.source given.old) given.old given.new result }
{
    if given.source.is_some() {
        return Err(WordError::TwoSources);
    }
    given.source = Some(Bytes::copy_of(alloc, name)?);
    Ok(None)
}

// The job of words that were read to their end.
fn job_of(alloc: Global, cwd: &[u8], words: List<Bytes>, given: Given) -> Result<Job, WordError>
    requires read { job_reading cwd.now words ≡ with_source cwd.now words given.source given }
    requires few { texts_given given ≤ job_words_limit }
    ensures job { IfOk result (λ job. job_reading cwd.now words ≡ Ok job) }
    ensures why { IfErr result (λ e. (e ≡ WordError.Memory) ⊎ (job_reading cwd.now words ≡ Err e)) }
{
    let Given {
        source,
        quote,
        directories,
        system,
        after,
        macros,
        forced,
        output,
        trigraphs,
    } = given;
    let Some(source) = source else {
        return Err(WordError::NoSource);
    };
    let output = output_or(alloc, output, source.as_slice())?;
    let bracket = chain(alloc, directories, system, after)?;
    let quote = each_once(alloc, quote.as_slice())?;
    let cwd = Bytes::copy_of(alloc, cwd)?;
    let setup = Setup::new(alloc, cwd, quote, bracket, trigraphs)?;
    let parts = Parts {
        words,
        source,
        setup,
        macros,
        forced,
        output,
    };
    Ok(Job::new(alloc, parts)?)
}

// A copy of words.
fn copied(alloc: Global, words: &[Bytes]) -> Result<List<Bytes>, AllocError>
    ensures { IfOk result (λ copy. copy ≡ words.now) }
{
    let mut copy = List::new(alloc);
    for word in words {
        copy.push(Bytes::copy_of(alloc, word.as_slice())?)?;
    }
    Ok(copy)
}

// The output's name that the words give, or else the one that comes from the source's name.
fn output_or(alloc: Global, output: Option<Bytes>, source: &[u8]) -> Result<Bytes, AllocError>
    ensures { IfOk result (λ name. name ≡ unwrap_or output (output_of source.now)) }
{
    match output {
        Some(name) => Ok(name),
        None => output_name(alloc, source),
    }
}

// The output's name by the source's: the last component of the source's name up to its last `.`, or all of it, and `.i`.
#[tactic(auto, unfolding(crate::specs::Words::output_of))]
fn output_name(alloc: Global, source: &[u8]) -> Result<Bytes, AllocError>
    ensures { IfOk result (λ name. name ≡ output_of source.now) }
{
    let mut name = Bytes::copy_of(alloc, stem(last_component(source)))?;
    name.extend(b".i".as_slice())?;
    Ok(name)
}

// What stands behind the last `/`.
fn last_component(text: &[u8]) -> &[u8]
    ensures { result.now ≡ walks.last_of (walks.components text.now) }
{
    match last_place(text, b'/') {
        Some(place) => &text[place + 1..],
        None => text,
    }
}

// A name up to its last `.`, or the whole of one that has none.
fn stem(name: &[u8]) -> &[u8]
    ensures { result.now ≡ stem name.now }
{
    match last_place(name, b'.') {
        Some(place) => &name[..place],
        None => name,
    }
}

// The last place of a byte in a text.
fn last_place(text: &[u8], byte: u8) -> Option<usize>
    ensures { MatchOption result (NoneFrom 0 byte text.now) (λ place. IsLast place byte text.now) }
{
    text.iter().rposition(|b| *b == byte)
}

// The directories of all names: the plain ones, then the system's, then those behind them, each once.
fn chain(
    alloc: Global,
    directories: List<Bytes>,
    system: List<Bytes>,
    after: List<Bytes>,
) -> Result<List<Bytes>, AllocError>
    ensures { IfOk result (λ list. list ≡ each_once (directories ++ (system ++ after))) }
{
    let mut all = directories.into_vec();
    all.append(&mut system.into_vec())?;
    all.append(&mut after.into_vec())?;
    each_once(alloc, &all)
}

// Texts in order, each at its first place alone.
fn each_once(alloc: Global, texts: &[Bytes]) -> Result<List<Bytes>, AllocError>
    ensures { IfOk result (λ list. list ≡ each_once texts.now) }
{
    let mut seen = HashSet::new(alloc);
    let mut list = List::new(alloc);
    for text in texts {
        add_once(alloc, &mut seen, &mut list, text.as_slice())?;
    }
    Ok(list)
}

// Adds a text to a list, where it isn't there already. `seen` has the texts of the list.
fn add_once<'a>(
    alloc: Global,
    seen: &mut HashSet<&'a [u8]>,
    list: &mut List<Bytes>,
    text: &'a [u8],
) -> Result<(), AllocError>
    requires { HasTexts seen.old list.old }
    ensures added { OnOk result (list.new ≡ add_once list.old text.now) }
    ensures seen { OnOk result (HasTexts seen.new list.new) }
{
    if seen.insert(text)? {
        list.push(Bytes::copy_of(alloc, text)?)?;
    }
    Ok(())
}
