// The job that words give, as text.
use base_types::{Bytes, List};
use job_words::{Job, MacroWord, WordError, read_words};
use macro_defs::Definition;
use std::alloc::Global;
use std::process::Abort;

/// In the working directory `/w` each line of words gives this job, as `shown` writes it.
pub fn check_rows(rt: &impl Abort, alloc: Global, rows: &[(&str, &str)]) {
    for (line, expected) in rows {
        check_line(rt, alloc, b"/w", line, expected);
    }
}

/// In a working directory a line of words gives this job.
pub fn check_line(rt: &impl Abort, alloc: Global, cwd: &[u8], line: &str, expected: &str) {
    let words = words_of(rt, alloc, line);
    let text = given(rt, alloc, cwd, words.as_slice());
    check_text(rt, line, text.as_slice(), expected.as_bytes());
}

/// The text that a row gives is this one.
pub fn check_text(rt: &impl Abort, row: &str, text: &[u8], expected: &[u8]) {
    assert!(rt; text == expected, "{row:?}");
}

/// The job that words give, as `shown` writes it, or why they give none. It keeps the working directory and the words.
pub fn given(rt: &impl Abort, alloc: Global, cwd: &[u8], words: &[Bytes]) -> Vec<u8> {
    match read_words(alloc, cwd, words) {
        Ok(job) => {
            let copy = job.copy().expect(rt, "memory for a copy");
            check_kept(rt, &job, cwd, words);
            shown(rt, alloc, &copy)
        }
        Err(why) => reason(rt, alloc, why),
    }
}

fn check_kept(rt: &impl Abort, job: &Job, cwd: &[u8], words: &[Bytes]) {
    assert!(rt; job.setup().cwd() == cwd && job.words().len() == words.len());
    for (word, given) in job.words().iter().zip(words.iter()) {
        assert!(rt; word.as_slice() == given.as_slice());
    }
}

// No memory is no reason of the words.
fn reason(rt: &impl Abort, alloc: Global, why: WordError) -> Vec<u8> {
    assert!(rt; why != WordError::Memory);
    let text = format!(in alloc; "{why}").expect(rt, "memory for a text");
    text.into_bytes()
}

/// The words of a line, with blanks between them. `''` is the empty word.
pub fn words_of(rt: &impl Abort, alloc: Global, line: &str) -> List<Bytes> {
    let mut words = List::new(alloc);
    for word in line.split_ascii_whitespace() {
        add_word(rt, alloc, &mut words, if word == "''" { "" } else { word });
    }
    words
}

/// Adds a word.
pub fn add_word(rt: &impl Abort, alloc: Global, words: &mut List<Bytes>, word: &str) {
    let word = Bytes::copy_of(alloc, word.as_bytes()).expect(rt, "memory for a word");
    words.push(word).expect(rt, "memory for words");
}

// The source's and the output's name, and then, where there are some, the directories of quoted names, those of all
// names, the files that are included in front of the source, whether trigraphs are read, and the macros.
fn shown(rt: &impl Abort, alloc: Global, job: &Job) -> Vec<u8> {
    let mut text = Vec::new(alloc);
    add(rt, &mut text, job.source());
    add(rt, &mut text, b" to ");
    add(rt, &mut text, job.output());
    add_list(rt, &mut text, b", quote", job.setup().quote());
    add_list(rt, &mut text, b", bracket", job.setup().bracket());
    add_list(rt, &mut text, b", forced", job.forced());
    if job.setup().trigraphs() {
        add(rt, &mut text, b", trigraphs");
    }
    for word in job.macros() {
        add_macro(rt, &mut text, word);
    }
    text
}

fn add_list(rt: &impl Abort, text: &mut Vec<u8>, name: &[u8], items: &[Bytes]) {
    if !items.is_empty() {
        add(rt, text, name);
    }
    for item in items {
        add(rt, text, b" ");
        add(rt, text, item.as_slice());
    }
}

fn add_macro(rt: &impl Abort, text: &mut Vec<u8>, word: &MacroWord) {
    match word {
        MacroWord::Define(name, definition) => {
            add(rt, text, b", define ");
            add(rt, text, name.as_slice());
            add_definition(rt, text, definition);
        }
        MacroWord::Undef(name) => {
            add(rt, text, b", undef ");
            add(rt, text, name.as_slice());
        }
    }
}

// The parameters in parentheses, and behind `as` the replacement list, with a blank before each token that white space
// stands before.
fn add_definition(rt: &impl Abort, text: &mut Vec<u8>, definition: &Definition) {
    if let Some((params, variadic)) = definition.params() {
        add_params(rt, text, params, variadic);
    }
    add(rt, text, b" as");
    let mut body = definition.body();
    for _ in 0..body.len() {
        let Some(token) = body.next() else {
            break;
        };
        add(
            rt,
            text,
            if token.space {
                b" ".as_slice()
            } else {
                b"".as_slice()
            },
        );
        add(rt, text, token.text);
    }
}

fn add_params(rt: &impl Abort, text: &mut Vec<u8>, params: &[Bytes], variadic: bool) {
    add(rt, text, b"(");
    for name in params {
        add(rt, text, name.as_slice());
        add(rt, text, b" ");
    }
    add(
        rt,
        text,
        if variadic {
            b"...)".as_slice()
        } else {
            b")".as_slice()
        },
    );
}

/// Adds bytes to a text.
pub fn add(rt: &impl Abort, text: &mut Vec<u8>, bytes: &[u8]) {
    text.extend_from_slice(bytes)
        .expect(rt, "memory for a text");
}
