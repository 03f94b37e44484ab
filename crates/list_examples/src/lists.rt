// Lists, and the jobs that they give or the line at which they are refused.
use base_types::List;
use compile_list::read_list;
use job_words::Job;
use std::alloc::{AllocError, Global};
use std::process::Abort;

// A list, and a line for each of its jobs: the working directory and the compile words, each in brackets.
const JOBS: &[(&[u8], &str)] = &[
    (b"", ""),
    (b"# /w a.c\n\n \t \r\n#\\\n", ""),
    (b"/w a.c\n", "[/w][a.c]\n"),
    (
        b"\t/w  -c\ta.c \n# /w a.c\n/w b.c",
        "[/w][-c][a.c]\n[/w][b.c]\n",
    ),
    (
        b"/w a.c\r\n/w b.c\r\r\n/w c.c\r",
        "[/w][a.c]\n[/w][b.c\r]\n[/w][c.c\r]\n",
    ),
    (b"/w\\ x a\\\tb\\\\.c\n", "[/w x][a\tb\\.c]\n"),
    (
        b"\\/w \\#a.c -o\\  -\\I x\\\r.h\n",
        "[/w][#a.c][-o ][-I][x\r.h]\n",
    ),
];

#[test]
fn lists_give_jobs(rt: HostRuntime) {
    for (list, expected) in JOBS {
        check(&rt, rt.alloc(), list, expected);
    }
}

// A list, and the line at which it is refused and why.
const REFUSED: &[(&[u8], &str)] = &[
    (b"w a.c\n", "list 1: words 7"),
    (b"\n/w\n", "list 2: words 1"),
    (b"/w a.c #\n", "list 1: words 2"),
    (b"/w a.c -q\n", "list 1: words 3"),
    (b"/w a.c -o\n", "list 1: words 4"),
    (b"/w a.c\n/w ./a.c\n", "list 2: output"),
    (b"/w a.c\n/w b.c\n\n/v x/a.h\n", "list 4: output"),
    (b"/w a.c\\\n", "list 1: escape"),
    (b"w a.c\\\r\n", "list 1: escape"),
    (b"/w a.c\n/w b.c c.c\\", "list 2: escape"),
    (b"/w a.c b.c\n/w a.c\\", "list 1: words 2"),
];

#[test]
fn lists_are_refused(rt: HostRuntime) {
    for (list, expected) in REFUSED {
        check(&rt, rt.alloc(), list, expected);
    }
}

fn check<R: Abort>(rt: &R, alloc: Global, list: &[u8], expected: &str) {
    let text = told(alloc, list).expect(rt, "memory");
    assert!(rt; text.as_str() == expected, "{text} is not {expected}");
}

// What a list gives.
fn told(alloc: Global, list: &[u8]) -> Result<String, AllocError> {
    match read_list(alloc, list) {
        Ok(jobs) => told_jobs(alloc, &jobs),
        Err(error) => format!(in alloc; "{error}"),
    }
}

fn told_jobs(alloc: Global, jobs: &List<Job>) -> Result<String, AllocError> {
    let mut text = String::new(alloc);
    for job in jobs.as_slice() {
        tell_word(alloc, &mut text, job.setup().cwd())?;
        for word in job.words() {
            tell_word(alloc, &mut text, word.as_slice())?;
        }
        text.push_str("\n")?;
    }
    Ok(text)
}

fn tell_word(alloc: Global, text: &mut String, word: &[u8]) -> Result<(), AllocError> {
    let word = String::from_utf8_lossy(alloc, word)?;
    text.push('[')?;
    text.push_str(&word)?;
    text.push(']')
}

// Of a line's words few are kept, but its end is read.
#[test]
fn the_longest_list_is_one_line(rt: HostRuntime) {
    let alloc = rt.alloc();
    let mut list = Vec::new(alloc);
    for _ in 0..8_388_608 {
        list.extend_from_slice(b"a ").expect(&rt, "memory");
    }
    check(&rt, alloc, &list, "list 1: words 7");
    if let Some(last) = list.last_mut() {
        *last = b'\\';
    }
    check(&rt, alloc, &list, "list 1: escape");
    list.push(b'\n').expect(&rt, "memory");
    check(&rt, alloc, &list, "list 0: limit");
}

#[test]
fn the_most_jobs_are_read(rt: HostRuntime) {
    let alloc = rt.alloc();
    let mut list = String::new(alloc);
    for number in 0..20_000 {
        let line = format!(in alloc; "/ {number}.c\n").expect(&rt, "memory");
        list.push_str(&line).expect(&rt, "memory");
    }
    let jobs = read_list(alloc, list.as_bytes()).expect(&rt, "a list");
    assert!(rt; jobs.len() == 20_000);
    list.push_str("# b.c\n / a.c").expect(&rt, "memory");
    check(&rt, alloc, list.as_bytes(), "list 20002: limit");
}
