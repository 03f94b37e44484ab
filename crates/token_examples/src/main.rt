//! A program that lexes, or scans for directives, the bodies on its standard input, and prints each with what it gives;
//! `--help` has its words. Its stored run is a table of cases with the results that ISO C gives them.
#![tactic(auto)]

mod cases;
mod results;

use case_texts::{WordLines, run_program};
use cases::Bodies;
use std::process::ExitCode;

const HELP: &str = "usage: token_examples < CASES

Prints each line of CASES, and below it what it gives, each line of that behind
a `|`. A line is a case, or else empty or a comment, which begins with `#`.

tokens BODY     the tokens of each logical line: the letter of its kind, its
                physical line, and its spelling in parentheses, with a space in
                front where white space stands before it or it is the first;
                then `open` and its line, if a comment never ends. Kinds: i
                identifier, n number, c character constant, s string literal,
                p punctuator, h header name, o other
counts TIMES PIECE [before BACK] [behind FRONT]
                of a body that has PIECE so many times, at most 1000000: its
                logical lines, its tokens, and the physical line on which the
                last logical line with tokens begins, or 0; `open`, as above
directives BODY the tokens of its directives alone, as `tokens` has them
asking BODY     the same of those that may ask for a file, or tell of their own
pieces BODY     each piece: `run` and its tokens, or a directive's physical
                line, its name, and what it keeps
nesting BODY    what is wrong with its conditionals, or None
header BODY     the header name that the tokens of its first line give, or None
plain BODY      whether it is plain
simple NAME     whether it is simple
single TEXT     its kind, if it is exactly one token, or None

Behind `trigraphs ` a case has trigraphs read. `\\n`, `\\r`, `\\t`, `\\0`, `\\\\` and
`\\xNN` stand for bytes. Spaces within a spelling are printed as `\\x20`.

status: 0, 2 wrong words or a wrong line, 4 a failed read or write, 5 out of
memory; what is wrong has a line on standard error";

fn main(rt: HostRuntime) -> ExitCode {
    run_program(&rt, "token_examples", HELP, &mut WordLines(Bodies))
}
