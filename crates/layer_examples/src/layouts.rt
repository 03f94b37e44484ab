// Small outputs, and their text.
use crate::checks::check_text;
use base_types::Bytes;
use cpp_output::{LayError, Layout};
use pp_tokens::{Kind, Token, TokenRef};
use std::alloc::{AllocError, Global};
use std::process::Abort;

// A spelling, a physical line, and whether white space stands before it.
type Word<'a> = (&'a str, u32, bool);

#[derive(Clone, Copy, Drop)]
enum Step<'a> {
    Enter(&'a str),
    Back(&'a str, i64, u32),
    Mark(&'a str, i64, u32),
    Put(Word<'a>),
    Run(&'a [Word<'a>]),
    Pragma(u32, &'a [Word<'a>]),
}

use Step::{Back, Enter, Mark, Pragma, Put, Run};

fn tokens(alloc: Global, words: &[Word<'_>]) -> Result<Vec<Token>, AllocError> {
    let mut tokens = Vec::new(alloc);
    for &(text, line, space) in words {
        tokens.push(Token {
            kind: Kind::Ident,
            text: Bytes::copy_of(alloc, text.as_bytes())?,
            line,
            space,
        })?;
    }
    Ok(tokens)
}

fn take_step(alloc: Global, layout: &mut Layout, step: Step<'_>) -> Result<(), LayError> {
    match step {
        Enter(name) => layout.enter(name.as_bytes()),
        Back(name, shown, at) => layout.back(name.as_bytes(), shown, at),
        Mark(name, shown, at) => layout.mark(name.as_bytes(), shown, at),
        Put((text, line, space)) => layout.put(&TokenRef {
            kind: Kind::Ident,
            text: text.as_bytes(),
            line,
            space,
        }),
        Run(words) => layout.run(&tokens(alloc, words)?),
        Pragma(at, words) => layout.pragma(at, &tokens(alloc, words)?),
    }
}

fn laid_out(alloc: Global, steps: &[Step<'_>]) -> Result<Bytes, LayError> {
    let mut layout = Layout::begin(alloc, b"/w/a.c")?;
    for step in steps {
        take_step(alloc, &mut layout, *step)?;
    }
    layout.finish()
}

fn check(rt: &impl Abort, alloc: Global, steps: &[Step<'_>], text: &str) {
    match laid_out(alloc, steps) {
        Ok(bytes) => check_text(rt, text, bytes.as_slice(), text),
        Err(_) => rt.panic(text),
    }
}

#[test]
fn has_the_text_of_its_events(rt: HostRuntime) {
    check(&rt, rt.alloc(), &[], "# 1 \"/w/a.c\"\n");
    check(
        &rt,
        rt.alloc(),
        &[
            Enter("/w/b.h"),
            Run(&[("int", 1, true), ("y", 1, true), (";", 1, false)]),
            Back("/w/a.c", 2, 1),
            Run(&[("int", 2, true), ("x", 2, true), (";", 2, false)]),
        ],
        "# 1 \"/w/a.c\"\n# 1 \"/w/b.h\" 1\nint y;\n# 2 \"/w/a.c\" 2\nint x;\n",
    );
    // Spaces: none beside a tight spelling unless the source has one.
    check(
        &rt,
        rt.alloc(),
        &[
            Put(("f", 1, true)),
            Run(&[
                ("(", 1, false),
                ("a", 1, false),
                (",", 1, false),
                ("b", 1, true),
                (")", 1, false),
            ]),
            Put(("{", 1, true)),
            Run(&[
                ("x", 2, true),
                ("=", 2, false),
                ("y", 2, false),
                ("[", 2, false),
                ("1", 2, false),
                ("]", 2, false),
            ]),
        ],
        "# 1 \"/w/a.c\"\nf(a, b) {\nx = y[1]\n",
    );
}

#[test]
fn keeps_physical_lines(rt: HostRuntime) {
    // A forced file, a pragma over two physical lines, a #line, and a long comment.
    check(
        &rt,
        rt.alloc(),
        &[
            Enter("/w/f.h"),
            Back("/w/a.c", 1, 0),
            Put(("a", 1, true)),
            Pragma(
                3,
                &[
                    ("pack", 3, true),
                    ("(", 3, false),
                    ("1", 4, false),
                    (")", 4, false),
                ],
            ),
            Put(("b", 5, true)),
            Mark("/w/z.c", -7, 6),
            Put(("c", 8, true)),
            Put(("d", 7, true)),
            Put(("e", 9, true)),
        ],
        "# 1 \"/w/a.c\"\n# 1 \"/w/f.h\" 1\n# 1 \"/w/a.c\" 2\na\n\n#pragma pack(1)\n\nb\n# -7 \"/w/z.c\"\n\nc d\ne\n",
    );
    check(
        &rt,
        rt.alloc(),
        &[
            Put(("a", 1, true)),
            Put(("b", 7, true)),
            Back("/w/a.c", 9, u32::MAX),
            Put(("c", u32::MAX, true)),
        ],
        "# 1 \"/w/a.c\"\na\n\n\n\n\n\nb\n# 9 \"/w/a.c\" 2\nc\n",
    );
}
