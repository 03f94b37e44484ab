// Macros of words (GCC's manual, "Options Controlling the Preprocessor"; ISO C 6.10.3).
use crate::notation::check_rows;

// Words, and the job with what they define and undefine.
const MACROS: &[(&str, &str)] = &[
    // Operands in the same word and the next.
    ("-DA a.c", "a.c to a.i, define A as 1"),
    ("-D A a.c", "a.c to a.i, define A as 1"),
    ("-UA a.c", "a.c to a.i, undef A"),
    ("-U A a.c", "a.c to a.i, undef A"),
    // The first `=` parts a name and its replacement list.
    ("-DA= a.c", "a.c to a.i, define A as"),
    ("-DA=1=2 a.c", "a.c to a.i, define A as 1=2"),
    ("-DA==2 a.c", "a.c to a.i, define A as =2"),
    ("-DA/**/=2 a.c", "a.c to a.i, define A as 2"),
    ("-DA+=1 a.c", "a.c to a.i, define A as+ 1"),
    ("-DA# a.c", "a.c to a.i, define A as# 1"),
    // The operand is a last line without a newline, so a `\` at its end is spliced away (5.1.1.2).
    ("-DA=\\ a.c", "a.c to a.i, define A as"),
    // Macros with parameters.
    ("-DF(a)=a a.c", "a.c to a.i, define F(a ) as a"),
    ("-DF()=2 a.c", "a.c to a.i, define F() as 2"),
    ("-D F(a,b)=#a##b a.c", "a.c to a.i, define F(a b ) as #a##b"),
    ("-DF(x...) a.c", "a.c to a.i, define F(x ...) as 1"),
    // The order of the words is kept.
    (
        "-DB=2 -UA a.c -DA=1 -UB -DA=2",
        "a.c to a.i, define B as 2, undef A, define A as 1, undef B, define A as 2",
    ),
    ("-DA -DA a.c", "a.c to a.i, define A as 1, define A as 1"),
];

#[test]
fn defines_and_undefines(rt: HostRuntime) {
    check_rows(&rt, rt.alloc(), MACROS);
}

// Words with a macro that can't be defined or undefined, and the first reason why they give no job.
const REFUSED: &[(&str, &str)] = &[
    // No name, or one that names no macro of a program.
    ("-D=1 a.c", "BadMacro"),
    ("-D1x a.c", "BadMacro"),
    ("-D -q a.c", "BadMacro"),
    ("-Ddefined a.c", "BadMacro"),
    ("-D__FILE__=1 a.c", "BadMacro"),
    // Parameters and replacement lists.
    ("-DF(a a.c", "BadMacro"),
    ("-DF(a,a)=1 a.c", "BadMacro"),
    ("-DF(a)=#b a.c", "BadMacro"),
    ("-DA=##b a.c", "BadMacro"),
    // A comment that never ends.
    ("-DA=/* a.c", "BadMacro"),
    // No single name.
    ("-UA=1 a.c", "BadMacro"),
    ("-U 1 a.c", "BadMacro"),
    ("-Udefined a.c", "BadMacro"),
    ("-U/**/ a.c", "BadMacro"),
    // Operands that are missing.
    ("a.c -D", "NoOperand"),
    ("a.c -U", "NoOperand"),
    ("-D '' a.c", "NoOperand"),
    // The first reason.
    ("-D1 a.c b.c", "BadMacro"),
    ("a.c b.c -D1", "TwoSources"),
    ("-U1 -q", "BadMacro"),
    ("-q -U1", "Unknown"),
];

#[test]
fn refuses_macros(rt: HostRuntime) {
    check_rows(&rt, rt.alloc(), REFUSED);
}
