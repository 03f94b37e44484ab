// `#define` lines, the definitions that they give, and tables of them.
ghost use Rattle.std.specs.Prelude.{◌≤◌, length};

use base_types::Bytes;
use directive_scan::{Asked, PieceRef, Pieces};
use macro_defs::{DefineError, Definition, MacroTable, Run, read_shared};
use pp_tokens::{Lexed, lex};
use std::alloc::{AllocError, Global};
use std::process::Abort;
use std::sync::Arc;

// The name and the definition of a line.
fn defined(rt: &impl Abort, alloc: Global, line: &str) -> Result<(Bytes, Definition), DefineError> {
    if line.len() > 100 {
        rt.panic("a line is too long");
    }
    let pieces = pieces_of(alloc, line.as_bytes()).expect(rt, "no memory");
    match first_define(&pieces) {
        Some((file, from, end)) => read_shared(alloc, file, from, end),
        None => rt.panic("no macro is defined"),
    }
}

fn pieces_of(alloc: Global, line: &[u8]) -> Result<Pieces, AllocError>
    requires { length line.now ≤ 16777216 }
{
    let lexed = lex(alloc, line, false)?;
    Pieces::of(alloc, lexed)
}

fn first_define(pieces: &Pieces) -> Option<(&Arc<Lexed, Global>, usize, usize)> {
    for number in 0..pieces.len() {
        if let PieceRef::Line { what, .. } = pieces.piece(number) {
            if let Asked::Define(file, from, end) = what.asked() {
                return Some((file, from, end));
            }
        }
    }
    None
}

fn spelled(bytes: &[u8]) -> &str {
    std::str::from_utf8(bytes).unwrap_or("?")
}

// What a line gives: its name and its definition, or why it has none.
fn add_line(
    rt: &impl Abort,
    alloc: Global,
    text: &mut String,
    line: &str,
) -> Result<(), AllocError> {
    match defined(rt, alloc, line) {
        Ok((name, definition)) => add_named(text, &name, &definition),
        Err(e) => write!(text, "{e}"),
    }
}

fn add_named(text: &mut String, name: &Bytes, definition: &Definition) -> Result<(), AllocError> {
    text.push_str(spelled(name.as_slice()))?;
    add_definition(text, definition)
}

// The parameters of a function-like macro in parentheses, `+` behind them where it is variadic; a bar; and the
// replacement list, with a blank before each token that white space stands before.
fn add_definition(text: &mut String, definition: &Definition) -> Result<(), AllocError> {
    if let Some((params, variadic)) = definition.params() {
        add_params(text, params, variadic)?;
    }
    text.push('|')?;
    add_tokens(text, definition.body())
}

fn add_params(text: &mut String, params: &[Bytes], variadic: bool) -> Result<(), AllocError> {
    text.push('(')?;
    for name in params {
        write!(text, "{} ", spelled(name.as_slice()))?;
    }
    text.push_str(if variadic { "+)" } else { ")" })
}

fn add_tokens(text: &mut String, mut tokens: Run<'_>) -> Result<(), AllocError> {
    for _ in 0..tokens.len() {
        let Some(token) = tokens.next() else {
            break;
        };
        let space = if token.space { " " } else { "" };
        write!(text, "{space}{}", spelled(token.text))?;
    }
    Ok(())
}

// For each token of a line's replacement list the number of the parameter that it names, or `-`.
fn numbers(rt: &impl Abort, alloc: Global, line: &str, want: &str) {
    let definition = definition_of(rt, alloc, line);
    let mut text = String::new(alloc);
    add_numbers(&mut text, &definition).expect(rt, "no memory");
    check_same(rt, line, text.as_str(), want);
}

fn add_numbers(text: &mut String, definition: &Definition) -> Result<(), AllocError> {
    for place in 0..definition.body().len() {
        add_number(text, definition.parameter_at(place))?;
    }
    Ok(())
}

fn add_number(text: &mut String, number: Option<usize>) -> Result<(), AllocError> {
    match number {
        Some(number) => write!(text, " {number}"),
        None => text.push_str(" -"),
    }
}

// What a name stands for in a table: its definition, or `-`.
fn add_macro(text: &mut String, table: &MacroTable, name: &str) -> Result<(), AllocError> {
    match table.get(name.as_bytes()) {
        Some(definition) => add_definition(text, definition),
        None => text.push('-'),
    }
}

// The names of a table in their order, each with what it stands for.
fn add_entries(text: &mut String, table: &MacroTable) -> Result<(), AllocError> {
    for place in 0..table.len() {
        add_entry(text, table, place)?;
    }
    Ok(())
}

fn add_entry(text: &mut String, table: &MacroTable, place: usize) -> Result<(), AllocError> {
    match table.entry_at(place) {
        Some((name, Some(definition))) => {
            write!(text, "{}", std::str::from_utf8(name).unwrap_or("?"))?;
            add_definition(text, definition)?;
            text.push(';')
        }
        Some((name, None)) => write!(text, "{};", std::str::from_utf8(name).unwrap_or("?")),
        None => text.push('!'),
    }
}

// A `#define` line, an `#ifdef` line, the names of a table (`*`), or one of them, gives this.
fn gives(rt: &impl Abort, alloc: Global, table: &MacroTable, given: &str, want: &str) {
    let mut text = String::new(alloc);
    let added = if given.starts_with("#define") {
        add_line(rt, alloc, &mut text, given)
    } else if let Some(name) = given.strip_prefix("#ifdef ") {
        write!(text, "{}", table.is_defined(name.as_bytes()))
    } else if given == "*" {
        add_entries(&mut text, table)
    } else {
        add_macro(&mut text, table, given)
    };
    added.expect(rt, "no memory");
    check_same(rt, given, text.as_str(), want);
}

fn check_same(rt: &impl Abort, given: &str, text: &str, want: &str) {
    assert!(rt; text == want, "{given} gives {text}");
}

// Whether two lines give the same definition; that of the first one has a copy that is the same.
fn compare(rt: &impl Abort, alloc: Global, one: &str, other: &str, same: bool) {
    let definition = definition_of(rt, alloc, one);
    let is_copied = has_copy(rt, alloc, &definition);
    let is_same = is_defined_by(rt, alloc, &definition, other);
    assert!(rt; is_copied && is_same == same, "{one} and {other}");
}

fn has_copy(rt: &impl Abort, alloc: Global, definition: &Definition) -> bool {
    definition.copy(alloc).expect(rt, "no memory") == *definition
}

fn is_defined_by(rt: &impl Abort, alloc: Global, definition: &Definition, line: &str) -> bool {
    definition_of(rt, alloc, line) == *definition
}

fn definition_of(rt: &impl Abort, alloc: Global, line: &str) -> Definition {
    let (_, definition) = defined(rt, alloc, line).expect(rt, "no definition");
    definition
}

fn define(rt: &impl Abort, alloc: Global, table: &mut MacroTable, line: &str) {
    let (name, definition) = defined(rt, alloc, line).expect(rt, "no definition");
    table.define(name, definition).expect(rt, "no memory");
}

// Obeys each line, at a table that begins as the first one. `#define` and `#undef` lines change the table. What stands
// before ` => ` gives what stands behind it. The two lines around ` == ` give the same definition, and those around
// ` != ` do not. The tokens of the line before ` ->` name the parameters of the numbers behind it.
fn check(rt: &impl Abort, alloc: Global, lines: &str) {
    let mut table = MacroTable::initial(alloc).expect(rt, "no memory");
    for line in lines.lines() {
        obey(rt, alloc, &mut table, line);
    }
}

fn obey(rt: &impl Abort, alloc: Global, table: &mut MacroTable, line: &str) {
    if let Some((given, want)) = line.split_once(" => ") {
        gives(rt, alloc, table, given, want);
    } else if let Some((given, want)) = line.split_once(" ->") {
        numbers(rt, alloc, given, want);
    } else if let Some((one, other)) = line.split_once(" == ") {
        compare(rt, alloc, one, other, true);
    } else if let Some((one, other)) = line.split_once(" != ") {
        compare(rt, alloc, one, other, false);
    } else if let Some(name) = line.strip_prefix("#undef ") {
        table.undef(name.as_bytes());
    } else if !line.is_empty() {
        define(rt, alloc, table, line);
    }
}

#[test]
fn reads_macros(rt: HostRuntime) {
    check(&rt, rt.alloc(), READ);
}

const READ: &str = r#"
#define A => A|
#define A 1 => A| 1
#define A+1 => A|+1
#define f (x) => f| (x)
#define A #y => A| #y
#define A x ## y => A| x ## y
#define A __VA_ARGS__ => A| __VA_ARGS__
#define define 1 => define| 1
#define __FILE 1 => __FILE| 1

#define f() x => f()| x
#define f( ) x => f()| x
#define f(x)x => f(x )|x
#define f(x, y) x ## y => f(x y )| x ## y
#define f(x,...) #x => f(x __VA_ARGS__ +)| #x
#define f(...) # __VA_ARGS__ => f(__VA_ARGS__ +)| # __VA_ARGS__
#define f(a...) a => f(a +)| a
#define f(x, a...) #a %: x => f(x a +)| #a %: x
#define f(f) f(f) => f(f )| f(f)
#define f(x) (x)(y => f(x )| (x)(y
"#;

#[test]
fn refuses_macros(rt: HostRuntime) {
    check(&rt, rt.alloc(), REFUSED);
}

const REFUSED: &str = r#"
#define => Name
#define 1 2 => Name
#define "A" 2 => Name
#define (x) x => Name
#define defined 1 => Name
#define __VA_ARGS__ 1 => Name
#define __FILE__ 1 => Name
#define __LINE__ 1 => Name
#define __has_include 1 => Name
#define defined(x,x) ## => Name

#define f(x,x) x => Params
#define f(x,y,x) x => Params
#define f(x, => Params
#define f( => Params
#define f(1) 1 => Params
#define f(x y) x => Params
#define f(,) x => Params
#define f(x,) x => Params
#define f((x)) x => Params
#define f(...,x) x => Params
#define f(x...,y) x => Params
#define f(... x) x => Params
#define f(__VA_ARGS__) x => Params
#define f(__VA_ARGS__...) x => Params
#define f(a,a...) x => Params
#define f(x,x) ## => Params

#define A ##x => PasteEnd
#define A x## => PasteEnd
#define A ## => PasteEnd
#define A %:%: x => PasteEnd
#define A x %:%: => PasteEnd
#define f(x) ##x => PasteEnd
#define f(x) x## => PasteEnd
#define f(x) #y ## => PasteEnd
#define f(x) #y => Hash
#define f(x) # => Hash
#define f(x) %:y => Hash
#define f(x) # #x => Hash
#define f() #x => Hash
#define f(x) #x # => Hash
#define f(x) #1 => Hash
#define f(x) #__VA_ARGS__ => Hash
"#;

#[test]
fn tells_parameters(rt: HostRuntime) {
    check(&rt, rt.alloc(), NUMBERS);
}

const NUMBERS: &str = r#"
#define A x -> -
#define A ->
#define f() x -> -
#define f(x) ->
#define f(x, y) y + x z -> 1 - 0 -
#define f(x, y) #x ## y 'x' f -> - 0 - 1 - -
#define f(x, ...) __VA_ARGS__ x -> 1 0
#define f(a, b, c, d, e, f, g, h, i, j...) j i h x a b 2 -> 9 8 7 - 0 1 -
"#;

#[test]
fn compares_definitions(rt: HostRuntime) {
    check(&rt, rt.alloc(), COMPARED);
    compare(&rt, rt.alloc(), "#define A 1", "\n\n#define A 1", true);
}

const COMPARED: &str = r#"
#define A 1 == #define A 1
#define A 1 == #define B 1
#define A (1 - 1) != #define A (1-1)
#define A (1 - 1) == #define A /* */ (1  /* */ -  1)
#define A 1 != #define A 2
#define A 1 != #define A 1 1
#define A x != #define A 'x'
#define A != #define A()
#define f(x) x == #define f(x) x
#define f(x) x != #define f(y) y
#define f(x) 1 != #define f(y) 1
#define f(x) 1 != #define f(x, y) 1
#define f(x) 1 != #define f(x...) 1
#define f(...) 1 == #define f( ... ) 1
"#;

#[test]
fn tables_have_what_was_defined_last(rt: HostRuntime) {
    check(&rt, rt.alloc(), INITIAL);
    check(&rt, rt.alloc(), REDEFINED);
    check(&rt, rt.alloc(), UNDEFINED);
    check(&rt, rt.alloc(), DEFINED_AGAIN);
}

const INITIAL: &str = r#"
__STDC__ => | 1
__STDC_VERSION__ => | 201710L
__STDC_HOSTED__ => | 1
__DATE__ => | "Jan  1 1970"
__TIME__ => | "00:00:00"
__FILE__ => -
__LINE__ => -
A => -
 => -
#ifdef __FILE__ => true
#ifdef __LINE__ => true
#ifdef __has_include => true
#ifdef __STDC__ => true
#ifdef defined => false
#ifdef __VA_ARGS__ => false
#ifdef A => false
* => __STDC__| 1;__STDC_VERSION__| 201710L;__STDC_HOSTED__| 1;__DATE__| "Jan  1 1970";__TIME__| "00:00:00";
"#;

const REDEFINED: &str = r#"
#define A 1
#define B 2
#define A 3
A => | 3
B => | 2
C => -
__STDC__ => | 1
"#;

const UNDEFINED: &str = r#"
#define A 1
#define B 2
#undef A
#undef C
#undef __STDC__
A => -
B => | 2
C => -
__STDC__ => -
#ifdef A => false
#ifdef B => true
#ifdef __STDC__ => false
* => __STDC__;__STDC_VERSION__| 201710L;__STDC_HOSTED__| 1;__DATE__| "Jan  1 1970";__TIME__| "00:00:00";A;B| 2;
"#;

const DEFINED_AGAIN: &str = r#"
#define A 1
#define B 2
#undef A
#undef C
#undef __STDC__
#define C 4
#define A() 5
A => ()| 5
B => | 2
C => | 4
__STDC__ => -
"#;
