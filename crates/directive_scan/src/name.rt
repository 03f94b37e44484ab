// The names of directives.
ghost use Rattle.std.specs.Prelude.{◌≡◌, ◌<◌, ◌≤◌, List, length, drop};
ghost use Rattle.pp_tokens.specs.declared.Token.{Token};
ghost use Rattle.directive_scan.specs.Directives.{directive_named, directive_of};
ghost use Rattle.directive_scan.specs.Gathered.{tokens_at_line};
ghost use Rattle.directive_scan.specs.Names.{directive_told};

use pp_tokens::Lexed;

/// What a directive is, by its name alone (ISO C 6.10). `Next` is `#include_next`, `Null` is a `#` alone, and `Unknown` is any
/// other name.
#[derive(Debug, Clone, Copy, PartialEq, Eq)]
pub enum DirectiveName {
    Include,
    Next,
    Define,
    Undef,
    If,
    Ifdef,
    Ifndef,
    Elif,
    Else,
    Endif,
    Line,
    Error,
    Warning,
    Pragma,
    Null,
    Unknown,
}

// The name of the directive on a line.
#[tactic(auto, unfolding(crate::specs::Directives::directive_of))]
pub fn name_at(file: &Lexed, line: usize) -> DirectiveName
    ensures { directive_of (drop 1 (tokens_at_line file.now line)) ≡ directive_told result (drop 2 (tokens_at_line file.now line)) }
{
    match file.token(line, 1) {
        Some(name) => name_of(name.text),
        None => DirectiveName::Null,
    }
}

// The directive's name with this spelling.
fn name_of(spelling: &[u8]) -> DirectiveName
    ensures { (ts : List Token) → directive_named spelling.now ts ≡ directive_told result ts }
{
    if spelling.len() < 6 {
        return short_name(spelling);
    }
    long_name(spelling)
}

#[tactic(auto, unfolding(crate::specs::Directives::directive_named))]
fn short_name(spelling: &[u8]) -> DirectiveName
    requires { length spelling.now < 6 }
    ensures { (ts : List Token) → directive_named spelling.now ts ≡ directive_told result ts }
{
    match spelling {
        b"endif" => DirectiveName::Endif,
        b"if" => DirectiveName::If,
        b"ifdef" => DirectiveName::Ifdef,
        b"else" => DirectiveName::Else,
        b"elif" => DirectiveName::Elif,
        b"undef" => DirectiveName::Undef,
        b"error" => DirectiveName::Error,
        b"line" => DirectiveName::Line,
        _ => DirectiveName::Unknown,
    }
}

fn long_name(spelling: &[u8]) -> DirectiveName
    requires { 6 ≤ length spelling.now }
    ensures { (ts : List Token) → directive_named spelling.now ts ≡ directive_told result ts }
{
    if spelling == b"define".as_slice() {
        DirectiveName::Define
    } else if spelling == b"ifndef".as_slice() {
        DirectiveName::Ifndef
    } else if spelling == b"include".as_slice() {
        DirectiveName::Include
    } else if spelling == b"pragma".as_slice() {
        DirectiveName::Pragma
    } else if spelling == b"warning".as_slice() {
        DirectiveName::Warning
    } else if spelling == b"include_next".as_slice() {
        DirectiveName::Next
    } else {
        DirectiveName::Unknown
    }
}
