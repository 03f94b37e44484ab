// The texts of diagnostics.
ghost use Rattle.std.specs.Prelude.{◌≡◌, ◌≤◌, ◌++◌, ◌∷◌, [], length, codes, IfOk, OnOk};
ghost use Rattle.std.specs.List.{flat_map};
ghost use Rattle.std.specs.Fmt.{decimal};
ghost use Rattle.base_types.specs.Limits.{diagnostic_limit};
ghost use Rattle.daemon_cpp.specs.Diagnostics.{NotFound, ErrorLine, BadPaste, quoted, branch_spelling, error_token, diagnostic_text, words_of};
ghost use Rattle.daemon_cpp.specs.parts.Problems.{complaint_of};

use base_types::Bytes;
use base_types::limits::DIAGNOSTIC_LIMIT;
use directive_scan::BranchName;
use pp_tokens::Token;
use std::alloc::{AllocError, Global};
use std::marker::Model;
use tree_model::shown;

// What is wrong.
#[derive(Clone, Copy, Drop)]
pub enum Problem<'a> {
    NoSource,
    TooLarge,
    OpenComment,
    WithoutIf(BranchName),
    AfterElse(BranchName),
    Unended,
    // A header by its name, in angles or else in quotes.
    NotFound(bool, &'a [u8]),
    TooNested,
    NoHeaderName,
    ErrorLine(&'a [Token]),
    UnknownDirective,
    BadName,
    BadParameters,
    PasteAtEnd,
    LoneHash,
    BadLine,
    NoIdentifier,
    BadProbe,
    BadExpression,
    ZeroDivisor,
    NotInteger,
    TooWide,
    TooDeep,
    // The name of a macro, and two spellings.
    WrongCount(&'a [u8]),
    UnendedCall(&'a [u8]),
    BadPaste(&'a [u8], &'a [u8]),
    DeepArguments,
    WorkLimit,
    TextLimit,
}

// The text of a diagnostic, of 1 to 65,536 bytes.
#[derive(Drop)]
pub struct Diagnostic {
    text: Vec<u8>,
}

impl Model for Diagnostic {
    ghost use Rattle.std.specs.Prelude.{ℕ, List, ◌≤◌, length};
    ghost use Rattle.base_types.specs.Limits.{diagnostic_limit};

    ghost Value = { List ℕ };

    ghost view = { λ d. d.text.items };

    ghost invariant = { λ d. (1 ≤ length d.text.items) × (length d.text.items ≤ diagnostic_limit) };
}

impl Diagnostic {
    // The diagnostic of a problem at a place and a physical line, 0 where it is the file as a whole.
    #[tactic(auto, unfolding(crate::specs::Diagnostics::diagnostic_text))]
    pub fn new(
        alloc: Global,
        place: &[u8],
        line: u32,
        problem: Problem<'_>,
    ) -> Result<Diagnostic, AllocError>
        ensures { IfOk result (λ d. d ≡ diagnostic_text (record { place = place.now; at = line; complaint = complaint_of problem.entry })) }
    {
        let mut text = shown(alloc, place)?;
        add_line(alloc, &mut text, line)?;
        add_words(alloc, &mut text, problem)?;
        text.truncate(DIAGNOSTIC_LIMIT);
        Ok(Diagnostic { text })
    }

    pub fn into_bytes(self) -> Bytes
        ensures value { result ≡ self }
        ensures fits { (1 ≤ length result) × (length result ≤ diagnostic_limit) }
    {
        Bytes::of(self.text)
    }
}

// Adds the line, between the place and the words.
fn add_line(alloc: Global, text: &mut Vec<u8>, line: u32) -> Result<(), AllocError>
    ensures { OnOk result (text.new.items ≡ text.old.items ++ (codes ":" ++ (decimal line ++ codes ": error: "))) }
{
    let words = format!(in alloc; ":{line}: error: ")?;
    text.extend_from_slice(words.as_bytes())
}

// Adds the words that say what is wrong.
fn add_words(alloc: Global, text: &mut Vec<u8>, problem: Problem<'_>) -> Result<(), AllocError>
    ensures { OnOk result (text.new.items ≡ text.old.items ++ words_of (complaint_of problem.entry)) }
{
    match problem {
        Problem::NoSource => text.extend_from_slice(b"cannot find source"),
        Problem::TooLarge => text.extend_from_slice(b"file too large"),
        Problem::OpenComment => text.extend_from_slice(b"unterminated comment"),
        Problem::WithoutIf(name) => add_branch(text, name, b" without #if"),
        Problem::AfterElse(name) => add_branch(text, name, b" after #else"),
        Problem::Unended => text.extend_from_slice(b"unterminated conditional"),
        Problem::NotFound(angle, name) => add_not_found(alloc, text, angle, name),
        Problem::TooNested => text.extend_from_slice(b"includes nested more than 200 deep"),
        Problem::NoHeaderName => text.extend_from_slice(b"no header name"),
        Problem::ErrorLine(tokens) => add_error_line(alloc, text, tokens),
        Problem::UnknownDirective => text.extend_from_slice(b"unknown directive"),
        Problem::BadName => text.extend_from_slice(b"bad macro name"),
        Problem::BadParameters => text.extend_from_slice(b"bad macro parameters"),
        Problem::PasteAtEnd => text.extend_from_slice(b"'##' at an end of a replacement"),
        Problem::LoneHash => text.extend_from_slice(b"'#' without a parameter"),
        Problem::BadLine => text.extend_from_slice(b"bad #line"),
        Problem::NoIdentifier => text.extend_from_slice(b"no identifier"),
        Problem::BadProbe => text.extend_from_slice(b"bad __has_include"),
        Problem::BadExpression => text.extend_from_slice(b"bad expression"),
        Problem::ZeroDivisor => text.extend_from_slice(b"division by zero"),
        Problem::NotInteger => text.extend_from_slice(b"not an integer constant"),
        Problem::TooWide => text.extend_from_slice(b"integer constant too wide"),
        Problem::TooDeep => text.extend_from_slice(b"expression nested too deep"),
        Problem::WrongCount(name) => { add_of(alloc, text, b"wrong number of arguments to ", name) }
        Problem::UnendedCall(name) => add_of(alloc, text, b"unterminated call of ", name),
        Problem::BadPaste(left, right) => add_paste(alloc, text, left, right),
        Problem::DeepArguments => text.extend_from_slice(b"arguments nested too deep"),
        Problem::WorkLimit => text.extend_from_slice(b"work limit"),
        Problem::TextLimit => text.extend_from_slice(b"text limit"),
    }
}

fn branch_name(name: BranchName) -> &'static [u8]
    ensures { result.now ≡ branch_spelling name }
{
    match name {
        BranchName::Elif => b"elif",
        BranchName::Else => b"else",
        BranchName::Endif => b"endif",
    }
}

// Adds what is wrong with a directive of this name.
fn add_branch(text: &mut Vec<u8>, name: BranchName, words: &[u8]) -> Result<(), AllocError>
    ensures { OnOk result (text.new.items ≡ text.old.items ++ (codes "#" ++ (branch_spelling name ++ words.now))) }
{
    text.push(b'#')?;
    text.extend_from_slice(branch_name(name))?;
    text.extend_from_slice(words)
}

// Adds an error directive's tokens behind its name.
fn add_error_line(alloc: Global, text: &mut Vec<u8>, tokens: &[Token]) -> Result<(), AllocError>
    ensures { OnOk result (text.new.items ≡ text.old.items ++ words_of (ErrorLine tokens.now)) }
{
    text.extend_from_slice(b"#error")?;
    for token in tokens {
        add_error_token(alloc, text, token)?;
    }
    Ok(())
}

fn add_error_token(alloc: Global, text: &mut Vec<u8>, token: &Token) -> Result<(), AllocError>
    ensures { OnOk result (text.new.items ≡ text.old.items ++ error_token token.now) }
{
    let spelling = shown(alloc, token.text.as_slice())?;
    if token.space {
        text.push(b' ')?;
    }
    text.extend_from_slice(&spelling)
}

fn add_not_found(
    alloc: Global,
    text: &mut Vec<u8>,
    angle: bool,
    name: &[u8],
) -> Result<(), AllocError>
    ensures { OnOk result (text.new.items ≡ text.old.items ++ words_of (NotFound angle name.now)) }
{
    let name = shown(alloc, name)?;
    text.extend_from_slice(b"cannot find ")?;
    if angle {
        add_between(text, b'<', &name, b'>')
    } else {
        add_between(text, b'"', &name, b'"')
    }
}

// Adds a name between two bytes.
fn add_between(text: &mut Vec<u8>, first: u8, name: &[u8], last: u8) -> Result<(), AllocError>
    ensures { OnOk result (text.new.items ≡ text.old.items ++ first ∷ (name.now ++ last ∷ [])) }
{
    text.push(first)?;
    text.extend_from_slice(name)?;
    Ok(text.push(last)?)
}

// Adds words, and a spelling between quotes.
fn add_of(
    alloc: Global,
    text: &mut Vec<u8>,
    words: &[u8],
    spelling: &[u8],
) -> Result<(), AllocError>
    ensures { OnOk result (text.new.items ≡ text.old.items ++ (words.now ++ quoted spelling.now)) }
{
    let spelling = shown(alloc, spelling)?;
    text.extend_from_slice(words)?;
    add_between(text, b'\'', &spelling, b'\'')
}

fn add_paste(alloc: Global, text: &mut Vec<u8>, left: &[u8], right: &[u8]) -> Result<(), AllocError>
    ensures { OnOk result (text.new.items ≡ text.old.items ++ words_of (BadPaste left.now right.now)) }
{
    add_of(alloc, text, b"bad paste of ", left)?;
    add_of(alloc, text, b" and ", right)
}
