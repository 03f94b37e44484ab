// What a text becomes.
ghost use Rattle.std.specs.Prelude.{◌≤◌, length};

use crate::nowhere::Nowhere;
use base_types::{Bytes, List};
use case_texts::{Texts, Wrong, spelled};
use directive_scan::{Asked, Directive, DirectiveRef, PieceRef, Pieces};
use macro_defs::{DefineError, MacroTable, names_macro, read_shared};
use macro_expand::{ExpandError, Mode, Presumed, RunError, Spelling, Work, expand, expand_for};
use pp_tokens::{Lexed, Token, lex};
use std::alloc::{AllocError, Global};
use std::sync::Arc;

/// What texts become.
#[derive(Drop)]
pub struct Expansions;

impl Texts for Expansions {
    fn result_of(&self, alloc: Global, way: &str, text: &[u8]) -> Result<String, Wrong> {
        match Way::named(way) {
            Some(way) => Ok(expansion_of(alloc, way, text)?),
            None => Err(Wrong::Form("no way to expand a text")),
        }
    }
}

// How a text is expanded, and what is shown of it.
#[derive(Clone, Copy, Drop)]
enum Way {
    Text,
    Lines,
    Condition,
    Nowhere,
    Work(u64),
}

impl Way {
    fn named(words: &str) -> Option<Way> {
        match words {
            "text" => Some(Way::Text),
            "lines" => Some(Way::Lines),
            "condition" => Some(Way::Condition),
            "nowhere" => Some(Way::Nowhere),
            _ => Some(Way::Work(words.strip_prefix("work ")?.parse().ok()?)),
        }
    }
}

// What a text becomes, whose `#define` and `#undef` lines are obeyed in order; those that define nothing are passed over.
fn expansion_of(alloc: Global, way: Way, body: &[u8]) -> Result<String, AllocError>
    requires { length body.now ≤ 16777216 }
{
    let pieces = pieces_of(alloc, body)?;
    expansion_of_pieces(alloc, way, &pieces)
}

fn pieces_of(alloc: Global, body: &[u8]) -> Result<Pieces, AllocError>
    requires { length body.now ≤ 16777216 }
{
    let lexed = lex(alloc, body, false)?;
    Pieces::of(alloc, lexed)
}

fn expansion_of_pieces(alloc: Global, way: Way, pieces: &Pieces) -> Result<String, AllocError> {
    let mut expansion = Expansion::new(alloc, way)?;
    expansion.add_pieces(alloc, pieces)?;
    Ok(expansion.text)
}

// A text in expansion: its macros, the work that is left, and what its runs became: the tokens of each, or its error.
#[derive(Drop)]
struct Expansion {
    way: Way,
    here: Presumed,
    table: MacroTable,
    work: Work,
    text: String,
}

impl Expansion {
    fn new(alloc: Global, way: Way) -> Result<Expansion, AllocError> {
        let name = Bytes::copy_of(alloc, b"/w/a.c")?;
        let left = match way {
            Way::Work(units) => units,
            _ => 20_000_000,
        };
        Ok(Expansion {
            way,
            here: Presumed { name, shift: 0 },
            table: MacroTable::initial(alloc)?,
            work: Work { left },
            text: String::new(alloc),
        })
    }

    fn add_pieces(&mut self, alloc: Global, pieces: &Pieces) -> Result<(), AllocError> {
        for number in 0..pieces.len() {
            self.add_piece(alloc, pieces.piece(number))?;
        }
        match self.way {
            Way::Work(_) => write!(self.text, ", {} left", self.work.left),
            _ => Ok(()),
        }
    }

    // Adds what a run becomes, or obeys a line.
    fn add_piece(&mut self, alloc: Global, piece: PieceRef<'_>) -> Result<(), AllocError> {
        match piece {
            PieceRef::Run(tokens) => self.add_run(alloc, tokens.to_list(alloc)?.as_slice()),
            PieceRef::Line { what, .. } => match what.asked() {
                Asked::Define(file, from, end) => self.define(alloc, file, from, end),
                Asked::Nothing => self.obey_other(alloc, what),
                _ => Ok(()),
            },
        }
    }

    // A line that is no definition.
    fn obey_other(&mut self, alloc: Global, line: DirectiveRef<'_>) -> Result<(), AllocError> {
        if let Directive::Undef(rest) = line.read(alloc)? {
            self.undefine(rest.as_slice());
        }
        Ok(())
    }

    fn define(
        &mut self,
        alloc: Global,
        file: &Arc<Lexed, Global>,
        from: usize,
        end: usize,
    ) -> Result<(), AllocError> {
        match read_shared(alloc, file, from, end) {
            Ok((name, definition)) => self.table.define(name, definition),
            Err(DefineError::Memory) => Err(AllocError),
            Err(_) => Ok(()),
        }
    }

    fn undefine(&mut self, rest: &[Token]) {
        if let Some(name) = rest.first() {
            if names_macro(&name.as_ref()) {
                self.table.undef(name.text.as_slice());
            }
        }
    }

    // Adds what a run becomes: its tokens, or its error.
    fn add_run(&mut self, alloc: Global, run: &[Token]) -> Result<(), AllocError> {
        match self.expanded(alloc, run) {
            Ok(tokens) => self.add_tokens(tokens.as_slice()),
            Err(e) => self.add_error(&e),
        }
    }

    fn expanded(&mut self, alloc: Global, run: &[Token]) -> Result<List<Token>, RunError> {
        let work = &mut self.work;
        let mode = match self.way {
            Way::Nowhere => {
                return expand_for(alloc, &self.table, &mut Nowhere, Mode::Text, run, work);
            }
            Way::Condition => Mode::Condition,
            _ => Mode::Text,
        };
        expand(alloc, &self.table, run, &self.here, mode, work).map_err(run_error)
    }

    fn add_tokens(&mut self, tokens: &[Token]) -> Result<(), AllocError> {
        for token in tokens {
            self.add_token(token)?;
        }
        Ok(())
    }

    // A token behind one space where its `space` is set, but for the first of all.
    fn add_token(&mut self, token: &Token) -> Result<(), AllocError> {
        let is_apart = token.space && !self.text.is_empty();
        let space = if is_apart { " " } else { "" };
        let spelling = spelled(&token.text);
        match self.way {
            Way::Lines => write!(self.text, "{space}{}:{spelling}", token.line),
            _ => write!(self.text, "{space}{spelling}"),
        }
    }

    fn add_error(&mut self, error: &RunError) -> Result<(), AllocError> {
        let text = &mut self.text;
        match error {
            RunError::Count { name, line } => add_named(text, "Count", &[name], *line),
            RunError::Unclosed { name, line } => add_named(text, "Unclosed", &[name], *line),
            RunError::Paste { left, right, line } => add_named(
                text,
                "Paste",
                &[left, right],
                *line,
            ),
            RunError::Deep { line } => add_named(text, "Deep", &[], *line),
            RunError::Work => text.push_str("!Work"),
            RunError::Presumed => text.push_str("!Presumed"),
            RunError::Memory => Err(AllocError),
        }
    }
}

// Adds an error that has spellings and a line: `!`, its name and what it has.
fn add_named(
    text: &mut String,
    error: &str,
    spellings: &[&Spelling],
    line: u32,
) -> Result<(), AllocError> {
    write!(text, "!{error}")?;
    for spelling in spellings {
        write!(text, " {}", spelled(spelling.as_bytes()))?;
    }
    write!(text, " {line}")
}

fn run_error(error: ExpandError) -> RunError {
    match error {
        ExpandError::Count { name, line } => RunError::Count { name, line },
        ExpandError::Unclosed { name, line } => RunError::Unclosed { name, line },
        ExpandError::Paste { left, right, line } => RunError::Paste { left, right, line },
        ExpandError::Deep { line } => RunError::Deep { line },
        ExpandError::Work => RunError::Work,
        ExpandError::Memory => RunError::Memory,
    }
}
