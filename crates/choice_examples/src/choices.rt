// What a text may name.
ghost use Rattle.std.specs.Prelude.{◌≤◌, length};

use base_types::Bytes;
use case_texts::{Texts, Wrong, spelled};
use directive_scan::{Asked, HeaderName, PieceRef, Pieces};
use macro_defs::{DefineError, MacroTable, read_define};
use pp_tokens::{Token, Tokens, lex};
use std::alloc::{AllocError, Global};
use symbolic_expand::{DefSets, Names, SymError, names};

const FILE: &[u8] = b"/w/a.c";

/// What the runs of texts may name.
#[derive(Drop)]
pub struct Choices;

impl Texts for Choices {
    fn result_of(&self, alloc: Global, way: &str, text: &[u8]) -> Result<String, Wrong> {
        match Way::named(way) {
            Some(way) => Ok(choices_of(alloc, way, text)?),
            None => Err(Wrong::Form("no way to read a text")),
        }
    }
}

// How many lists of choices a text may have, whether its file has a `#line`, and whether it begins with the macros that every
// translation begins with.
#[derive(Clone, Copy, Drop)]
struct Way {
    budget: u32,
    has_line: bool,
    is_initial: bool,
}

impl Way {
    fn named(words: &str) -> Option<Way> {
        match words.strip_prefix("initial ") {
            Some(words) => Way::in_file(words, true),
            None => Way::in_file(words, false),
        }
    }

    fn in_file(words: &str, is_initial: bool) -> Option<Way> {
        let budget = words.strip_prefix("names ")?;
        match budget.strip_suffix(" #line") {
            Some(budget) => Way::with(budget, true, is_initial),
            None => Way::with(budget, false, is_initial),
        }
    }

    fn with(budget: &str, has_line: bool, is_initial: bool) -> Option<Way> {
        Some(Way {
            budget: budget.parse().ok()?,
            has_line,
            is_initial,
        })
    }

    // The definitions before the text.
    fn sets(&self, alloc: Global) -> Result<DefSets, AllocError> {
        if self.is_initial {
            let table = MacroTable::initial(alloc)?;
            DefSets::of_table(alloc, &table)
        } else {
            Ok(DefSets::new(alloc))
        }
    }
}

// What the runs of a text may name, each under the definitions before it.
fn choices_of(alloc: Global, way: Way, body: &[u8]) -> Result<String, AllocError>
    requires { length body.now ≤ 16777216 }
{
    let pieces = pieces_of(alloc, body)?;
    choices_of_pieces(alloc, way, &pieces)
}

fn pieces_of(alloc: Global, body: &[u8]) -> Result<Pieces, AllocError>
    requires { length body.now ≤ 16777216 }
{
    let lexed = lex(alloc, body, false)?;
    Pieces::of(alloc, lexed)
}

fn choices_of_pieces(alloc: Global, way: Way, pieces: &Pieces) -> Result<String, AllocError> {
    let mut reading = Reading {
        way,
        sets: way.sets(alloc)?,
        text: String::new(alloc),
    };
    reading.add_pieces(alloc, pieces)?;
    Ok(reading.text)
}

// The definitions so far, and what the runs so far may name.
#[derive(Drop)]
struct Reading {
    way: Way,
    sets: DefSets,
    text: String,
}

impl Reading {
    fn add_pieces(&mut self, alloc: Global, pieces: &Pieces) -> Result<(), AllocError> {
        for number in 0..pieces.len() {
            self.add_piece(alloc, pieces.piece(number))?;
        }
        Ok(())
    }

    fn add_piece(&mut self, alloc: Global, piece: PieceRef<'_>) -> Result<(), AllocError> {
        match piece {
            PieceRef::Run(tokens) => self.add_run(alloc, tokens.to_list(alloc)?.as_slice()),
            PieceRef::Line { what, .. } => match what.asked() {
                Asked::Define(file, from, end) => self.define(alloc, file.tokens(from, end)),
                _ => Ok(()),
            },
        }
    }

    fn define(&mut self, alloc: Global, rest: Tokens<'_>) -> Result<(), AllocError> {
        match read_define(alloc, rest) {
            Ok((name, definition)) => {
                self.sets.add(alloc, name.as_slice(), &definition)?;
                Ok(())
            }
            Err(DefineError::Memory) => Err(AllocError),
            Err(_) => Ok(()),
        }
    }

    // Adds what a run may name, unless it has no tokens.
    fn add_run(&mut self, alloc: Global, run: &[Token]) -> Result<(), AllocError> {
        if run.is_empty() {
            return Ok(());
        }
        if !self.text.is_empty() {
            self.text.push_str("; ")?;
        }
        let Way {
            budget,
            has_line,
            ..
        } = self.way;
        match names(alloc, &self.sets, run, FILE, has_line, budget) {
            Ok(names) => self.add_names(&names),
            Err(SymError::Memory) => Err(AllocError),
            Err(e) => write!(self.text, "!{e}"),
        }
    }

    fn add_names(&mut self, names: &Names) -> Result<(), AllocError> {
        self.add_headers(names.headers.as_slice())?;
        self.text.push_str("|")?;
        self.add_support(names.support.as_slice())
    }

    fn add_headers(&mut self, headers: &[HeaderName]) -> Result<(), AllocError> {
        for header in headers {
            let name = spelled(&header.name);
            if header.angle {
                write!(self.text, "<{name}> ")?;
            } else {
                write!(self.text, "\"{name}\" ")?;
            }
        }
        Ok(())
    }

    fn add_support(&mut self, support: &[Bytes]) -> Result<(), AllocError> {
        for name in support {
            write!(self.text, " {}", spelled(name))?;
        }
        Ok(())
    }
}
