// Sheets as an analysis needs them.
use crate::computed::Computed;
use crate::definitions::{copies, definitions_in, definitions_of_body};
use crate::file_body::FileBody;
use base_types::{Bytes, List};
use directive_scan::Pieces;
use macro_defs::Definition;
use search_path::Visit;
use std::alloc::{AllocError, Global};
use std::marker::Model;
use std::sync::Arc;
use tree_model::Located;

/// What a file may define and ask for, whatever its conditionals say, as an analysis needs it: what it weighs in a memo isn't
/// counted. Copies share what they hold.
#[derive(Drop)]
pub struct Unweighed {
    contents: Arc<Contents, Global>,
}

// What a sheet and its copies hold.
#[derive(Drop)]
struct Contents {
    defs: Defs,
    parts: Parts,
}

// The definitions of a file: as they are, or the file, from which they are read where they are asked for: its directives, or
// its bytes, with trigraphs or without.
#[derive(Drop)]
pub enum Defs {
    Read(List<(Bytes, Definition)>),
    Unread(Pieces),
    Unlexed(FileBody, bool),
}

// What a sheet has but for its definitions.
#[derive(Drop)]
pub struct Parts {
    pub plain: List<(Visit, Located)>,
    pub probes: List<Located>,
    pub computed: List<Computed>,
    pub has_line: bool,
}

impl Parts {
    ghost use Rattle.std.specs.Prelude.{◌≡◌};
    ghost use Rattle.sheet_build.specs.parts.Stored.{sheet_of_parts};
    ghost use Rattle.sheet_build.specs.Sheet.{empty_sheet};

    // Those of a file without directives.
    pub fn new(alloc: Global) -> Parts
        ensures { sheet_of_parts result ≡ empty_sheet }
    {
        Parts {
            plain: List::new(alloc),
            probes: List::new(alloc),
            computed: List::new(alloc),
            has_line: false,
        }
    }
}

impl Model for Unweighed {
    ghost use Rattle.std.specs.Arc.{arc_value};
    ghost use Rattle.sheet_build.specs.Sheet.{SheetData};
    ghost use Rattle.sheet_build.specs.parts.Stored.{defs_seen, sheet_with, AreReadable};

    ghost Value = { SheetData };

    ghost view = { λ s. sheet_with (defs_seen (arc_value s.contents).defs) (arc_value s.contents).parts };

    ghost invariant = { λ s. AreReadable (arc_value s.contents).defs };
}

impl Unweighed {
    ghost use Rattle.std.specs.Prelude.{◌≡◌, ◌≤◌, length, map, IfOk};
    ghost use Rattle.std.specs.List.{filter_map};
    ghost use Rattle.base_types.specs.Limits.{body_limit};
    ghost use Rattle.pp_tokens.specs.Lines.{lexed};
    ghost use Rattle.directive_scan.specs.Directives as scanning;
    ghost use Rattle.sheet_build.specs.Sheet.{named_pair, definition_in};
    ghost use Rattle.sheet_build.specs.parts.Stored.{defs_seen, sheet_with, AreReadable};

    // The sheet of a file with these bytes: its definitions, for which it isn't lexed before they are asked for, and these parts.
    pub(crate) fn unlexed(
        alloc: Global,
        body: FileBody,
        trigraphs: bool,
        parts: Parts,
    ) -> Result<Unweighed, AllocError>
        requires { length body ≤ body_limit }
        ensures { IfOk result (λ sheet. sheet ≡ sheet_with (filter_map definition_in (scanning.pieces (lexed trigraphs body).lines)) parts) }
    {
        Unweighed::with(alloc, Defs::Unlexed(body, trigraphs), parts)
    }

    // The sheet that keeps its definitions so, with these parts.
    pub(crate) fn with(alloc: Global, defs: Defs, parts: Parts) -> Result<Unweighed, AllocError>
        requires { AreReadable defs }
        ensures { IfOk result (λ sheet. sheet ≡ sheet_with (defs_seen defs) parts) }
    {
        Ok(Unweighed {
            contents: Arc::new(alloc, Contents { defs, parts })?,
        })
    }

    /// A copy, which takes no memory; it is refused only where there are 2^63 of them.
    pub fn copy(&self) -> Result<Unweighed, AllocError>
        ensures { IfOk result (λ copy. copy ≡ self.now) }
    {
        Ok(Unweighed {
            contents: Arc::try_clone(&self.contents)?,
        })
    }

    // What it has but for its definitions.
    pub(crate) fn parts(&self) -> &Parts
        ensures { sheet_with self.now.defs result.now ≡ self.now }
    {
        &self.contents.parts
    }

    /// The definitions of its `#define` lines that are well formed, in order (ISO C 6.10.3). The only error is want of memory.
    pub fn defs(&self, alloc: Global) -> Result<List<(Bytes, Definition)>, AllocError>
        ensures { IfOk result (λ defs. map named_pair defs ≡ self.now.defs) }
    {
        match &self.contents.defs {
            Defs::Read(defs) => copies(alloc, defs.as_slice()),
            Defs::Unread(pieces) => definitions_in(alloc, pieces),
            Defs::Unlexed(body, trigraphs) => definitions_of_body(
                alloc,
                body.as_slice(),
                *trigraphs,
            ),
        }
    }

    /// The files found by its includes whose names are written, in order.
    pub fn plain(&self) -> &[(Visit, Located)]
        ensures { result.now ≡ self.now.plain }
    {
        self.contents.parts.plain.as_slice()
    }

    /// The files found by operands of `__has_include` whose names are written, in order.
    pub fn probes(&self) -> &[Located]
        ensures { result.now ≡ self.now.probes }
    {
        self.contents.parts.probes.as_slice()
    }

    /// Its computed targets, in order.
    pub fn computed(&self) -> &[Computed]
        ensures { result.now ≡ self.now.computed }
    {
        self.contents.parts.computed.as_slice()
    }

    /// Whether a `#line` stands in the file, so that its presumed name may change (ISO C 6.10.4).
    pub fn has_line(&self) -> bool
        ensures { result ≡ self.now.has_line }
    {
        self.contents.parts.has_line
    }
}
