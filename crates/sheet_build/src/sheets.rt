// Sheets as a memo keeps them.
ghost use Rattle.std.specs.Prelude.{◌≡◌, ◌-◌, ◌^◌, List, length, min, sum_by, IfOk};
ghost use Rattle.std.specs.List.{filter_map};
ghost use Rattle.macro_defs.specs.Defining.{Named};
ghost use Rattle.sheet_build.specs.Sheet.{definition_in};
ghost use Rattle.sheet_build.specs.Weights.{tokens_defined, sheet_weight};
ghost use Rattle.sheet_build.specs.parts.Stored.{defs_seen, sheet_with, AreReadable};

use crate::computed::Computed;
use crate::definitions::{count_tokens, definitions_in};
use crate::unweighed::{Defs, Parts, Unweighed};
use directive_scan::Pieces;
use search_path::Visit;
use std::alloc::{AllocError, Global};
use std::marker::Model;
use tree_model::Located;

/// A sheet as a memo keeps it: what it weighs is known. Copies share what they hold.
#[derive(Drop)]
pub struct Sheet {
    sheet: Unweighed,
    // How many tokens its definitions have, up to 2^64 - 1.
    tokens: u64,
}

impl Model for Sheet {
    ghost use Rattle.sheet_build.specs.Sheet.{SheetData};
    ghost use Rattle.std.specs.Prelude.{◌≡◌, ◌-◌, ◌^◌, min};
    ghost use Rattle.sheet_build.specs.Weights.{tokens_defined};

    ghost Value = { SheetData };

    ghost view = { λ s. s.sheet };

    ghost invariant = { λ s. s.tokens ≡ min (2 ^ 64 - 1) (tokens_defined s.sheet.defs) };
}

impl Sheet {
    ghost use Rattle.std.specs.Prelude.{◌≡◌, IfOk};
    ghost use Rattle.std.specs.List.{filter_map};
    ghost use Rattle.sheet_build.specs.Sheet.{definition_in};
    ghost use Rattle.sheet_build.specs.Weights.{sheet_weight};
    ghost use Rattle.sheet_build.specs.parts.Stored.{sheet_with};

    // The sheet of a file of so many bytes: the definitions in its pieces, and these parts.
    pub(crate) fn new(
        alloc: Global,
        pieces: Pieces,
        parts: Parts,
        bytes: usize,
    ) -> Result<Sheet, AllocError>
        ensures { IfOk result (λ sheet. sheet ≡ sheet_with (filter_map definition_in pieces) parts) }
    {
        let tokens = count_tokens(alloc, &pieces)?;
        let weight = weight_of(tokens, &parts);
        let defs = kept_defs(alloc, pieces, bytes, weight)?;
        Ok(Sheet {
            sheet: Unweighed::with(alloc, defs, parts)?,
            tokens,
        })
    }

    /// A copy, which takes no memory; it is refused only where there are 2^63 of them.
    pub fn copy(&self) -> Result<Sheet, AllocError>
        ensures { IfOk result (λ copy. copy ≡ self.now) }
    {
        Ok(Sheet {
            sheet: self.sheet.copy()?,
            tokens: self.tokens,
        })
    }

    /// What it weighs in a memo: one more than the tokens of its definitions and of its computed targets and the nodes that
    /// were walked for its plain targets and its probes, or 2^64 - 1 where that is greater.
    pub fn weight(&self) -> u64
        ensures { result ≡ sheet_weight self.now }
    {
        weight_of(self.tokens, self.sheet.parts())
    }

    /// The same sheet, for an analysis.
    pub fn unweighed(self) -> Unweighed
        ensures { result ≡ self }
    {
        self.sheet
    }
}

// What a sheet weighs, by the tokens of its definitions, up to 2^64 - 1, and by its parts.
fn weight_of(tokens: u64, parts: &Parts) -> u64
    ensures { (defs : List Named) → tokens ≡ min (2 ^ 64 - 1) (tokens_defined defs) → result ≡ sheet_weight (sheet_with defs parts.now) }
{
    let tokens = tokens.saturating_add(computed_tokens(parts.computed.as_slice()));
    let plain = plain_nodes(parts.plain.as_slice());
    let nodes = plain.saturating_add(probe_nodes(parts.probes.as_slice()));
    tokens.saturating_add(nodes).saturating_add(1)
}

// The definitions of a file of so many bytes, as a sheet of this weight keeps them. A file that is long beside the weight isn't kept.
fn kept_defs(alloc: Global, pieces: Pieces, bytes: usize, weight: u64) -> Result<Defs, AllocError>
    ensures defs { IfOk result (λ defs. defs_seen defs ≡ filter_map definition_in pieces) }
    ensures readable { IfOk result (λ defs. AreReadable defs) }
{
    if is_kept(bytes, weight) {
        return Ok(Defs::Unread(pieces));
    }
    let defs = definitions_in(alloc, &pieces)?;
    Ok(Defs::Read(defs))
}

// How many bytes of a file a sheet may keep for each unit of its weight.
const KEPT: u64 = 128;

// Whether a file of so many bytes may be kept in a sheet of this weight.
fn is_kept(bytes: usize, weight: u64) -> bool {
    bytes as u64 <= weight.saturating_mul(KEPT)
}

// The tokens of computed targets, up to 2^64 - 1.
fn computed_tokens(computed: &[Computed]) -> u64
    ensures { result ≡ min (2 ^ 64 - 1) (sum_by (λ c. length c.tokens) computed.now) }
{
    let mut tokens: u64 = 0;
    for target in computed {
        tokens = tokens.saturating_add(target.tokens().len() as u64);
    }
    tokens
}

// The nodes that were walked for plain targets, up to 2^64 - 1.
fn plain_nodes(plain: &[(Visit, Located)]) -> u64
    ensures { result ≡ min (2 ^ 64 - 1) (sum_by (λ hit. length hit.1.walked) plain.now) }
{
    let mut nodes: u64 = 0;
    for hit in plain {
        nodes = nodes.saturating_add(hit.1.walked.len() as u64);
    }
    nodes
}

// The nodes that were walked for probes, up to 2^64 - 1.
fn probe_nodes(probes: &[Located]) -> u64
    ensures { result ≡ min (2 ^ 64 - 1) (sum_by (λ located. length located.walked) probes.now) }
{
    let mut nodes: u64 = 0;
    for located in probes {
        nodes = nodes.saturating_add(located.walked.len() as u64);
    }
    nodes
}
