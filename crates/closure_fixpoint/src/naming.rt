// The headers that computed targets may name under the definitions that were told.
ghost use Rattle.std.specs.Prelude.{◌≡◌, List, ◌++◌, ◌∷◌, [], ◌<◌, ◌≤◌, length, Some, true, IfOk, OnOk, IsTrue, IsFalse, Contains};
ghost use Rattle.std.specs.List.{slice_get};
ghost use Rattle.std.specs.List.Sorted.{IsStrictlySortedBy};
ghost use Rattle.std.specs.Option.{option_to_list};
ghost use Rattle.macro_defs.specs.Defining.{Named};
ghost use Rattle.symbolic_expand.specs.Defined.{sets_of};
ghost use Rattle.symbolic_expand.specs.Texts.{text_cmp};
ghost use Rattle.closure_fixpoint.specs.Closure.{first_definitions, word_definition, known_name};
ghost use Rattle.closure_fixpoint.specs.Naming.{HasJust, ExpandsTo, NoneSince, HoldsStill, KeptIsReady, AreReady, Puts, IsAgain, IsAnew, KeepsUp, Follows, IsUpToDate, asked_targets, asked_target};
ghost use Rattle.closure_fixpoint.specs.Targets.{NamesSeen};

use crate::Refusal;
use base_types::Bytes;
use directive_scan::HeaderName;
use job_words::{Job, MacroWord};
use macro_defs::{Definition, MacroTable};
use search_path::{Form, Visit};
use sheet_build::{Computed, Unweighed};
use std::alloc::{AllocError, Global};
use std::cmp::Ordering;
use symbolic_expand::{DefSets, Names, SymError, names, support_decides};
use tree_model::shown;

// Definition sets, and the names that got definitions, in order.
#[derive(Drop)]
pub struct Grown {
    pub sets: DefSets,
    pub log: Vec<Bytes>,
}

// What a computed target was found to name within a budget of runs. It rests on the definitions that were known when the log had
// `mark` names.
#[derive(Drop)]
pub struct Kept {
    pub names: Names,
    pub budget: u32,
    pub mark: usize,
}

// The headers of a computed target of which something is wanted, which were found when `told` sheets were told. Nothing more is wanted of
// those before `next` while no further sheet is told.
#[derive(Drop)]
pub struct Rest {
    pub told: usize,
    pub visit: Visit,
    pub form: Form,
    pub include: bool,
    pub headers: Vec<HeaderName>,
    pub next: usize,
}

// The definitions of a job and of the first `told` sheets, and what was found for the first computed targets of these sheets. Nothing is
// read until a computed target comes. `rest` is what is left of the target at hand.
#[derive(Drop)]
pub struct Naming {
    pub begun: bool,
    pub told: usize,
    pub grown: Grown,
    pub kept: Vec<Kept>,
    pub rest: Option<Rest>,
}

impl Grown {
    ghost use Rattle.std.specs.Prelude.{◌∷◌, [], map, OnOk};
    ghost use Rattle.sheet_build.specs.Sheet.{named_pair};
    ghost use Rattle.closure_fixpoint.specs.Naming.{Grew};

    // Adds a definition.
    fn add(&mut self, alloc: Global, name: &[u8], definition: &Definition) -> Result<(), AllocError>
        ensures { OnOk result (Grew self.old (named_pair (name.now, definition.now) ∷ []) self.new) }
    {
        if !self.sets.add(alloc, name, definition)? {
            return Ok(());
        }
        let copy = Bytes::copy_of(alloc, name)?;
        self.log.push(copy)?;
        Ok(())
    }

    // Adds definitions in order.
    fn add_all(
        &mut self,
        alloc: Global,
        definitions: &[(Bytes, Definition)],
    ) -> Result<(), AllocError>
        ensures { OnOk result (Grew self.old (map named_pair definitions.now) self.new) }
    {
        for definition in definitions {
            self.add(alloc, definition.0.as_slice(), &definition.1)?;
        }
        Ok(())
    }
}

impl Naming {
    ghost use Rattle.std.specs.Prelude.{[]};
    ghost use Rattle.job_words.specs.JobOf.{JobData};
    ghost use Rattle.closure_fixpoint.specs.Naming.{Follows};

    // What is known where no sheet was told.
    pub fn new(alloc: Global) -> Naming
        ensures { (job : JobData) → Follows result job [] }
    {
        Naming {
            begun: false,
            told: 0,
            grown: Grown {
                sets: DefSets::new(alloc),
                log: Vec::new(alloc),
            },
            kept: Vec::new(alloc),
            rest: None,
        }
    }
}

// Adds the definition of a word, if it has one.
fn add_word(alloc: Global, sets: &mut DefSets, word: &MacroWord) -> Result<(), AllocError>
    ensures { OnOk result ((before : List Named) → HasJust sets.old before → HasJust sets.new (before ++ option_to_list (word_definition word.now))) }
{
    match word {
        MacroWord::Undef(_) => return Ok(()),
        MacroWord::Define(name, definition) => match sets.add(alloc, name.as_slice(), definition) {
            Ok(_) => return Ok(()),
            Err(e) => return Err(e),
        },
    }
}

// The definitions that a job begins with.
fn first_sets(alloc: Global, job: &Job) -> Result<DefSets, AllocError>
    ensures { IfOk result (λ sets. HasJust sets (first_definitions job.now)) }
{
    let table = MacroTable::initial(alloc)?;
    let mut sets = DefSets::of_table(alloc, &table)?;
    let words = job.macros();
    for word in words {
        add_word(alloc, &mut sets, word)?;
    }
    Ok(sets)
}

// Reads the definitions that a job begins with, unless they were read.
fn begin(alloc: Global, naming: &mut Naming, job: &Job) -> Result<(), AllocError>
    ensures follows { OnOk result (KeepsUp job.now naming.old naming.new) }
    ensures begun { OnOk result (IsTrue naming.new.begun) }
{
    if naming.begun {
        return Ok(());
    }
    naming.grown.sets = first_sets(alloc, job)?;
    naming.begun = true;
    Ok(())
}

// Adds the definitions of the sheets that were told since.
fn catch_up(
    alloc: Global,
    naming: &mut Naming,
    job: &Job,
    sheets: &[(Visit, Unweighed)],
) -> Result<(), AllocError>
    requires { Follows naming.old job.now sheets.now }
    ensures { OnOk result (IsUpToDate naming.new job.now sheets.now) }
{
    begin(alloc, naming, job)?;
    while naming.told < sheets.len() {
        let defs = sheets[naming.told].1.defs(alloc)?;
        naming.grown.add_all(alloc, defs.as_slice())?;
        naming.told += 1;
    }
    Ok(())
}

// The names of a target under definition sets, or why it is refused.
fn expand(
    alloc: Global,
    sets: &DefSets,
    budget: u32,
    visit: &Visit,
    sheet: &Unweighed,
    target: &Computed,
) -> Result<Result<Names, Refusal>, AllocError>
    ensures { IfOk result (λ names. ExpandsTo budget (sets_of sets.now) (known_name sheet.now visit.now) target.now.tokens names) }
{
    let file = shown(alloc, visit.place.bytes())?;
    match names(
        alloc,
        sets,
        target.tokens(),
        &file,
        sheet.has_line(),
        budget,
    ) {
        Ok(names) => return Ok(Ok(names)),
        Err(SymError::Budget) => return Ok(Err(Refusal::Budget)),
        Err(SymError::Long) => return Ok(Err(Refusal::Long)),
        Err(SymError::Presumed) => return Ok(Err(Refusal::Presumed)),
        Err(SymError::Memory) => return Err(AllocError),
    }
}

// A copy of headers.
fn copies(alloc: Global, headers: &[HeaderName]) -> Result<Vec<HeaderName>, AllocError>
    ensures { IfOk result (λ copies. copies.items ≡ headers.now) }
{
    let mut copies = Vec::new(alloc);
    for header in headers {
        copies.push(HeaderName {
            angle: header.angle,
            name: Bytes::copy_of(alloc, header.name.as_slice())?,
        })?;
    }
    Ok(copies)
}

// Whether a name stands among names in the order of their bytes.
fn is_among(names: &[Bytes], name: &[u8]) -> bool
    requires { IsStrictlySortedBy text_cmp names.now }
    ensures { IsFalse result → Contains names.now name.now → ⊥ }
{
    let mut low = 0;
    let mut high = names.len();
    while low < high {
        let middle = low + (high - low) / 2;
        match names[middle].as_slice().cmp(name) {
            Ordering::Less => low = middle + 1,
            Ordering::Equal => return true,
            Ordering::Greater => high = middle,
        }
    }
    false
}

// Whether a name that an answer rests on got a definition since.
fn is_touched(log: &[Bytes], kept: &Kept) -> bool
    requires { KeptIsReady (length log.now) kept.now }
    ensures { IsFalse result → NoneSince log.now kept.now }
{
    let (_, since) = log.split_at(kept.mark);
    for name in since {
        if is_among(kept.names.support.as_slice(), name.as_slice()) {
            return true;
        }
    }
    false
}

// Whether the answer that is kept for a target still holds, within a budget of runs.
fn holds_still(naming: &Naming, budget: u32, number: usize) -> bool
    requires { AreReady (length naming.now.grown.log.items) naming.now.kept.items }
    ensures { IsTrue result → HoldsStill naming.now budget number }
{
    if number >= naming.kept.len() {
        return false;
    }
    let kept = &naming.kept[number];
    if kept.budget > budget {
        return false;
    }
    !is_touched(&naming.grown.log, kept)
}

// The headers of an answer that is kept. From now on it rests on the definitions that were known when the log had `mark` names.
fn again(
    alloc: Global,
    kept: &mut Vec<Kept>,
    number: usize,
    mark: usize,
) -> Result<Vec<HeaderName>, AllocError>
    requires { number < length kept.old.items }
    ensures { IfOk result (λ headers. IsAgain kept.old.items number mark headers.items kept.new.items) }
{
    let headers = copies(alloc, kept[number].names.headers.as_slice())?;
    kept[number].mark = mark;
    Ok(headers)
}

// Keeps an answer for a target, where those before it have one.
fn put(kept: &mut Vec<Kept>, number: usize, answer: Kept) -> Result<(), AllocError>
    ensures { OnOk result (Puts kept.old.items number answer kept.new.items) }
{
    if number < kept.len() {
        kept[number] = answer;
        return Ok(());
    }
    if number == kept.len() {
        kept.push(answer)?;
    }
    Ok(())
}

// The headers of a target, which is expanded, or why it is refused.
fn anew(
    alloc: Global,
    grown: &Grown,
    kept: &mut Vec<Kept>,
    budget: u32,
    visit: &Visit,
    sheet: &Unweighed,
    target: &Computed,
    number: usize,
) -> Result<Result<Vec<HeaderName>, Refusal>, AllocError>
    ensures { IfOk result (λ names. IsAnew budget grown.now (asked_target visit.now sheet.now target.now) kept.old.items number names kept.new.items) }
{
    match expand(alloc, &grown.sets, budget, visit, sheet, target)? {
        Err(refusal) => return Ok(Err(refusal)),
        Ok(names) => {
            let headers = copies(alloc, names.headers.as_slice())?;
            let mark = grown.log.len();
            put(
                kept,
                number,
                Kept {
                    names,
                    budget,
                    mark,
                },
            )?;
            return Ok(Ok(headers));
        }
    }
}

// The headers that a computed target may name under the definitions of these sheets, or why it is refused. `number` is its number
// among the targets of all sheets.
pub fn names_of(
    alloc: Global,
    naming: &mut Naming,
    job: &Job,
    budget: u32,
    sheets: &[(Visit, Unweighed)],
    visit: &Visit,
    sheet: &Unweighed,
    target: &Computed,
    number: usize,
) -> Result<Result<Vec<HeaderName>, Refusal>, AllocError>
    requires follows { Follows naming.old job.now sheets.now }
    requires number { slice_get (asked_targets sheets.now) number ≡ Some (asked_target visit.now sheet.now target.now) }
    ensures names { IfOk result (λ names. NamesSeen job.now budget sheets.now visit.now sheet.now target.now names) }
    ensures follows { OnOk result (Follows naming.new job.now sheets.now) }
{
    support_decides::<HeaderName>();
    catch_up(alloc, naming, job, sheets)?;
    if holds_still(naming, budget, number) {
        let mark = naming.grown.log.len();
        let headers = again(alloc, &mut naming.kept, number, mark)?;
        return Ok(Ok(headers));
    }
    anew(
        alloc,
        &naming.grown,
        &mut naming.kept,
        budget,
        visit,
        sheet,
        target,
        number,
    )
}
