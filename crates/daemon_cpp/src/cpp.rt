// Preprocessing a job (ISO C 5.1.1.2 phase 4 and 6.10; `prep` in specs/Prep.antt).
//
// The definition is a recursion on the groups of a file and on its includes. The code goes through the flat list of a file's pieces in its
// place, and so needs no stack: `Reader` has the file that is read, with the number of its next piece, and the files that were left at an
// include. A line that opens a conditional seeks the group that is read, and the line that ends this group passes over the others
// (`section.rt`). What goes through a job is `Kept`; contracts see it as a state of the definition by `Shows`, and each function says by one
// of the relations beside it what its call leads to (specs/parts/Showing.antt).
ghost use Rattle.std.specs.Prelude.{◌≡◌, ◌<◌, ◌≤◌, ◌+◌, ◌++◌, suc, pos, List, [], ◌∷◌, length, drop, get_or, IfOk, IfSome, OnOk, IsErrOf};
ghost use Rattle.std.specs.Option.{ForSome};
ghost use Rattle.base_types.specs.Causes.{HasCause};
ghost use Rattle.base_types.specs.Limits.{work_limit, text_limit};
ghost use Rattle.cpp_output.specs.Laid.{begun, finished};
ghost use Rattle.tree_model.specs.Paths.{Text, spelled};
ghost use Rattle.tree_model.specs.Shown.{presumed_name};
ghost use Rattle.search_path.specs.SetupOf.{absolute};
ghost use Rattle.search_path.specs.Search.{Hit};
ghost use Rattle.daemon_cpp.specs.Diagnostics.{NoSource, TextLimit, diagnostic_text};
ghost use Rattle.daemon_cpp.specs.parts.Problems.{complaint_of};
ghost use Rattle.daemon_cpp.specs.declared.outcome.Outcome.{Outcome};
ghost use Rattle.daemon_cpp.specs.Prep.{World, Here, Entering, State, Go, world_of, outcome_of_text, outcome_over, OutcomeFits, back_in, line_set, presumed_line};
ghost use Rattle.directive_scan.specs.declared.Piece.{Piece};
ghost use Rattle.daemon_cpp.specs.declared.cpp.Told.{Told};
ghost use Rattle.directive_scan.specs.Groups.{role_of, single, opening};
ghost use Rattle.directive_scan.specs.Spots.{role_told};
ghost use Rattle.daemon_cpp.specs.parts.Reading.{run_flat, reading};
ghost use Rattle.daemon_cpp.specs.parts.Showing.{Seeks, IsBetween, here_seen};
ghost use Rattle.daemon_cpp.specs.parts.KnownTexts.{KnowsTexts};
ghost use Rattle.daemon_cpp.specs.parts.Files.{After, RestLeadsTo, EntersTo, ComesTo, Brings, IsEnd, Turns, here_of, told_of, ended_told, opened_file, GoesInto, AllRead, work_ahead, source_behind, source_told};

use crate::condition::test_line;
use crate::diagnostic::{Diagnostic, Problem};
use crate::header::forced;
use crate::kept::{Kept, Places, first_table};
use crate::lexed_files::LexedFiles;
use crate::line::NewLine;
use crate::numbering::Numbering;
use crate::once::OnceMarks;
use crate::opening::open_file;
use crate::pieces::{Move, run_piece};
use crate::section::{pass, seek};
use crate::stop::{Stop, refused};
use crate::tree::{absolute_text, find_file};
use crate::{CppError, Outcome};
use base_types::limits::{INCLUDE_DEPTH_LIMIT, WORK_LIMIT};
use base_types::{Bytes, List};
use cpp_output::{LayError, Layout};
use directive_scan::{BranchName, Nesting, Pieces};
use job_words::{Job, MacroWord};
use macro_defs::MacroTable;
use macro_expand::Work;
use search_path::{Setup, Visit, source_ask};
use std::alloc::{AllocError, Global};
use std::mem::{forget, replace};
use tree_model::{CanonPath, Located, Tree, shown};

/// Preprocesses a job over a tree: translation phases 1 to 4 (ISO C 5.1.1.2) of the files that its words name, of its
/// source, found by the working directory and the source's name, and of the files that these include (6.10.2). Time is
/// linear in the bytes of the files read, each counted as often as it is included, and in the work of macro expansion; a file
/// that is included again is neither read nor lexed again, as far as there is room for its lines. Includes and conditionals take
/// no more of the program's stack, however deep.
///
/// `Fault` comes where the tree failed, `Memory` where no memory was found; all else is an `Outcome`.
pub fn preprocess<T: Tree>(alloc: Global, tree: &mut T, job: &Job) -> Result<Outcome, CppError>
    ensures same { T.told tree.new ≡ T.told tree.old }
    ensures outcome { IfOk result (λ outcome. IfSome (T.told tree.old) (λ told. outcome ≡ outcome_over told job.now)) }
    ensures fits { IfOk result OutcomeFits }
    ensures cause { HasCause CppError.Fault (T.faults tree.old) (T.faults tree.new) result }
{
    preprocess_for(alloc, tree, job, false)
}

/// The same for a process that ends behind it: what the job's macros and files take is left until then. To give it back block by block
/// costs more than a hundredth of a job.
pub fn preprocess_last<T: Tree>(alloc: Global, tree: &mut T, job: &Job) -> Result<Outcome, CppError>
    ensures same { T.told tree.new ≡ T.told tree.old }
    ensures outcome { IfOk result (λ outcome. IfSome (T.told tree.old) (λ told. outcome ≡ outcome_over told job.now)) }
    ensures fits { IfOk result OutcomeFits }
    ensures cause { HasCause CppError.Fault (T.faults tree.old) (T.faults tree.new) result }
{
    preprocess_for(alloc, tree, job, true)
}

// The same; `last` says whether the process ends behind it.
fn preprocess_for<T: Tree>(
    alloc: Global,
    tree: &mut T,
    job: &Job,
    last: bool,
) -> Result<Outcome, CppError>
    ensures same { T.told tree.new ≡ T.told tree.old }
    ensures outcome { IfOk result (λ outcome. IfSome (T.told tree.old) (λ told. outcome ≡ outcome_over told job.now)) }
    ensures fits { IfOk result OutcomeFits }
    ensures cause { HasCause CppError.Fault (T.faults tree.old) (T.faults tree.new) result }
{
    let ask = source_ask(alloc, job.source())?;
    match find_file(alloc, tree, job.setup(), ask) {
        Ok(Some(source)) => {
            let told = preprocess_source(alloc, tree, job, &source, last)?;
            Ok(told.outcome)
        }
        Ok(None) => Ok(no_source(alloc, job)?),
        Err(stop) => Err(cause_of(stop)),
    }
}

/// What is told of a job: its outcome, and the places of the files opened, in order and with repeats.
#[derive(Drop)]
pub struct Told {
    pub outcome: Outcome,
    pub opened: List<CanonPath>,
}

// Why a search gave nothing.
fn cause_of(stop: Stop) -> CppError
    ensures { result ≡ CppError.Fault → stop ≡ Stop.Fault }
{
    match stop {
        Stop::Fault => CppError::Fault,
        _ => CppError::Memory,
    }
}

// The source isn't found: the diagnostic is at the text that was searched.
fn no_source(alloc: Global, job: &Job) -> Result<Outcome, AllocError>
    ensures outcome { IfOk result (λ outcome. outcome ≡ Outcome.Diag (diagnostic_text (record { place = absolute job.now.setup.cwd job.now.source; at = 0; complaint = NoSource }))) }
    ensures fits { IfOk result OutcomeFits }
{
    let text = absolute_text(alloc, job.setup().cwd(), job.source())?;
    refused_whole(alloc, &text, Problem::NoSource)
}

// A file as a whole is the diagnostic.
fn refused_whole(alloc: Global, place: &[u8], problem: Problem<'_>) -> Result<Outcome, AllocError>
    ensures outcome { IfOk result (λ outcome. outcome ≡ Outcome.Diag (diagnostic_text (record { place = place.now; at = 0; complaint = complaint_of problem.entry }))) }
    ensures fits { IfOk result OutcomeFits }
{
    Ok(Outcome::Diag(Diagnostic::new(alloc, place, 0, problem)?.into_bytes()))
}

// What stops an output: the limit, as a diagnostic at the source as a whole, or want of memory.
fn past_limit(alloc: Global, error: LayError, source: &CanonPath) -> Result<Outcome, CppError>
    ensures outcome { IfOk result (λ outcome. (error ≡ LayError.Full) × (outcome ≡ Outcome.Diag (diagnostic_text (record { place = spelled source.now; at = 0; complaint = TextLimit })))) }
    ensures fits { IfOk result OutcomeFits }
    ensures no_fault { IsErrOf result CppError.Fault → ⊥ }
{
    match error {
        LayError::Full => Ok(refused_whole(alloc, source.bytes(), Problem::TextLimit)?),
        LayError::Memory => Err(CppError::Memory),
    }
}

// A source that was found.
fn preprocess_source<T: Tree>(
    alloc: Global,
    tree: &mut T,
    job: &Job,
    source: &(Visit, Located),
    last: bool,
) -> Result<Told, CppError>
    ensures same { T.told tree.new ≡ T.told tree.old }
    ensures told { ForSome (T.told tree.old) (λ told. IfOk result (λ all. all ≡ source_told (world_of told job.now.setup) job.now.macros source.now job.now.forced)) }
    ensures fits { IfOk result (λ all. OutcomeFits all.outcome) }
    ensures cause { HasCause CppError.Fault (T.faults tree.old) (T.faults tree.new) result }
{
    match begin_output(alloc, &source.0.place) {
        Ok(layout) => read_files(alloc, tree, job, source, layout, last),
        Err(error) => Ok(Told {
            outcome: past_limit(alloc, error, &source.0.place)?,
            opened: List::new(alloc),
        }),
    }
}

// The output behind a source's first marker.
fn begin_output(alloc: Global, source: &CanonPath) -> Result<Layout, LayError>
    ensures ok { IfOk result (λ layout. (layout ≡ begun (presumed_name source.now)) × (length layout.text ≤ text_limit)) }
    ensures full { IsErrOf result LayError.Full → text_limit < length (begun (presumed_name source.now)).text }
{
    let name = shown(alloc, source.bytes())?;
    Layout::begin(alloc, &name)
}

// The files of a job behind its source's first marker.
fn read_files<T: Tree>(
    alloc: Global,
    tree: &mut T,
    job: &Job,
    source: &(Visit, Located),
    layout: Layout,
    last: bool,
) -> Result<Told, CppError>
    requires begun { layout ≡ begun (presumed_name source.now.0.place) }
    requires within { length layout.text ≤ text_limit }
    ensures same { T.told tree.new ≡ T.told tree.old }
    ensures told { ForSome (T.told tree.old) (λ told. IfOk result (λ all. all ≡ source_told (world_of told job.now.setup) job.now.macros source.now job.now.forced)) }
    ensures fits { IfOk result (λ all. OutcomeFits all.outcome) }
    ensures cause { HasCause CppError.Fault (T.faults tree.old) (T.faults tree.new) result }
{
    let mut reader = Reader::before_source(alloc, job.macros(), source, layout)?;
    let ended = reader.read_all(alloc, tree, job, source);
    reader.told(alloc, ended, last)
}

fn finish(alloc: Global, layout: Layout, source: &CanonPath) -> Result<Outcome, CppError>
    ensures outcome { IfOk result (λ outcome. outcome ≡ outcome_of_text source.now (finished layout)) }
    ensures fits { IfOk result OutcomeFits }
    ensures no_fault { IsErrOf result CppError.Fault → ⊥ }
{
    match layout.finish() {
        Ok(text) => Ok(Outcome::Text(text)),
        Err(error) => past_limit(alloc, error, source),
    }
}

// A file that was opened, with the number of the piece that comes next.
#[derive(Drop)]
pub struct OpenFile {
    visit: Visit,
    real: CanonPath,
    numbers: Numbering,
    pieces: Pieces,
    next: usize,
}

impl OpenFile {
    fn new(alloc: Global, found: (Visit, Located), pieces: Pieces) -> Result<OpenFile, AllocError>
        ensures { IfOk result (λ file. file ≡ opened_file found pieces) }
    {
        let (visit, located) = found;
        let numbers = first_numbers(alloc, &visit.place)?;
        let Located { real, .. } = located;
        Ok(OpenFile {
            visit,
            real,
            numbers,
            pieces,
            next: 0,
        })
    }

    // The same of a copy of what was found.
    fn copy_of(
        alloc: Global,
        found: &(Visit, Located),
        pieces: Pieces,
    ) -> Result<OpenFile, AllocError>
        ensures { IfOk result (λ file. file ≡ opened_file found.now pieces) }
    {
        let (visit, located) = found;
        Ok(OpenFile {
            visit: visit.copy(alloc)?,
            real: located.real.copy(alloc)?,
            numbers: first_numbers(alloc, &visit.place)?,
            pieces,
            next: 0,
        })
    }
}

// A file under its own name.
fn first_numbers(alloc: Global, place: &CanonPath) -> Result<Numbering, AllocError>
    ensures { IfOk result (λ numbers. numbers ≡ record { name = presumed_name place.now; shift = pos 0 }) }
{
    Ok(Numbering::first(Bytes::of(shown(alloc, place.bytes())?)))
}

// A file that was left at an include on a line.
#[derive(Drop)]
pub struct Left {
    file: OpenFile,
    at: u32,
}

fn put_aside(around: &mut Vec<Left>, left: Left) -> Result<(), AllocError>
    ensures { OnOk result (around.new.items ≡ around.old.items ++ left ∷ []) }
{
    around.push(left)?;
    Ok(())
}

// Marks in the output that a file goes on behind an include on a line.
fn mark_return(
    alloc: Global,
    kept: &mut Kept,
    source: &CanonPath,
    file: &OpenFile,
    at: u32,
) -> Result<(), Stop>
    ensures turns { (from : Here) → Turns kept.old kept.new source.now from (here_of file.now) (λ state. back_in (here_of file.now) at state) result }
    ensures work { kept.new.work ≡ kept.old.work }
    ensures no_fault { IsErrOf result Stop.Fault → ⊥ }
{
    let presumed = file.numbers.presumed();
    let shown = file.numbers.line_behind(at);
    match kept.layout.back(presumed.name.as_slice(), shown, at) {
        Ok(()) => Ok(()),
        Err(LayError::Full) => Err(refused(alloc, source, 0, Problem::TextLimit)),
        Err(LayError::Memory) => Err(Stop::Memory),
    }
}

// The file goes on with other numbers behind a `#line`.
fn renumber(
    alloc: Global,
    kept: &mut Kept,
    source: &CanonPath,
    file: &mut OpenFile,
    at: u32,
    new: NewLine,
) -> Result<(), Stop>
    requires { new.number ≤ 2147483647 }
    ensures turns { Turns kept.old kept.new source.now (here_of file.old) (here_of file.new) (λ state. line_set at new state) result }
    ensures rest { (file.new.pieces ≡ file.old.pieces) × (file.new.next ≡ file.old.next) }
    ensures work { kept.new.work ≡ kept.old.work }
    ensures no_fault { IsErrOf result Stop.Fault → ⊥ }
{
    file.numbers.renumber(at, new);
    let presumed = file.numbers.presumed();
    let shown = file.numbers.line_behind(at);
    match kept.layout.mark(presumed.name.as_slice(), shown, at) {
        Ok(()) => Ok(()),
        Err(LayError::Full) => Err(refused(alloc, source, 0, Problem::TextLimit)),
        Err(LayError::Memory) => Err(Stop::Memory),
    }
}

// Reads the files of a job: the source's place, what is kept, the files that were lexed, the file that is read, and the files
// around it, which were left at an include, the source first.
#[derive(Drop)]
pub struct Reader {
    source: CanonPath,
    kept: Kept,
    lexed: LexedFiles,
    file: OpenFile,
    around: Vec<Left>,
}

impl Reader {
    // A reader before its source is opened: in the source, of which nothing is left to read.
    fn before_source(
        alloc: Global,
        macros: &[MacroWord],
        source: &(Visit, Located),
        layout: Layout,
    ) -> Result<Reader, AllocError>
        requires begun { layout ≡ begun (presumed_name source.now.0.place) }
        requires within { length layout.text ≤ text_limit }
        ensures read { IfOk result AllRead }
        ensures comes { IfOk result (λ reader. (world : World) (forced : List Text) → ComesTo world (source_behind world source.now forced) reader (source_told world macros.now source.now forced)) }
    {
        let place = source.0.place.copy(alloc)?;
        let file = OpenFile::copy_of(alloc, source, Pieces::empty(alloc)?)?;
        let macros = first_table(alloc, macros)?;
        Ok(Reader::alone(alloc, place, layout, macros, file))
    }

    // A reader of one file, before any work.
    fn alone(
        alloc: Global,
        source: CanonPath,
        layout: Layout,
        macros: MacroTable,
        file: OpenFile,
    ) -> Reader
        ensures source { result.source ≡ source }
        ensures layout { result.kept.layout ≡ layout }
        ensures macros { result.kept.macros ≡ macros }
        ensures work { result.kept.work.left ≡ work_limit }
        ensures once { result.kept.once ≡ [] }
        ensures opened { result.kept.opened ≡ [] }
        ensures file { result.file ≡ file }
        ensures around { result.around.items ≡ [] }
        ensures knows { (world : World) → KnowsTexts world result.lexed }
    {
        Reader {
            source,
            kept: Kept {
                layout,
                macros,
                work: Work { left: WORK_LIMIT },
                once: OnceMarks::new(alloc),
                opened: List::new(alloc),
            },
            lexed: LexedFiles::new(alloc),
            file,
            around: Vec::new(alloc),
        }
    }

    // Reads the files that the job's words name, and then the source.
    fn read_all<T: Tree>(
        &mut self,
        alloc: Global,
        tree: &mut T,
        job: &Job,
        source: &(Visit, Located),
    ) -> Result<(), Stop>
        requires { AllRead self.old }
        ensures same { T.told tree.new ≡ T.told tree.old }
        ensures brings { ForSome (T.told tree.old) (λ told. Brings (ComesTo (world_of told job.now.setup) (source_behind (world_of told job.now.setup) source.now job.now.forced) self.old) self.new (λ done. ComesTo (world_of told job.now.setup) Go self.new) result) }
        ensures cause { HasCause Stop.Fault (T.faults tree.old) (T.faults tree.new) result }
    {
        match self.open_source(alloc, tree, job, source) {
            Ok(()) => self.read(alloc, tree, job.setup()),
            Err(stop) => Err(stop),
        }
    }

    // Reads the files that the job's words name, and opens the source.
    fn open_source<T: Tree>(
        &mut self,
        alloc: Global,
        tree: &mut T,
        job: &Job,
        source: &(Visit, Located),
    ) -> Result<(), Stop>
        requires { AllRead self.old }
        ensures same { T.told tree.new ≡ T.told tree.old }
        ensures brings { ForSome (T.told tree.old) (λ told. Brings (ComesTo (world_of told job.now.setup) (source_behind (world_of told job.now.setup) source.now job.now.forced) self.old) self.new (λ done. RestLeadsTo (world_of told job.now.setup) Go self.new) result) }
        ensures cause { HasCause Stop.Fault (T.faults tree.old) (T.faults tree.new) result }
    {
        match self.read_forced(alloc, tree, job) {
            Ok(()) => self.enter_source(alloc, tree, job.setup(), source),
            Err(stop) => Err(stop),
        }
    }

    // Opens the source, and goes on in it.
    fn enter_source<T: Tree>(
        &mut self,
        alloc: Global,
        tree: &mut T,
        setup: &Setup,
        source: &(Visit, Located),
    ) -> Result<(), Stop>
        requires { AllRead self.old }
        ensures same { T.told tree.new ≡ T.told tree.old }
        ensures brings { ForSome (T.told tree.old) (λ told. Brings (ComesTo (world_of told setup.now) (source_behind (world_of told setup.now) source.now []) self.old) self.new (λ done. RestLeadsTo (world_of told setup.now) Go self.new) result) }
        ensures cause { HasCause Stop.Fault (T.faults tree.old) (T.faults tree.new) result }
    {
        match open_file(
            alloc,
            tree,
            &mut self.kept,
            &mut self.lexed,
            setup,
            &self.source,
            source,
            false,
        ) {
            Ok(pieces) => {
                self.file = OpenFile::copy_of(alloc, source, pieces)?;
                Ok(())
            }
            Err(stop) => Err(stop),
        }
    }

    // Reads the files that the job's words name.
    fn read_forced<T: Tree>(&mut self, alloc: Global, tree: &mut T, job: &Job) -> Result<(), Stop>
        requires { AllRead self.old }
        ensures same { T.told tree.new ≡ T.told tree.old }
        ensures brings { ForSome (T.told tree.old) (λ told. (source : Hit) → Brings (ComesTo (world_of told job.now.setup) (source_behind (world_of told job.now.setup) source job.now.forced) self.old) self.new (λ done. ComesTo (world_of told job.now.setup) (source_behind (world_of told job.now.setup) source []) self.new) result) }
        ensures read { OnOk result (AllRead self.new) }
        ensures cause { HasCause Stop.Fault (T.faults tree.old) (T.faults tree.new) result }
    {
        for name in job.forced() {
            match self.read_named(alloc, tree, job.setup(), name.as_slice()) {
                Ok(()) => {}
                Err(stop) => return Err(stop),
            }
        }
        Ok(())
    }

    // Reads the file of a name of the job's words, as by an include on line 0 of the source.
    fn read_named<T: Tree>(
        &mut self,
        alloc: Global,
        tree: &mut T,
        setup: &Setup,
        name: &[u8],
    ) -> Result<(), Stop>
        requires { AllRead self.old }
        ensures same { T.told tree.new ≡ T.told tree.old }
        ensures brings { ForSome (T.told tree.old) (λ told. (source : Hit) (names : List Text) → Brings (ComesTo (world_of told setup.now) (source_behind (world_of told setup.now) source (name.now ∷ names)) self.old) self.new (λ done. ComesTo (world_of told setup.now) (source_behind (world_of told setup.now) source names) self.new) result) }
        ensures read { OnOk result (AllRead self.new) }
        ensures cause { HasCause Stop.Fault (T.faults tree.old) (T.faults tree.new) result }
    {
        let places = Places {
            setup,
            source: &self.source,
            visit: &self.file.visit,
            real: &self.file.real,
            presumed: self.file.numbers.presumed(),
        };
        match forced(alloc, tree, &mut self.kept, places, name) {
            Ok(Some(file)) => self.read_found(alloc, tree, setup, file),
            Ok(None) => Ok(()),
            Err(stop) => Err(stop),
        }
    }

    // Enters a file, as by an include on line 0, and reads it and those around it.
    fn read_found<T: Tree>(
        &mut self,
        alloc: Global,
        tree: &mut T,
        setup: &Setup,
        file: (Visit, Located),
    ) -> Result<(), Stop>
        ensures same { T.told tree.new ≡ T.told tree.old }
        ensures brings { ForSome (T.told tree.old) (λ told. (behind : After) → Brings (EntersTo (world_of told setup.now) behind self.old 0 file) self.new (λ done. ComesTo (world_of told setup.now) behind self.new) result) }
        ensures read { OnOk result (AllRead self.new) }
        ensures cause { HasCause Stop.Fault (T.faults tree.old) (T.faults tree.new) result }
    {
        match self.enter(alloc, tree, setup, 0, file) {
            Ok(()) => self.read(alloc, tree, setup),
            Err(stop) => Err(stop),
        }
    }

    // Reads the file and those around it, up to their ends.
    fn read<T: Tree>(&mut self, alloc: Global, tree: &mut T, setup: &Setup) -> Result<(), Stop>
        ensures same { T.told tree.new ≡ T.told tree.old }
        ensures brings { ForSome (T.told tree.old) (λ told. (behind : After) → Brings (RestLeadsTo (world_of told setup.now) behind self.old) self.new (λ done. ComesTo (world_of told setup.now) behind self.new) result) }
        ensures read { OnOk result (AllRead self.new) }
        ensures cause { HasCause Stop.Fault (T.faults tree.old) (T.faults tree.new) result }
    {
        'files: loop {
            if self.file.next < self.file.pieces.len() {
                match self.next_piece(alloc, tree, setup) {
                    Ok(()) => {}
                    Err(stop) => return Err(stop),
                }
            } else if !self.around.is_empty() {
                match self.come_back(alloc) {
                    Ok(()) => {}
                    Err(stop) => return Err(stop),
                }
            } else {
                return Ok(());
            }
        }
    }

    // Reads the next piece of the file.
    fn next_piece<T: Tree>(
        &mut self,
        alloc: Global,
        tree: &mut T,
        setup: &Setup,
    ) -> Result<(), Stop>
        requires { self.old.file.next < length self.old.file.pieces }
        ensures same { T.told tree.new ≡ T.told tree.old }
        ensures brings { ForSome (T.told tree.old) (λ told. (behind : After) → Brings (RestLeadsTo (world_of told setup.now) behind self.old) self.new (λ done. RestLeadsTo (world_of told setup.now) behind self.new) result) }
        ensures advances { OnOk result (work_ahead self.new < work_ahead self.old) }
        ensures cause { HasCause Stop.Fault (T.faults tree.old) (T.faults tree.new) result }
    {
        match self.file.pieces.nesting(self.file.next) {
            Nesting::Single => self.read_piece(alloc, tree, setup),
            Nesting::Opening => self.open_section(alloc, tree, setup),
            Nesting::Branch(name) => {
                self.leave_group(name);
                Ok(())
            }
        }
    }

    // Reads a piece that stands by itself.
    fn read_piece<T: Tree>(
        &mut self,
        alloc: Global,
        tree: &mut T,
        setup: &Setup,
    ) -> Result<(), Stop>
        requires below { self.old.file.next < length self.old.file.pieces }
        requires role { (p : Piece) → role_of (get_or self.old.file.pieces self.old.file.next p) ≡ single }
        ensures same { T.told tree.new ≡ T.told tree.old }
        ensures brings { ForSome (T.told tree.old) (λ told. (behind : After) → Brings (RestLeadsTo (world_of told setup.now) behind self.old) self.new (λ done. RestLeadsTo (world_of told setup.now) behind self.new) result) }
        ensures advances { OnOk result (work_ahead self.new < work_ahead self.old) }
        ensures cause { HasCause Stop.Fault (T.faults tree.old) (T.faults tree.new) result }
    {
        let places = Places {
            setup,
            source: &self.source,
            visit: &self.file.visit,
            real: &self.file.real,
            presumed: self.file.numbers.presumed(),
        };
        let piece = self.file.pieces.piece(self.file.next);
        let moved = run_piece(alloc, tree, &mut self.kept, places, piece);
        self.file.next += 1;
        match moved {
            Ok(Move::Onward) => Ok(()),
            Ok(Move::Enter { at, file }) => {
                self.enter(alloc, tree, setup, at, file.into_inner())
            }
            Ok(Move::Renumber { at, new }) => renumber(
                alloc,
                &mut self.kept,
                &self.source,
                &mut self.file,
                at,
                new.into_inner(),
            ),
            Err(stop) => Err(stop),
        }
    }

    // Reads the line that opens a conditional, and on to the group of it that is read.
    fn open_section<T: Tree>(
        &mut self,
        alloc: Global,
        tree: &mut T,
        setup: &Setup,
    ) -> Result<(), Stop>
        requires below { self.old.file.next < length self.old.file.pieces }
        requires role { (p : Piece) → role_of (get_or self.old.file.pieces self.old.file.next p) ≡ opening }
        ensures same { T.told tree.new ≡ T.told tree.old }
        ensures brings { ForSome (T.told tree.old) (λ told. (behind : After) → Brings (RestLeadsTo (world_of told setup.now) behind self.old) self.new (λ done. RestLeadsTo (world_of told setup.now) behind self.new) result) }
        ensures advances { OnOk result (work_ahead self.new < work_ahead self.old) }
        ensures cause { HasCause Stop.Fault (T.faults tree.old) (T.faults tree.new) result }
    {
        let places = Places {
            setup,
            source: &self.source,
            visit: &self.file.visit,
            real: &self.file.real,
            presumed: self.file.numbers.presumed(),
        };
        match read_opening(
            alloc,
            tree,
            &mut self.kept,
            places,
            &self.file.pieces,
            self.file.next,
        ) {
            Ok(next) => {
                self.file.next = next;
                Ok(())
            }
            Err(stop) => Err(stop),
        }
    }

    // A line that ends a group that was read: the conditional's other groups are passed over.
    fn leave_group(&mut self, name: BranchName)
        requires below { self.old.file.next < length self.old.file.pieces }
        requires role { (p : Piece) → role_of (get_or self.old.file.pieces self.old.file.next p) ≡ role_told (Nesting.Branch name) }
        ensures leads { (world : World) (behind : After) (whole : Told) → RestLeadsTo world behind self.old whole → RestLeadsTo world behind self.new whole }
        ensures advances { work_ahead self.new < work_ahead self.old }
    {
        self.file.next = behind_group(&self.file.pieces, self.file.next, name);
    }

    // Enters a file from an include on a line.
    fn enter<T: Tree>(
        &mut self,
        alloc: Global,
        tree: &mut T,
        setup: &Setup,
        at: u32,
        inner: (Visit, Located),
    ) -> Result<(), Stop>
        ensures same { T.told tree.new ≡ T.told tree.old }
        ensures brings { ForSome (T.told tree.old) (λ told. (behind : After) → Brings (EntersTo (world_of told setup.now) behind self.old at inner) self.new (λ done. RestLeadsTo (world_of told setup.now) behind self.new) result) }
        ensures advances { OnOk result (work_ahead self.new < suc (work_ahead self.old)) }
        ensures cause { HasCause Stop.Fault (T.faults tree.old) (T.faults tree.new) result }
    {
        if self.around.as_slice().len() >= INCLUDE_DEPTH_LIMIT {
            return Err(refused(alloc, &self.file.visit.place, at, Problem::TooNested));
        }
        match open_file(
            alloc,
            tree,
            &mut self.kept,
            &mut self.lexed,
            setup,
            &self.source,
            &inner,
            true,
        ) {
            Ok(pieces) => {
                self.go_into(OpenFile::new(alloc, inner, pieces)?, at)?;
                Ok(())
            }
            Err(stop) => Err(stop),
        }
    }

    // Goes into a file, and puts the one that was read aside, at an include on a line.
    fn go_into(&mut self, file: OpenFile, at: u32) -> Result<(), AllocError>
        ensures { OnOk result (GoesInto self.old file at self.new) }
    {
        let outer = replace(&mut self.file, file);
        put_aside(&mut self.around, Left { file: outer, at })
    }

    // Comes back, at the end of a file, to the one that was left last.
    fn come_back(&mut self, alloc: Global) -> Result<(), Stop>
        requires ended { length self.old.file.pieces ≤ self.old.file.next }
        requires around { 0 < length self.old.around.items }
        ensures brings { (world : World) (behind : After) → Brings (RestLeadsTo world behind self.old) self.new (λ done. RestLeadsTo world behind self.new) result }
        ensures advances { OnOk result (work_ahead self.new < work_ahead self.old) }
        ensures no_fault { IsErrOf result Stop.Fault → ⊥ }
    {
        let Some(outer) = self.around.pop() else {
            unreachable!()
        };
        self.file = outer.file;
        mark_return(alloc, &mut self.kept, &self.source, &self.file, outer.at)
    }

    // What is told of the job once its files are read, or were left at a diagnostic. Where the process ends behind it, what the macros and
    // the files take isn't given back.
    fn told(self, alloc: Global, ended: Result<(), Stop>, last: bool) -> Result<Told, CppError>
        ensures told { IfOk result (λ all. (world : World) (whole : Told) → IsEnd world self whole ended → all ≡ whole) }
        ensures fits { IfOk result (λ all. OutcomeFits all.outcome) }
        ensures fault { IsErrOf result CppError.Fault → IsErrOf ended Stop.Fault }
    {
        let Reader {
            source,
            kept,
            lexed,
            ..
        } = self;
        let Kept {
            layout,
            opened,
            macros,
            ..
        } = kept;
        let_go(macros, lexed, last);
        let outcome = match ended {
            Ok(()) => finish(alloc, layout, &source)?,
            Err(Stop::Ended(diagnostic)) => Outcome::Diag(diagnostic.into_bytes()),
            Err(stop) => return Err(cause_of(stop)),
        };
        Ok(Told { outcome, opened })
    }
}

// Gives back what the macros and the files take, or leaves it where the process ends behind it.
fn let_go(macros: MacroTable, lexed: LexedFiles, last: bool) {
    if last {
        forget(macros);
        forget(lexed);
    }
}

// The piece from which on a file is read behind the line that opens a conditional.
fn read_opening<T: Tree>(
    alloc: Global,
    tree: &mut T,
    kept: &mut Kept,
    places: Places<'_>,
    pieces: &Pieces,
    line: usize,
) -> Result<usize, Stop>
    requires below { line < length pieces.now }
    requires role { (p : Piece) → role_of (get_or pieces.now line p) ≡ opening }
    ensures same { T.told tree.new ≡ T.told tree.old }
    ensures seeks { ForSome (T.told tree.old) (λ told. Seeks kept.old kept.new places.entry.source.now (here_seen places.entry) (world_of told places.entry.setup.now) pieces.now
        (λ entering state. run_flat (world_of told places.entry.setup.now) entering reading (drop line pieces.now) state) result) }
    ensures later { IfOk result (IsBetween (line + 1) (length pieces.now)) }
    ensures spends { kept.new.work.left ≤ kept.old.work.left }
    ensures cause { HasCause Stop.Fault (T.faults tree.old) (T.faults tree.new) result }
{
    match test_line(alloc, tree, kept, places, pieces.piece(line)) {
        Ok(true) => Ok(line + 1),
        Ok(false) => seek(alloc, tree, kept, places, pieces, line + 1),
        Err(stop) => Err(stop),
    }
}

// The piece from which on a file is read behind a line that ends a group that was read.
fn behind_group(pieces: &Pieces, line: usize, name: BranchName) -> usize
    requires below { line < length pieces.now }
    requires role { (p : Piece) → role_of (get_or pieces.now line p) ≡ role_told (Nesting.Branch name) }
    ensures leads { (world : World) (entering : Entering) (state : State) → run_flat world entering reading (drop line pieces.now) state ≡ run_flat world entering reading (drop result pieces.now) state }
    ensures later { IsBetween (line + 1) (length pieces.now) result }
{
    let inside = line < pieces.len();
    prove!(inside);
    match name {
        BranchName::Endif => line + 1,
        BranchName::Elif => pass(pieces, line + 1),
        BranchName::Else => pass(pieces, line + 1),
    }
}
