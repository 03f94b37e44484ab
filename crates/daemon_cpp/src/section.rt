// If-sections: groups that are passed over, and the search for the one that is read (ISO C 6.10.1).
ghost use Rattle.std.specs.Prelude.{◌≡◌, ◌≤◌, ◌<◌, length, drop, IfOk};
ghost use Rattle.std.specs.Option.{ForSome};
ghost use Rattle.base_types.specs.Causes.{HasCause};
ghost use Rattle.directive_scan.specs.Spots.{role_told};
ghost use Rattle.daemon_cpp.specs.Prep.{World, Entering, State, world_of};
ghost use Rattle.daemon_cpp.specs.parts.Reading.{run_flat, reading, seeking, passing, skipped, depth_behind, is_endif};
ghost use Rattle.daemon_cpp.specs.parts.Showing.{Seeks, SeeksLine, IsBetween, IsBehind, here_seen};

use crate::condition::test_line;
use crate::kept::{Kept, Places};
use crate::stop::Stop;
use directive_scan::{BranchName, Nesting, Pieces};
use std::alloc::Global;
use tree_model::Tree;

// Where an if-section goes on: from a piece on it is read, or the next line of the same conditional is looked for.
#[derive(Clone, Copy)]
pub struct Sought {
    pub is_read: bool,
    pub next: usize,
}

// How many conditionals stand around the next piece, behind one of this kind in so many; None where it is the next line of
// the present one.
fn next_depth(nesting: Nesting, depth: usize) -> Option<usize>
    requires { depth < 18446744073709551615 }
    ensures { result ≡ depth_behind (role_told nesting) depth }
{
    match nesting {
        Nesting::Single => Some(depth),
        Nesting::Opening => Some(depth + 1),
        Nesting::Branch(name) => depth_behind_branch(name, depth),
    }
}

// The same behind a line that goes on or ends a conditional.
fn depth_behind_branch(name: BranchName, depth: usize) -> Option<usize>
    ensures { result ≡ depth_behind (role_told (Nesting.Branch name)) depth }
{
    if depth == 0 {
        return None;
    }
    match name {
        BranchName::Elif | BranchName::Else => Some(depth),
        BranchName::Endif => Some(depth - 1),
    }
}

// The number of the next line of the present conditional, from a piece on; no token is looked at.
fn skip(pieces: &Pieces, from: usize) -> usize
    requires { from ≤ length pieces.now }
    ensures rest { drop result pieces.now ≡ skipped 0 (drop from pieces.now) }
    ensures later { IsBetween from (length pieces.now) result }
{
    let mut next = from;
    let mut depth = 0;
    while next < pieces.len() {
        match next_depth(pieces.nesting(next), depth) {
            Some(around) => depth = around,
            None => return next,
        }
        next += 1;
    }
    next
}

fn is_endif(nesting: Nesting) -> bool
    ensures { result ≡ is_endif (role_told nesting) }
{
    match nesting {
        Nesting::Branch(BranchName::Endif) => true,
        _ => false,
    }
}

// The next line of a conditional of which no group was read so far: an elif's condition is asked, an else holds, and behind
// the endif the file goes on.
fn seek_line<T: Tree>(
    alloc: Global,
    tree: &mut T,
    kept: &mut Kept,
    places: Places<'_>,
    pieces: &Pieces,
    from: usize,
) -> Result<Sought, Stop>
    requires { from ≤ length pieces.now }
    ensures same { T.told tree.new ≡ T.told tree.old }
    ensures seeks { ForSome (T.told tree.old) (λ told. SeeksLine kept.old kept.new places.entry.source.now (here_seen places.entry) (world_of told places.entry.setup.now) pieces.now
        (λ entering state. run_flat (world_of told places.entry.setup.now) entering (seeking 0) (drop from pieces.now) state) result) }
    ensures later { IfOk result (IsBehind from (length pieces.now)) }
    ensures spends { kept.new.work.left ≤ kept.old.work.left }
    ensures cause { HasCause Stop.Fault (T.faults tree.old) (T.faults tree.new) result }
{
    let line = skip(pieces, from);
    if line >= pieces.len() {
        return Ok(Sought {
            is_read: true,
            next: line,
        });
    }
    if is_endif(pieces.nesting(line)) {
        return Ok(Sought {
            is_read: true,
            next: line + 1,
        });
    }
    match test_line(alloc, tree, kept, places, pieces.piece(line)) {
        Ok(holds) => Ok(Sought {
            is_read: holds,
            next: line + 1,
        }),
        Err(stop) => Err(stop),
    }
}

/// The number of the piece from which on a file is read, where a conditional's line before piece `from` didn't hold and no
/// group of it was read so far.
pub fn seek<T: Tree>(
    alloc: Global,
    tree: &mut T,
    kept: &mut Kept,
    places: Places<'_>,
    pieces: &Pieces,
    from: usize,
) -> Result<usize, Stop>
    requires { from ≤ length pieces.now }
    ensures same { T.told tree.new ≡ T.told tree.old }
    ensures seeks { ForSome (T.told tree.old) (λ told. Seeks kept.old kept.new places.entry.source.now (here_seen places.entry) (world_of told places.entry.setup.now) pieces.now
        (λ entering state. run_flat (world_of told places.entry.setup.now) entering (seeking 0) (drop from pieces.now) state) result) }
    ensures later { IfOk result (IsBetween from (length pieces.now)) }
    ensures spends { kept.new.work.left ≤ kept.old.work.left }
    ensures cause { HasCause Stop.Fault (T.faults tree.old) (T.faults tree.new) result }
{
    let mut next = from;
    loop {
        match seek_line(alloc, tree, kept, places, pieces, next) {
            Ok(sought) => {
                if sought.is_read {
                    return Ok(sought.next);
                }
                next = sought.next;
            }
            Err(stop) => return Err(stop),
        }
    }
}

/// The number of the piece behind a conditional of which a group was read, from a piece within it on.
pub fn pass(pieces: &Pieces, from: usize) -> usize
    requires { from ≤ length pieces.now }
    ensures passes { (world : World) (entering : Entering) (state : State) → run_flat world entering (passing 0) (drop from pieces.now) state ≡ run_flat world entering reading (drop result pieces.now) state }
    ensures later { IsBetween from (length pieces.now) result }
{
    let mut next = from;
    loop {
        let line = skip(pieces, next);
        if line >= pieces.len() {
            return line;
        }
        if is_endif(pieces.nesting(line)) {
            return line + 1;
        }
        next = line + 1;
    }
}
