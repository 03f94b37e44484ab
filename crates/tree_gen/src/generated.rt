// The tree and the list.
ghost use Rattle.std.specs.Prelude.{◌≡◌, ◌≤◌, ◌+◌, ◌*◌, length, map, IfOk, IsTrue};
ghost use Rattle.std.specs.List.{IsDistinct};
ghost use Rattle.std.specs.Ordering.{nat_cmp, eq_by_cmp};
ghost use Rattle.std.specs.Cmp.Lexicographic.{slice_cmp};
ghost use Rattle.base_types.specs.Limits.{list_limit};
ghost use Rattle.tree_model.specs.Paths.{spelled};
ghost use Rattle.tree_model.specs.Entries.{bodies_fit, links_fit, makes_tree};
ghost use Rattle.tree_gen.specs.Generated as made;
ghost use Rattle.tree_gen.specs.Generated.{InOrder};

use crate::numbered::nodes;
use crate::texts::job_lines;
use base_types::Bytes;
use std::alloc::{AllocError, Global};
use tree_model::{CanonPath, Entry, parents_make_trees};

/// The entries of a tree with so many sources, from 1 to 5,000, in order of bytes, and the list of the jobs that compile
/// them. The directories are `/g`, `/g/h` and `/g/s`. The headers are `/g/h/hK.h` for each K below four times the
/// number, each with one macro and one function, and each but the first includes the one of half its number. The sources
/// are `/g/s/sJ.c`; each includes two headers, the first by a macro. All lines end with a newline. The entries make a
/// tree, and no file is larger than files may be. An error is want of memory.
pub fn generate(alloc: Global, sources: u32) -> Result<(Vec<(CanonPath, Entry)>, Bytes), AllocError>
    requires some { 1 ≤ sources }
    requires few { sources ≤ 5000 }
    ensures entries { IfOk result (λ got. InOrder (made.nodes sources) got.0.items) }
    ensures tree { IfOk result (λ got. IsTrue (makes_tree got.0.items)) }
    ensures links { IfOk result (λ got. IsTrue (links_fit got.0.items)) }
    ensures bodies { IfOk result (λ got. IsTrue (bodies_fit got.0.items)) }
    ensures count { IfOk result (λ got. length got.0.items ≡ 3 + 5 * sources) }
    ensures list { IfOk result (λ got. got.1 ≡ made.job_lines sources) }
    ensures short { IfOk result (λ got. length got.1 ≤ list_limit) }
{
    parents_make_trees();
    let entries = in_order(nodes(alloc, sources)?)?;
    let list = job_lines(alloc, sources)?;
    Ok((entries, list))
}

// The same entries in order of their paths' bytes.
fn in_order(entries: Vec<(CanonPath, Entry)>) -> Result<Vec<(CanonPath, Entry)>, AllocError>
    requires apart { IsDistinct (eq_by_cmp (slice_cmp nat_cmp)) (map (λ e. spelled e.0) entries.items) }
    ensures { IfOk result (λ sorted. InOrder entries.items sorted.items) }
{
    let mut sorted = entries;
    sorted.sort_by(|a, b| a.0.compare(&b.0))?;
    Ok(sorted)
}
