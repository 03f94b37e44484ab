// A case: the lines that describe a tree, and then the tree.
use crate::job::do_job;
use case_texts::{Cases, Nodes, Wrong, say_value};
use std::alloc::Global;
use std::mem::replace;
use tree_model::{MemTree, MirrorError, Unnamed};

/// The nodes of a tree, as far as they were read; from the first job on a tree, or why the nodes make none.
#[derive(Drop)]
pub enum Case {
    Lines(Nodes),
    Tree(MemTree<Unnamed>),
    NoTree(MirrorError),
}

impl Cases for Case {
    fn begin(&mut self, alloc: Global) -> Result<(), Wrong> {
        *self = Case::new(alloc);
        Ok(())
    }

    fn take(
        &mut self,
        alloc: Global,
        out: &mut String,
        word: &str,
        rest: &str,
    ) -> Result<(), Wrong> {
        if let "job" = word {
            *self = made(alloc, replace(self, Case::new(alloc)))?;
            return self.preprocess(alloc, out, rest);
        }
        self.describe(alloc, word, rest)
    }
}

impl Case {
    pub fn new(alloc: Global) -> Case {
        Case::Lines(Nodes::new(alloc))
    }

    fn describe(&mut self, alloc: Global, word: &str, rest: &str) -> Result<(), Wrong> {
        match self {
            Case::Lines(nodes) => nodes.take(alloc, word, rest),
            _ => Err(Wrong::Form("only jobs stand behind the first one")),
        }
    }

    fn preprocess(&mut self, alloc: Global, out: &mut String, rest: &str) -> Result<(), Wrong> {
        match self {
            Case::Tree(tree) => do_job(alloc, out, tree, rest),
            Case::NoTree(error) => say_value(out, "no tree:", error),
            Case::Lines(_) => Err(Wrong::Form("no tree for this")),
        }
    }
}

// The case with its tree.
fn made(alloc: Global, case: Case) -> Result<Case, Wrong> {
    let nodes = match case {
        Case::Lines(nodes) => nodes,
        made => return Ok(made),
    };
    match MemTree::new(alloc, nodes.into_entries(alloc)?, Vec::new(alloc)) {
        Ok(tree) => Ok(Case::Tree(tree)),
        Err(error) => Ok(Case::NoTree(error)),
    }
}
