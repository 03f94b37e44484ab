// A case: the lines that describe a tree, and then the tree.
use crate::answers::answer;
use case_texts::{Cases, Nodes, Wrong, is_of_tree, number_of, say_value};
use std::alloc::Global;
use std::mem::replace;
use tree_model::{Cached, MemTree, MirrorError, Unnamed};

/// The nodes of a tree and its calls that fail, as far as they were read; from the first question on a tree, or why the
/// nodes make none.
#[derive(Drop)]
pub enum Case {
    Lines(Nodes, Vec<u64>),
    Tree(MemTree<Unnamed>),
    Cached(Cached<MemTree<Unnamed>>),
    NoTree(MirrorError),
}

impl Cases for Case {
    fn begin(&mut self, alloc: Global) -> Result<(), Wrong> {
        *self = Case::new(alloc);
        Ok(())
    }

    fn take(
        &mut self,
        alloc: Global,
        out: &mut String,
        word: &str,
        rest: &str,
    ) -> Result<(), Wrong> {
        if is_of_tree(word) || word == "fail" {
            return self.describe(alloc, word, rest);
        }
        *self = made(alloc, replace(self, Case::new(alloc)))?;
        match word {
            "cached" | "inner" => self.turn(alloc, word),
            "reads" => self.say_reads(out),
            _ => self.ask(alloc, out, word, rest),
        }
    }
}

impl Case {
    pub fn new(alloc: Global) -> Case {
        Case::Lines(Nodes::new(alloc), Vec::new(alloc))
    }

    fn describe(&mut self, alloc: Global, word: &str, rest: &str) -> Result<(), Wrong> {
        let Case::Lines(nodes, fails) = self else {
            return Err(Wrong::Form("the tree stands in front of the questions"));
        };
        match word {
            "fail" => Ok(fails.push(u64::from(number_of(rest)?))?),
            _ => nodes.take(alloc, word, rest),
        }
    }

    // From a tree to one that remembers its nodes, or back.
    fn turn(&mut self, alloc: Global, word: &str) -> Result<(), Wrong> {
        *self = match (word, replace(self, Case::new(alloc))) {
            ("cached", Case::Tree(tree)) => Case::Cached(Cached::over(alloc, tree)),
            ("inner", Case::Cached(tree)) => Case::Tree(tree.into_inner()),
            _ => return Err(Wrong::Form("no tree for this")),
        };
        Ok(())
    }

    fn say_reads(&self, out: &mut String) -> Result<(), Wrong> {
        match self {
            Case::Tree(tree) => say_value(out, "reads", &tree.reads()),
            _ => Err(Wrong::Form("no tree that counts reads")),
        }
    }

    fn ask(
        &mut self,
        alloc: Global,
        out: &mut String,
        word: &str,
        rest: &str,
    ) -> Result<(), Wrong> {
        match self {
            Case::Tree(tree) => answer(alloc, out, tree, word, rest),
            Case::Cached(tree) => answer(alloc, out, tree, word, rest),
            Case::NoTree(error) => say_value(out, "no tree:", error),
            Case::Lines(..) => Err(Wrong::Form("no tree for this")),
        }
    }
}

// The case with its tree.
fn made(alloc: Global, case: Case) -> Result<Case, Wrong> {
    let (nodes, fails) = match case {
        Case::Lines(nodes, fails) => (nodes, fails),
        made => return Ok(made),
    };
    match MemTree::new(alloc, nodes.into_entries(alloc)?, fails) {
        Ok(tree) => Ok(Case::Tree(tree)),
        Err(error) => Ok(Case::NoTree(error)),
    }
}
