// What a run is given.
use case_texts::{Nodes, Wrong, bytes_of, number_of};
use std::alloc::Global;
use std::mem::replace;

/// What a run is given: its list where one was said, its nodes, the numbers of the calls that fail, and how many bytes come at
/// a time, or 0 where that has no bound.
#[derive(Drop)]
pub struct Given {
    pub list: Option<Vec<u8>>,
    pub nodes: Nodes,
    pub list_fails: Vec<u64>,
    pub tree_fails: Vec<u64>,
    pub outs_fails: Vec<u64>,
    pub wire_fails: Vec<(u32, u32)>,
    pub piece: u32,
}

impl Given {
    /// A run of which nothing was said.
    pub fn new(alloc: Global) -> Given {
        Given {
            list: None,
            nodes: Nodes::new(alloc),
            list_fails: Vec::new(alloc),
            tree_fails: Vec::new(alloc),
            outs_fails: Vec::new(alloc),
            wire_fails: Vec::new(alloc),
            piece: 0,
        }
    }

    /// Takes a line, which says more of what the run is given.
    pub fn take(&mut self, alloc: Global, word: &str, rest: &str) -> Result<(), Wrong> {
        match word {
            "list" => self.list_more(alloc, 1, rest),
            "repeat" => self.repeat(alloc, rest),
            "fails" => self.fail(rest),
            "piece" => self.bound(rest),
            _ => self.nodes.take(alloc, word, rest),
        }
    }

    fn bound(&mut self, rest: &str) -> Result<(), Wrong> {
        self.piece = number_of(rest)?;
        Ok(())
    }

    fn repeat(&mut self, alloc: Global, rest: &str) -> Result<(), Wrong> {
        let (times, text) = rest.split_once(' ').unwrap_or((rest, ""));
        self.list_more(alloc, number_of(times)?, text)
    }

    // Adds bytes to the list, so many times.
    fn list_more(&mut self, alloc: Global, times: u32, text: &str) -> Result<(), Wrong> {
        let bytes = bytes_of(alloc, text)?;
        let mut list = match replace(&mut self.list, None) {
            Some(list) => list,
            None => Vec::new(alloc),
        };
        for _ in 0..times {
            list.extend_from_slice(&bytes)?;
        }
        self.list = Some(list);
        Ok(())
    }

    fn fail(&mut self, rest: &str) -> Result<(), Wrong> {
        let (place, number) = rest.split_once(' ').unwrap_or((rest, ""));
        let number = number_of(number)?;
        match place {
            "list" => self.list_fails.push(u64::from(number))?,
            "tree" => self.tree_fails.push(u64::from(number))?,
            "outs" => self.outs_fails.push(u64::from(number))?,
            "wire" => self.wire_fails.push((0, number))?,
            _ => return Err(Wrong::Form("no place at which calls fail")),
        }
        Ok(())
    }
}
