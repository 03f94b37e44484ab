// What a run says on standard error: what the host failed at, what is wrong with the list, and why.
use crate::wrong_list::{WrongList, wrong_list};
use command_line::{tell, wrong_words};
use host_tree::Folder;
use io_edges::{FolderOuts, HostFault};
use std::io;
use std::rt::Files;

/// The program's name.
pub const NAME: &str = "pump_program";

/// Says what the host failed at in the tree and in the outputs.
pub fn tell_faults<R: Files + AllocGlobal + Eprint + Drop>(
    rt: &R,
    tree: &Folder<R>,
    outs: &FolderOuts<R>,
) {
    tell_fault(rt, tree.last_fault());
    tell_fault(rt, outs.last_fault());
}

fn tell_fault<R: Eprint>(rt: &R, fault: Option<&HostFault>) {
    if let Some(fault) = fault {
        tell(rt, NAME, fault);
    }
}

/// Says why the host failed at a standard stream, if it did.
pub fn tell_stream<R: Eprint>(rt: &R, stream: &str, error: Option<io::Error>) {
    if let Some(error) = error {
        let _ = eprintln!(rt; "{NAME}: {stream}: {error}");
    }
}

/// Says what a status stands for that the lines before don't tell: wrong words, a wrong list, of which this was read, or want of
/// memory.
pub fn tell_status<R: Eprint + AllocGlobal>(rt: &R, status: u8, list: Option<&[u8]>) {
    match status {
        2 => {
            let _ = wrong_words(rt, NAME);
        }
        3 => tell_list(rt, list),
        5 => tell(rt, NAME, "out of memory"),
        _ => {}
    }
}

fn tell_list<R: Eprint + AllocGlobal>(rt: &R, list: Option<&[u8]>) {
    let Some(list) = list else {
        return;
    };
    if let Ok(Some(wrong)) = wrong_list(rt.alloc(), list) {
        tell_wrong(rt, &wrong);
    }
}

fn tell_wrong<R: Eprint>(rt: &R, wrong: &WrongList) {
    let WrongList { line, word, why } = wrong;
    let _ = match (line, word) {
        (0, _) => eprintln!(rt; "{NAME}: list: {why}"),
        (line, None) => eprintln!(rt; "{NAME}: list line {line}: {why}"),
        (line, Some(word)) => {
            let word = word.as_slice().escape_ascii();
            eprintln!(rt; "{NAME}: list line {line}: '{word}': {why}")
        }
    };
}
