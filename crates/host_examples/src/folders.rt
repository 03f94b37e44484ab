// What no clause says of the host's files: that the tree shows them, and what it answers where they can't be read.
use crate::test_folder::{joined, new_folder};
use host_tree::Folder;
use std::alloc::{AllocError, Global};
use std::fs::{self, File};
use std::io;
use std::os::unix::fs::symlink;
use std::process::Abort;
use std::test::Fail;
use tree_model::{CanonPath, Node, Tree, TreeError};

const TEXT: &[u8] = b"int x;\n";

// A folder for a test, with files, links and a folder in it.
fn full_folder(rt: &HostRuntime, name: &str) -> Result<String, Fail> {
    let folder = new_folder(rt, name)?;
    fs::create_dir_all(rt, &joined(rt.alloc(), &folder, "/inside")?)?;
    write_files(rt, &folder)?;
    symlink(rt, "loop", &joined(rt.alloc(), &folder, "/loop")?)?;
    symlink(rt, "a.h", &joined(rt.alloc(), &folder, "/alias.h")?)?;
    Ok(folder)
}

fn write_files(rt: &HostRuntime, folder: &str) -> io::Result<()> {
    fs::write(rt, &joined(rt.alloc(), folder, "/a.h")?, TEXT)?;
    fs::write(rt, &joined(rt.alloc(), folder, "/gone.h")?, TEXT)?;
    File::create(rt, &joined(rt.alloc(), folder, "/large.h")?)?.set_len(16_777_217)
}

// The path that a text spells, or the root where it spells none.
fn path_of(alloc: Global, text: &[u8]) -> Result<CanonPath, AllocError> {
    match CanonPath::read(alloc, text)? {
        Some(path) => Ok(path),
        None => CanonPath::root(alloc),
    }
}

// What stands at a path, in a word.
fn kind_at<T: Tree>(tree: &mut T, path: &CanonPath) -> &'static str {
    match tree.node(path) {
        Ok(Some(Node::Dir)) => "directory",
        Ok(Some(Node::File)) => "file",
        Ok(Some(Node::Link(_))) => "link",
        Ok(None) => "nothing",
        Err(_) => "error",
    }
}

// What reading a path gives, in a word.
fn body_at<T: Tree>(tree: &mut T, path: &CanonPath) -> &'static str {
    match tree.read(path) {
        Ok(Some(body)) if body.as_slice() == TEXT => "the text",
        Ok(Some(_)) => "another text",
        Ok(None) => "nothing",
        Err(TreeError::Fault) => "fault",
        Err(TreeError::Large) => "large",
        Err(TreeError::Memory) => "memory",
    }
}

const KINDS: [(&str, &str); 8] = [
    ("", "directory"),
    ("/inside", "directory"),
    ("/a.h", "file"),
    ("/alias.h", "file"),
    ("/large.h", "file"),
    ("/b.h", "nothing"),
    ("/a.h/b.h", "nothing"),
    ("/loop", "nothing"),
];

fn shows_nodes<R: Abort, T: Tree>(
    handle: &R,
    alloc: Global,
    tree: &mut T,
    folder: &str,
) -> Result<(), Fail> {
    for (name, kind) in &KINDS {
        let path = path_of(alloc, joined(alloc, folder, name)?.as_bytes())?;
        assert_eq!(handle; kind_at(tree, &path), *kind, "at {name}");
    }
    Ok(())
}

// A path of 4,096 bytes, the longest, which the host doesn't take.
fn long_path(alloc: Global) -> Result<Vec<u8>, AllocError> {
    let mut text = Vec::new(alloc);
    for place in 0..4096u32 {
        text.push(if place % 256 == 0 { b'/' } else { b'a' })?;
    }
    Ok(text)
}

fn shows_nothing<R: Abort, T: Tree>(
    handle: &R,
    alloc: Global,
    tree: &mut T,
    text: &[u8],
) -> Result<(), Fail> {
    let path = path_of(alloc, text)?;
    assert_eq!(handle; kind_at(tree, &path), "nothing");
    Ok(())
}

#[test]
fn a_folder_shows_files_and_directories_alone(rt: HostRuntime) -> Result<(), Fail> {
    let alloc = rt.alloc();
    let folder = full_folder(&rt, "shown")?;
    let mut tree = Folder::new(rt.clone()?);
    shows_nodes(&rt, alloc, &mut tree, &folder)?;
    shows_nothing(&rt, alloc, &mut tree, b"/dev/null")?;
    shows_nothing(&rt, alloc, &mut tree, b"/dev/\xff")?;
    shows_nothing(&rt, alloc, &mut tree, long_path(alloc)?.as_slice())?;
    fs::remove_dir_all(&rt, &folder)?;
    Ok(())
}

const BODIES: [(&str, &str); 5] = [
    ("/a.h", "the text"),
    ("/alias.h", "the text"),
    ("/large.h", "large"),
    ("/inside", "fault"),
    ("/gone.h", "fault"),
];

fn gives_bodies<R: Abort, T: Tree>(
    handle: &R,
    alloc: Global,
    tree: &mut T,
    folder: &str,
) -> Result<(), Fail> {
    for (name, body) in &BODIES {
        let path = path_of(alloc, joined(alloc, folder, name)?.as_bytes())?;
        assert_eq!(handle; body_at(tree, &path), *body, "at {name}");
    }
    Ok(())
}

// The line for the last fault, without its folder.
fn last_line(rt: &HostRuntime, tree: &Folder<HostRuntime>, folder: &str) -> Result<String, Fail> {
    let line = match tree.last_fault() {
        Some(fault) => format!(in rt.alloc(); "{fault}")?,
        None => String::new(rt.alloc()),
    };
    let line = line.strip_prefix(folder).unwrap_or("");
    Ok(String::from_str(rt.alloc(), line)?)
}

#[test]
fn a_file_that_went_away_is_a_fault(rt: HostRuntime) -> Result<(), Fail> {
    let folder = full_folder(&rt, "read")?;
    let mut tree = Folder::new(rt.clone()?);
    let gone = joined(rt.alloc(), &folder, "/gone.h")?;
    let path = path_of(rt.alloc(), gone.as_bytes())?;
    assert_eq!(rt; kind_at(&mut tree, &path), "file");
    fs::remove_file(&rt, &gone)?;
    gives_bodies(&rt, rt.alloc(), &mut tree, &folder)?;
    let line = last_line(&rt, &tree, &folder)?;
    assert_eq!(rt;
        line.as_str(),
        "/gone.h: No such file or directory (os error 2)"
    );
    fs::remove_dir_all(&rt, &folder)?;
    Ok(())
}
