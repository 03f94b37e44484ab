// Named bodies that are written as files below a folder.
ghost use Rattle.std.specs.Prelude.{◌≡◌, ◌<◌, None, IfOk, length};

use crate::host_fault::HostFault;
use crate::outs::{OutFault, Outs};
use base_types::Bytes;
use std::alloc::{AllocError, Global};
use std::fs::{self, File, Files};
use std::io::{self, ErrorKind, Write};

/// Files below one folder. It doesn't tell them.
///
/// A body lies at the folder's text, `/`, and its name without a first `/`, in parent folders that are made where
/// they are missing. It is written to a new file in the last of them, which is then renamed: what is there, a link too, is
/// replaced, and where the host fails it stays as it was, and of the new file nothing is left. So it is where the name is one
/// of a folder. A link to a folder that stands among the parents is followed, wherever it leads.
///
/// A name is a fault where it is no UTF-8, has a byte 0 or the component `..`, or where its last component is empty or `.`.
#[derive(Drop)]
pub struct FolderOuts<R: Files> {
    files: R,
    alloc: Global,
    folder: String,
    faults: u64,
    last: Option<HostFault>,
}

impl<R: Files + Drop> FolderOuts<R> {
    /// The files below this folder, which need not be there yet. Its text isn't empty.
    pub fn new(files: R, alloc: Global, folder: &str) -> Result<FolderOuts<R>, AllocError>
        requires { 0 < length folder.now }
        ensures fresh { IfOk result (λ outs. ⟦<FolderOuts<R> as Outs>⟧.faults outs ≡ 0) }
    {
        Ok(FolderOuts {
            files,
            alloc,
            folder: String::from_str(alloc, folder)?,
            faults: 0,
            last: None,
        })
    }

    /// What the host failed at last, and why.
    pub fn last_fault(&self) -> Option<&HostFault> {
        self.last.as_ref()
    }
}

impl<R: Files> Outs for FolderOuts<R> {
    ghost kept = { λ _. None };

    ghost faults = { λ s. s.faults };

    fn put(&mut self, name: &[u8], body: &[u8]) -> Result<(), OutFault> {
        match write_below(&self.files, self.alloc, &self.folder, name, body) {
            Ok(()) => Ok(()),
            Err(error) if error.kind() == ErrorKind::OutOfMemory => Err(OutFault::Memory),
            Err(error) => {
                self.faults = self.faults.saturating_add(1);
                let place = place_of(self.alloc, &self.folder, name);
                self.last = Some(HostFault::new(place, error));
                Err(OutFault::Fault)
            }
        }
    }
}

// The place of a name in a folder, or no bytes where there is no memory for them.
fn place_of(alloc: Global, folder: &str, name: &[u8]) -> Bytes {
    match joined(alloc, folder, name) {
        Ok(place) => place,
        Err(_) => Bytes::new(alloc),
    }
}

fn joined(alloc: Global, folder: &str, name: &[u8]) -> Result<Bytes, AllocError> {
    let mut place = Bytes::copy_of(alloc, folder.as_bytes())?;
    place.extend(b"/")?;
    place.extend(name)?;
    Ok(place)
}

fn write_below<R: Files>(
    files: &R,
    alloc: Global,
    folder: &str,
    name: &[u8],
    body: &[u8],
) -> io::Result<()> {
    let below = path_below(name)?;
    let path = format!(in alloc; "{folder}/{below}")?;
    match path.rsplit_once('/') {
        Some((parent, _)) => replace(files, alloc, parent, &path, body),
        None => Err(refused("no folder")),
    }
}

// The path that a name is below the folder, unless it could lead out of it or is none of a file.
fn path_below(name: &[u8]) -> io::Result<&str> {
    let Ok(text) = str::from_utf8(name) else {
        return Err(refused("the name is no UTF-8"));
    };
    let below = text.strip_prefix("/").unwrap_or(text);
    if below.contains('\0') {
        return Err(refused("the name has a byte 0"));
    }
    if below.split('/').any(|component| component == "..") {
        return Err(refused("the name leads out of the folder"));
    }
    if let Some("" | ".") = below.rsplit('/').next() {
        return Err(refused("the name is none of a file"));
    }
    Ok(below)
}

fn refused(why: &str) -> io::Error {
    io::Error::new(ErrorKind::InvalidInput, why)
}

// Puts a file with this body in the place of what stands at the path. Where that fails nothing is left of it.
fn replace<R: Files>(
    files: &R,
    alloc: Global,
    parent: &str,
    path: &str,
    body: &[u8],
) -> io::Result<()> {
    let (new, file) = new_file_below(files, alloc, parent)?;
    let replaced = fill_and_rename(files, &new, file, path, body);
    if replaced.is_err() {
        let _ = fs::remove_file(files, &new);
    }
    replaced
}

fn fill_and_rename<R: Files>(
    files: &R,
    new: &str,
    mut file: R::File,
    path: &str,
    body: &[u8],
) -> io::Result<()> {
    file.write_all(body)?;
    fs::rename(files, new, path)
}

// A new file in a folder, which is made where it is missing, and the file's path.
fn new_file_below<R: Files>(
    files: &R,
    alloc: Global,
    folder: &str,
) -> io::Result<(String, R::File)> {
    match new_file(files, alloc, folder) {
        Err(error) if error.kind() == ErrorKind::NotFound => {
            fs::create_dir_all(files, folder)?;
            new_file(files, alloc, folder)
        }
        made => made,
    }
}

// How many names are tried for a new file. One stays behind where a run is killed while it writes.
const NAMES: u32 = 10_000;

// A new file in a folder, under the first number that is free, and its path.
fn new_file<R: Files>(files: &R, alloc: Global, folder: &str) -> io::Result<(String, R::File)> {
    for number in 0..NAMES {
        let path = format!(in alloc; "{folder}/.new-{number}")?;
        match File::create_new(files, path.as_str()) {
            Ok(file) => return Ok((path, file)),
            Err(error) if error.kind() == ErrorKind::AlreadyExists => {}
            Err(error) => return Err(error),
        }
    }
    Err(io::Error::from(ErrorKind::AlreadyExists))
}
