// Folders for the tests over the host's files.
use std::alloc::{AllocError, Global};
use std::test::Fail;
use std::{env, fs, process};

/// A new folder in the working directory, named by the test and by this process.
pub fn new_folder(rt: &HostRuntime, name: &str) -> Result<String, Fail> {
    let here = env::current_dir(rt)?;
    let here = here.as_str();
    let number = process::id(rt.process());
    let folder = format!(in rt.alloc(); "{here}/{name}_{number}")?;
    fs::create_dir_all(rt, &folder)?;
    Ok(folder)
}

/// A name below a folder.
pub fn joined(alloc: Global, folder: &str, name: &str) -> Result<String, AllocError> {
    Ok(format!(in alloc; "{folder}{name}")?)
}
