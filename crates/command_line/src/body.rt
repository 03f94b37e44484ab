// The bodies of the host's files.
ghost use Rattle.std.specs.Prelude.{◌≤◌, length, IfOk};
ghost use Rattle.base_types.specs.Limits.{body_limit};
ghost use Rattle.command_line.specs.Read.{IsSmallFile};

use anyhow::{Result, bail};
use base_types::limits::BODY_LIMIT;
use std::alloc::Global;
use std::fs::{self, File, OpenFile};
use std::io::{self, ErrorKind, Read};
use std::rt::Files;

/// What there is to read at a path.
#[derive(Drop)]
pub enum FileBody {
    /// A folder, a device, or another node that is no file.
    NoFile,
    /// A file of more than 16,777,216 bytes.
    Large,
    Whole(Vec<u8>),
}

/// What there is to read at a path. The path is looked at, and opened where a file stands there: [`read_seen`].
pub fn read_file<R: Files + AllocGlobal>(rt: &R, path: &str) -> io::Result<FileBody>
    ensures { IfOk result IsSmallFile }
{
    if !fs::metadata(rt, path)?.is_file() {
        return Ok(FileBody::NoFile);
    }
    read_seen(rt, path)
}

/// What there is to read at a path at which a file was seen: it is opened, and what is open then is looked at once more and read, in one
/// read where it is as long as that look said, and no further than one byte behind the limit. An error is the host's:
/// nothing stands at the path, it may not be opened or read, or there is no memory for its bytes.
pub fn read_seen<R: Files + AllocGlobal>(rt: &R, path: &str) -> io::Result<FileBody>
    ensures { IfOk result IsSmallFile }
{
    let file = File::open(rt, path)?;
    let found = file.metadata()?;
    if !found.is_file() {
        return Ok(FileBody::NoFile);
    }
    if found.len() > BODY_LIMIT as u64 {
        return Ok(FileBody::Large);
    }
    read_to_limit(rt.alloc(), file, found.len() as usize)
}

// Reads what is said to have so many bytes: to the end, or until there is more than the limit.
fn read_to_limit<F: Read + Drop>(alloc: Global, file: F, said: usize) -> io::Result<FileBody>
    requires { said ≤ body_limit }
    ensures { IfOk result IsSmallFile }
{
    let mut file = file;
    let mut bytes = Vec::new(alloc);
    bytes.resize(said + 1, 0)?;
    let count = read_once(&mut file, bytes.as_mut_slice())?;
    bytes.truncate(count);
    if count > 0 && count == said {
        return Ok(FileBody::Whole(bytes));
    }
    file.take((BODY_LIMIT + 1) as u64).read_to_end(&mut bytes)?;
    if bytes.len() > BODY_LIMIT {
        return Ok(FileBody::Large);
    }
    Ok(FileBody::Whole(bytes))
}

// One read, which a signal may end before anything came.
fn read_once<F: Read>(file: &mut F, room: &mut [u8]) -> io::Result<usize>
    ensures { IfOk result (λ count. count ≤ length room.new) }
{
    match file.read(room) {
        Err(error) if error.kind() == ErrorKind::Interrupted => Ok(0),
        count => count,
    }
}

/// The body of a file. The error says that what stands at the path is no file, that it has more than 16 MiB, or why the host
/// didn't read it; want of memory is one of the host's errors.
pub fn read_body<R: Files + AllocGlobal>(rt: &R, path: &str) -> Result<Vec<u8>>
    ensures { IfOk result (λ body. length body.items ≤ body_limit) }
{
    match read_file(rt, path)? {
        FileBody::NoFile => bail!("not a file"),
        FileBody::Large => bail!("more than {BODY_LIMIT} bytes"),
        FileBody::Whole(body) => Ok(body),
    }
}
