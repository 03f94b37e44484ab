// The words of a program's command line, and its answers to those that ask for help or are wrong.
ghost use Rattle.std.specs.Prelude.{◌≡◌, IfOk, map, drop};
ghost use Rattle.std.specs.Process.{exit_status};
ghost use Rattle.std.specs.String.{string_bytes};

use std::alloc::{AllocError, Global};
use std::io;
use std::process::ExitCode;

/// The words behind the program's own name. The one error is want of memory.
pub fn words_of<'a>(alloc: Global, arguments: &'a Vec<String>) -> Result<Vec<&'a str>, AllocError>
    ensures { IfOk result (λ words. map (λ word. word.now) words.items ≡ map string_bytes (drop 1 arguments.now.items)) }
{
    let mut words = Vec::new(alloc);
    if let [_, rest @ ..] = arguments.as_slice() {
        for word in rest {
            words.push(word.as_str())?;
        }
    }
    Ok(words)
}

/// Prints what was asked for, and answers the status of success. An error is the host's.
pub fn show<R: Print>(rt: &R, text: &str) -> io::Result<ExitCode>
    ensures { IfOk result (λ status. exit_status status ≡ 0) }
{
    println!(rt; "{text}")?;
    Ok(ExitCode::SUCCESS)
}

/// Prints the help of a program on its standard error, as its words are wrong, and answers status 2. An error is the host's.
pub fn refuse<R: Eprint>(rt: &R, help: &str) -> io::Result<ExitCode>
    ensures { IfOk result (λ status. exit_status status ≡ 2) }
{
    eprintln!(rt; "{help}")?;
    Ok(ExitCode::from(2))
}
