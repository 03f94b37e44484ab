// The texts of the files and of the list.
ghost use Rattle.std.specs.Prelude.{◌≡◌, ◌≤◌, ◌++◌, IfOk, OnOk};
ghost use Rattle.tree_gen.specs.Generated as made;

use base_types::Bytes;
use std::alloc::{AllocError, Global};

/// The text of a header.
pub(crate) fn header_text(alloc: Global, number: u32) -> Result<Bytes, AllocError>
    ensures { IfOk result (λ text. text ≡ made.header_text number) }
{
    let mut text = Vec::from_slice(alloc, b"#pragma once\n")?;
    add_include(alloc, &mut text, number)?;
    add_macro(alloc, &mut text, number)?;
    Ok(Bytes::of(text))
}

// The directive that includes the header of half the number.
fn add_include(alloc: Global, text: &mut Vec<u8>, number: u32) -> Result<(), AllocError>
    ensures { OnOk result (text.new.items ≡ text.old.items ++ made.half_include_line number) }
{
    if number == 0 {
        return Ok(());
    }
    let half = number / 2;
    let line = format!(in alloc; "#include \"h{half}.h\"\n")?;
    text.extend_from_slice(line.as_bytes())
}

// The header's macro and its function.
fn add_macro(alloc: Global, text: &mut Vec<u8>, number: u32) -> Result<(), AllocError>
    ensures { OnOk result (text.new.items ≡ text.old.items ++ made.macro_lines number) }
{
    let third = number % 3;
    let lines = format!(in alloc;
        "#define V{number} ({number} + F{third})\nint v{number}(void) {{ return V{number}; }}\n"
    )?;
    text.extend_from_slice(lines.as_bytes())
}

/// The text of a source.
pub(crate) fn source_text(alloc: Global, number: u32) -> Result<Bytes, AllocError>
    requires { number ≤ 5000 }
    ensures { IfOk result (λ text. text ≡ made.source_file_text number) }
{
    let own = 4 * number + 3;
    let text = format!(in alloc;
        "#define H <h{own}.h>\n#include H\n#include \"h{number}.h\"\nint s{number} = V{own};\n"
    )?;
    Bytes::copy_of(alloc, text.as_bytes())
}

/// The lines of the jobs, one for each source.
pub(crate) fn job_lines(alloc: Global, sources: u32) -> Result<Bytes, AllocError>
    ensures { IfOk result (λ lines. lines ≡ made.job_lines sources) }
{
    let mut lines = Vec::new(alloc);
    for number in 0..sources {
        add_job_line(alloc, &mut lines, number)?;
    }
    Ok(Bytes::of(lines))
}

fn add_job_line(alloc: Global, lines: &mut Vec<u8>, number: u32) -> Result<(), AllocError>
    ensures { OnOk result (lines.new.items ≡ lines.old.items ++ made.job_line number) }
{
    let line = format!(in alloc; "/g s/s{number}.c -o s{number}.i -Ih -DF0=0 -DF1=1 -DF2=2\n")?;
    lines.extend_from_slice(line.as_bytes())
}
