// What a file is read as.
ghost use Rattle.std.specs.Prelude.{◌≡◌, ◌≤◌, ◌+◌, suc, length, IfOk};
ghost use Rattle.directive_scan.specs.Groups.{malformed_by, outline, role_of};
ghost use Rattle.base_types.specs.Limits.{body_limit};
ghost use Rattle.pp_tokens.specs.Lines.{lexed};
ghost use Rattle.daemon_cpp.specs.parts.Reading.{token_count};
ghost use Rattle.daemon_cpp.specs.parts.FileTexts.{IsTextOf, IsJudged};

use base_types::Bytes;
use directive_scan::{Malformed, Pieces};
use pp_tokens::{Lexed, lex_body};
use std::alloc::{AllocError, Global};
use std::marker::Model;

/// A file as it is read: its pieces, how many tokens stand on its lines, the line of a comment that never ends, and what is wrong with
/// its conditionals.
#[derive(Drop)]
pub struct FileText {
    pub pieces: Pieces,
    pub tokens: u64,
    pub open_comment: Option<u32>,
    pub malformed: Option<Malformed>,
}

impl FileText {
    /// That of a body. The only error is want of memory.
    pub fn of_body(alloc: Global, body: Bytes, trigraphs: bool) -> Result<FileText, AllocError>
        requires { length body ≤ body_limit }
        ensures text { IfOk result (IsTextOf (lexed trigraphs body)) }
        ensures judged { IfOk result IsJudged }
    {
        let lexed = lex_body(alloc, body.into_vec()?, trigraphs)?;
        let tokens = count_tokens(&lexed);
        let open_comment = lexed.open_comment();
        let pieces = Pieces::of(alloc, lexed)?;
        let malformed = pieces.malformed(alloc)?;
        Ok(FileText {
            pieces,
            tokens,
            open_comment,
            malformed,
        })
    }

    /// A copy, which shares the pieces. It is refused only where there are 2^63 copies.
    pub fn copy(&self) -> Result<FileText, AllocError>
        ensures { IfOk result (λ copy. copy ≡ self.now) }
    {
        Ok(FileText {
            pieces: self.pieces.copy()?,
            tokens: self.tokens,
            open_comment: self.open_comment,
            malformed: self.malformed,
        })
    }
}

// How many tokens stand on the lines of a file.
fn count_tokens(file: &Lexed) -> u64
    ensures { result ≡ token_count file.now.lines }
{
    file.tokens_before(file.line_count()) as u64
}

/// What a file was read as: its conditionals are judged, and its pieces are few.
#[derive(Drop)]
pub struct Known {
    pub text: FileText,
}

impl Model for Known {
    ghost use Rattle.daemon_cpp.specs.declared.file_text.FileText.{FileText};
    ghost use Rattle.daemon_cpp.specs.parts.FileTexts.{IsJudged};

    ghost Value = { FileText };

    ghost view = { λ k. k.text };

    ghost invariant = { λ k. IsJudged k.text };
}
