// The files that a job lexed. A header without a guard that is known at its include is opened again and again, and so is one
// that is read for a part at a time: it is read and lexed once.
ghost use Rattle.std.specs.Prelude.{◌≡◌, ◌≤◌, length, Some, IfOk, IfSome};
ghost use Rattle.base_types.specs.Limits.{body_limit};
ghost use Rattle.pp_tokens.specs.Lines.{lexed};
ghost use Rattle.tree_model.specs.Bodies.{body_within};
ghost use Rattle.daemon_cpp.specs.Prep.{World};
ghost use Rattle.daemon_cpp.specs.parts.FileTexts.{IsTextOf, IsJudged};
ghost use Rattle.daemon_cpp.specs.parts.KnownTexts.{IsTextAt, KnowsTexts, text_kept};

use crate::file_text::{FileText, Known};
use base_types::Bytes;
use std::alloc::{AllocError, Global};
use std::collections::HashMap;
use tree_model::CanonPath;

// How many bytes the bodies may have whose lexed lines are kept, all together: their text and the places of their tokens
// take some three times as much.
const ROOM: usize = 8_388_608;

/// What the files that a job lexed so far are read as, by their paths behind all links.
#[derive(Drop)]
pub struct LexedFiles {
    known: HashMap<CanonPath, Known>,
    room: usize,
}

impl LexedFiles {
    /// None yet.
    pub fn new(alloc: Global) -> LexedFiles
        ensures { (world : World) → KnowsTexts world result }
    {
        LexedFiles {
            known: HashMap::new(alloc),
            room: ROOM,
        }
    }

    /// What the file at a path was read as, if it is kept. The only error is want of memory.
    pub fn get(&self, path: &CanonPath) -> Result<Option<FileText>, AllocError>
        ensures found { IfOk result (λ found. found ≡ text_kept self.now path.now) }
        ensures judged { IfOk result (λ found. IfSome found IsJudged) }
    {
        let Some(known) = self.known.get(path) else {
            return Ok(None);
        };
        Ok(Some(known.text.copy()?))
    }

    /// What a body at a path is read as. It is kept where there is room. The only error is want of memory.
    pub fn read(
        &mut self,
        alloc: Global,
        path: &CanonPath,
        body: Bytes,
        trigraphs: bool,
    ) -> Result<FileText, AllocError>
        requires { length body ≤ body_limit }
        ensures text { IfOk result (IsTextOf (lexed trigraphs body)) }
        ensures judged { IfOk result IsJudged }
        ensures knows { (world : World) → world.trigraphs ≡ trigraphs → Some body ≡ body_within (world.body path.now) → KnowsTexts world self.old → KnowsTexts world self.new }
    {
        let size = body.len();
        let text = FileText::of_body(alloc, body, trigraphs)?;
        if size > self.room {
            return Ok(text);
        }
        let path = path.copy(alloc)?;
        let kept = text.copy()?;
        self.room -= size;
        self.keep(path, kept)?;
        Ok(text)
    }

    // Keeps what the file at a path is read as, if there is memory for it.
    fn keep(&mut self, path: CanonPath, text: FileText) -> Result<(), AllocError>
        requires { IsJudged text }
        ensures { (world : World) → IsTextAt world path text → KnowsTexts world self.old → KnowsTexts world self.new }
    {
        self.known.insert(path, Known { text })?;
        Ok(())
    }
}
