// Reading an image.
ghost use Rattle.job_frames.specs.Images.{IsImageRead, image_verdict};

use crate::frame_reader::{begin, feed, is_whole};
use crate::request_due::Token;
use crate::request_frame::begin_frame;
use crate::{Fed, FrameError};
use base_types::List;
use std::alloc::Global;
use tree_model::{CanonPath, Entry};

/// The entries of an image, or why it is none: `Cut` where it ends too early, `Order` where bytes stand behind it, and else
/// the reasons of a request's entries. An image has the room of a request, 268,435,456 bytes.
pub fn read_entries(alloc: Global, image: &[u8]) -> Result<List<(CanonPath, Entry)>, FrameError>
    ensures { IsImageRead result (image_verdict image.now) }
{
    let mut reader = begin(alloc, begin_frame(alloc, Token::Count));
    let fed = feed(&mut reader, false, image);
    // where the verdict is `Done`, the reader has the value
    let _is_whole = is_whole(&reader);
    let (_, entries) = reader.into_frame().into_parts();
    match fed {
        Fed::Refused(e) => Err(e),
        Fed::More => Err(FrameError::Cut),
        Fed::Done => Ok(entries),
    }
}
