//! The frames between a client and a daemon: requests and replies, written, and read in any pieces; and images, which are
//! a request's entries alone. A frame is a list of
//! tokens, four capital letters and eight lower hexadecimal digits, some of which have a body of that many bytes behind
//! them.
#![tactic(auto)]

mod answer;
mod field;
mod fields;
mod frame_reader;
mod image;
mod judges;
mod laws;
mod machine;
mod reader;
mod reply_frame;
mod reply_reader;
mod request_due;
mod request_frame;
mod writers;

pub use answer::Answer;
pub use image::read_entries;
pub use laws::{
    image_spellings, replies_have_ends, reply_spellings, request_spellings, request_trees,
};
pub use reader::RequestReader;
pub use reply_reader::ReplyReader;
pub use writers::{write_entries, write_reply, write_request};

/// Why a frame is refused, by the reasons 1 to 9 of docs/FORMATS.md, "Frames". `Memory`: no memory was found. `Version`: a
/// version other than 0x103. `Token`: other letters than those that are due. `Digits`: a byte that is no lower hexadecimal
/// digit. `Limit`: a number outside its limits, a field that doesn't fit the 268,435,456 bytes of a request or an image, or
/// a link's text with a byte 0. `Order`: a path that doesn't come behind the one before it, a length that a reply's status
/// doesn't allow, or bytes behind a reply or an image. `Parent`: a path that isn't canonical, or whose parent is neither
/// the root nor a directory before it. `Words`: words that give no job. `Cut`: the bytes ended too early.
#[derive(Clone, Copy, Debug, PartialEq, Eq, Drop)]
pub enum FrameError {
    Memory,
    Version,
    Token,
    Digits,
    Limit,
    Order,
    Parent,
    Words,
    Cut,
}

/// The verdict on all bytes so far. `More`: nothing is wrong yet. `Done`: a whole frame has come. `Refused`: the reason of
/// the first byte that is wrong, or want of memory.
#[derive(Clone, Copy, Debug, PartialEq, Eq, Drop)]
pub enum Fed {
    More,
    Done,
    Refused(FrameError),
}
