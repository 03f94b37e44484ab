//! Serving one request, from any source into any sink, by preprocessing or by any other answer; the wire in memory, whose
//! other side is an answerer, and the daemon as such a side.
#![tactic(auto)]

mod answerer;
mod buffer_sink;
mod daemon;
mod exchange_calls;
mod last_exchange;
mod mem_wire;
mod piece_source;
mod pieces;
mod preprocessing;
mod reading;
mod replier;
mod replying;
mod scripted;
mod serve_peer;
mod serving;

pub use answerer::Answerer;
pub use daemon::{Serve, daemon_words, inetd};
pub use mem_wire::MemWire;
pub use piece_source::PieceSource;
pub use replier::Replier;
pub use scripted::Scripted;
pub use serve_peer::ServePeer;
pub use serving::{Served, serve, serve_exactly, serve_with};
