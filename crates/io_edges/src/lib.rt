//! The traits of the outside: what is read, what is written, the link to a host, and what starts daemons; and
//! objects that implement them, in memory and over the host.
#![tactic(auto)]

mod folder_outs;
mod host_fault;
mod outs;
mod sink;
mod source;
mod spawner;
mod std_sink;
mod std_source;
mod wire;

pub use folder_outs::FolderOuts;
pub use host_fault::HostFault;
pub use outs::{MemOuts, OutFault, Outs};
pub use sink::{MemSink, Sink, WriteFault};
pub use source::{MemSource, ReadFault, Source};
pub use spawner::{MemSpawner, SpawnFault, Spawner};
pub use std_sink::StdSink;
pub use std_source::StdSource;
pub use wire::{Exchange, Host, LinkFault, LinkState, Wire};
