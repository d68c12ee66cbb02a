//! What a program meets outside itself: a library of texts that it reads, a sink that it writes
//! to, a disk whose files it keeps, and objects in memory of each kind; and a gate that the parties
//! of its run pass.
#![tactic(auto)]

mod disk;
mod failed;
mod gate;
mod library;
mod memory;
mod memory_disk;
mod names;
mod safe;
mod safe_disk;
mod shelf;
mod sink;
mod store;

pub use disk::{Disk, FILE_BYTES};
pub use failed::{BindFault, Failed, Torn};
pub use gate::Gate;
pub use library::Library;
pub use memory::{MemoryLibrary, MemorySink};
pub use memory_disk::{DiskFail, MemoryDisk};
pub use safe::{KEPT, SafeLibrary, SafeSink};
pub use safe_disk::SafeDisk;
pub use shelf::NamedBytes;
pub use sink::Sink;
