//! The files of the system as a library and as a disk, and standard output as a sink. They tell no
//! contents; the disk tells the paths that it was to bind.
#![tactic(auto)]

mod again;
mod disk;
mod files;
mod gate;
mod limits;
mod output;

pub use disk::FileDisk;
pub use files::FileLibrary;
pub use gate::OpenGate;
pub use output::StandardSink;
