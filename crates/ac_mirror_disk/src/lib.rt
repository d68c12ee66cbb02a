//! A disk that is kept on two devices, and a disk under whose paths another holds what it holds under
//! these with a prefix.
#![tactic(auto)]

mod binding;
mod comparing;
mod counts;
mod disk;
mod mirror;
mod names;
mod pairs;
mod prefixed;
mod rebuilding;
mod room;
mod side;

pub use mirror::MirrorDisk;
pub use prefixed::Prefixed;
pub use rebuilding::Rebuilt;
pub use side::Side;
