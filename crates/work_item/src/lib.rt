//! What globals and frames of a core hold, and the numbers of frames, threads and blocks, each given once.
#![tactic(auto)]

mod cell;
mod cells;
mod frames;
mod ids;
mod others;
mod table;
mod words;

pub use cell::{Cell, Place};
pub use cells::{CellPart, Cells};
pub use frames::Frames;
pub use ids::{BlockId, FrameId, Item};
