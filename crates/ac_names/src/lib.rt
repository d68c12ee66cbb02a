//! What a name means where it stands: scopes, what statements, parameters and items declare, and the slots and numbers that they take.
#![tactic(auto)]

mod kind;
mod meaning;
mod names;
mod numbered;
mod params;
mod past;
mod scopes;
mod table;

pub use kind::{NameKind, is_kind, is_other};
pub use meaning::Meaning;
pub use names::{Names, array_len};
pub use numbered::{capacity_size, find_capacity, find_core, find_path};
pub use params::kinds_of;
pub use past::{Counts, Past, whole};
pub use scopes::Scopes;
pub use table::Table;
