//! What cores and a worker whose ends are settled have made together: a law.
#![tactic(auto)]

mod law;

pub use law::{settled_ends_leave_the_disk, settled_ends_make_a_run};
