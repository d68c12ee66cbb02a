//! What a call of the program gives.

use ac_base::Status;
use program_run::Ended;

/// The status of a call, and the run from whose journals and ends the report was made, where
/// there was one.
#[derive(Drop)]
pub struct Outcome {
    pub status: Status,
    pub run: Option<Ended>,
}
