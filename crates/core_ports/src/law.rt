//! What the calls of ports are to the journal of their core.

ghost use Rattle.core_ports.specs.Laws.{CoreGoesOn, ClockIsUpToAll};

/// A core that records what its ports tell goes on agreeing with its journal at all its ends, and
/// its clock has the last stamp of the journal.
pub fn a_core_goes_on()
    ensures { CoreGoesOn }
{}

/// The last stamp of a core's journal is at least every stamp at its ends.
pub fn clock_is_up_to_all()
    ensures { ClockIsUpToAll }
{}
