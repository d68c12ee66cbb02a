//! How often a disk was called, and how often it has failed.

ghost use Rattle.std.specs.Prelude.{◌≡◌, ◌<◌, ◌^◌, if◌then◌else◌};
ghost use Rattle.ac_outside.specs.Told.{one_more};

/// The number of calls, of those that failed, and how many had as the latest call began.
#[derive(Clone, Copy, Debug)]
pub(crate) struct Counts {
    pub(crate) calls: u64,
    pub(crate) faults: u64,
    pub(crate) earlier: u64,
}

impl Counts {
    /// No calls.
    pub(crate) fn new() -> Counts
        ensures { result ≡ record { calls = 0; faults = 0; earlier = 0 } }
    {
        Counts {
            calls: 0,
            faults: 0,
            earlier: 0,
        }
    }

    /// Counts a call, and whether it failed.
    pub(crate) fn count(&mut self, failed: bool)
        ensures calls { self.new.calls ≡ one_more self.old.calls }
        ensures faults { self.new.faults ≡ (if failed then one_more self.old.faults else self.old.faults) }
        ensures earlier { self.new.earlier ≡ self.old.faults }
        ensures few { self.old.faults < 2 ^ 64 }
    {
        let faults = self.faults.saturating_add(1);
        self.calls = self.calls.saturating_add(1);
        self.earlier = self.faults;
        if failed {
            self.faults = faults;
        }
    }
}
