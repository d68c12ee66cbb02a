//! What is new on a link between two parties. No clause stands on it: by it a run chooses who goes on next.

use crate::core_party::CoreParty;
use ac_outside::Disk;
use file_worker::Worker;

impl<'a> CoreParty<'a> {
    // Whether it has something to learn on a link on which so many of its offers are decided.
    fn has_to_learn(&self, link: u32, decided: u64) -> bool {
        !self.driver.machine().ended() && self.ports.known(link) < decided
    }

    // Whether it awaits the reply to a request. The worker gives it as it decides the request, so that a
    // settling has brought it.
    fn awaits_reply(&self) -> bool {
        !self.driver.machine().ended() && self.ports.awaits_reply()
    }

    // Whether it waits for a message on a link where one of so many offers is not decided.
    fn has_to_take(&self, link: u32, offered: u64) -> bool {
        !self.driver.machine().ended()
            && self.ports.decided(link) < offered
            && self.driver.machine().receives_from(link)
    }

    /// Whether this core, which sends on the channel, has something to learn there, and the other one
    /// something to take.
    pub(crate) fn news_with(&self, link: u32, other: &CoreParty<'_>) -> (bool, bool) {
        let learns = self.has_to_learn(link, other.ports.decided(link));
        let takes = other.has_to_take(link, self.ports.offered(link));
        (learns, takes)
    }

    /// Whether this core has something to learn of its requests, and the worker some to do.
    pub(crate) fn news_of_requests<D: Disk>(
        &self,
        link: u32,
        worker: &Worker<'_, '_, D>,
    ) -> (bool, bool) {
        let core = self.driver.machine().core();
        if core >= worker.cores() {
            return (false, false);
        }
        let decided = worker.decided(core);
        let learns = self.has_to_learn(link, decided) || self.awaits_reply();
        (learns, decided < self.ports.offered(link))
    }
}
