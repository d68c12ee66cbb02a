//! What comes in at a dispatch point.

use crate::running::Running;
use crate::values::{CANCELLED, OK};
use ac_base::{Entry, Event, Message, NoMemory, Payload};
use cancel_scope::Asked;
use core_operators::put_message;
use work_item::{BlockId, Cell, Item};

impl Running<'_> {
    ghost use Rattle.std.specs.Prelude.{◌≡◌, ◌<◌, Some, None, [], ◌∷◌, ◌++◌, true, false, find, length, IsSome, IfSome, OnOk};
    ghost use Rattle.ac_base.specs.declared.entry.Event.{Event};
    ghost use Rattle.ac_base.specs.declared.entry.Payload.{Payload};
    ghost use Rattle.work_item.specs.declared.cell.Cell.{Cell};
    ghost use Rattle.work_item.specs.Store.{int_at};
    ghost use Rattle.work_item.specs.Conditions.{HomeLives};
    ghost use Rattle.cancel_scope.specs.declared.operation.Operation.{Operation};
    ghost use Rattle.cancel_scope.specs.Outstanding.{is_to_offer, is_offered, is_to_receive, is_request, carries};
    ghost use Rattle.core_state.specs.Arrivals.{offers_on, keeps_room};
    ghost use Rattle.code_meaning.specs.Machine.{resumed};
    ghost use Rattle.thread_table.specs.Table.{HasPlace};
    ghost use Rattle.core_machine.specs.State.{flat_of, HavePlaces, IsSound};
    ghost use Rattle.core_machine.specs.inner.Changes.{entry_now, IsSameCode, Keeps, Stays, Enters};

    /// Makes room for an entry, and for the thread that it may wake.
    pub fn make_room(&mut self) -> Result<(), NoMemory>
        ensures stays { Stays self.old self.new }
        ensures same { IsSameCode self.old self.new }
        ensures pending { self.old.threads.pending ≡ false → self.new.threads.pending ≡ false }
        ensures journal { OnOk result (0 < self.new.journal.spare) }
        ensures ready { OnOk result (0 < self.new.schedule.spare) }
        ensures settled { OnOk result (self.new.threads.pending ≡ false) }
    {
        self.threads.settle()?;
        self.journal.reserve(1)?;
        self.schedule.reserve(1)?;
        Ok(())
    }

    /// An entry of this turn goes into the journal.
    pub fn note(&mut self, event: Event, stamp: u64)
        requires { 0 < self.old.journal.spare }
        ensures same { self.new ≡ record self.old { journal = self.new.journal } }
        ensures entries { self.new.journal.entries ≡ self.old.journal.entries ++ entry_now self.old event stamp ∷ [] }
    {
        let turn = self.turn;
        self.journal.push(Entry { stamp, turn, event });
    }

    /// The thread whose operation has ended has its value, and goes to the back.
    pub fn resume(&mut self, item: Item, value: i64)
        requires room { 0 < self.old.schedule.spare }
        requires place { HasPlace self.old.threads item }
        requires settled { self.old.threads.pending ≡ false }
        ensures flat { flat_of self.new ≡ resumed (flat_of self.old) (Cell.Int value) (Some item) }
        ensures ended { self.new.ended ≡ self.old.ended }
        ensures keeps { Keeps self.old self.new }
    {
        self.schedule.schedule(item);
        self.threads.give(item, Cell::Int(value));
    }

    /// The oldest operation that is to be offered on a link was offered under that number, by an
    /// offer that carries this.
    pub fn offered(&mut self, link: u32, number: u64, payload: Payload, stamp: u64)
        requires room { 0 < self.old.journal.spare }
        requires next { number ≡ offers_on link self.old.journal.entries }
        requires oldest { IfSome (find (is_to_offer link) self.old.outstanding.operations)
            (λ o. carries o.asked payload ≡ true) }
        requires some { IsSome (find (is_to_offer link) self.old.outstanding.operations) }
        ensures enters { Enters self.old (Event.Offer link number payload) stamp self.new }
        ensures pending { self.new.threads.pending ≡ self.old.threads.pending }
    {
        self.outstanding.offer_oldest(link, number);
        self.note(
            Event::Offer {
                link,
                number,
                payload,
            },
            stamp,
        );
    }

    // The request that stands under that number was taken, and has begun.
    fn know_begun(&mut self, link: u32, number: u64, stamp: u64)
        requires room { 0 < self.old.journal.spare }
        requires some { IsSome (find (is_offered link number) self.old.outstanding.operations) }
        requires request { IfSome (find (is_offered link number) self.old.outstanding.operations)
            (λ o. is_request o.asked ≡ true) }
        ensures enters { Enters self.old (Event.Know link number) stamp self.new }
    {
        self.outstanding.begin_offered(link, number);
        self.note(Event::Know { link, number }, stamp);
    }

    // The operation that stands under that number was taken, and has ended.
    fn know_ended(&mut self, link: u32, number: u64, stamp: u64)
        requires room { 0 < self.old.journal.spare }
        requires ready { 0 < self.old.schedule.spare }
        requires settled { self.old.threads.pending ≡ false }
        requires places { HavePlaces self.old }
        requires some { IsSome (find (is_offered link number) self.old.outstanding.operations) }
        requires ends { IfSome (find (is_offered link number) self.old.outstanding.operations)
            (λ o. is_request o.asked ≡ false) }
        ensures enters { Enters self.old (Event.Know link number) stamp self.new }
    {
        let Some(operation) = self.outstanding.end_offered(link, number) else {
            unreachable!()
        };
        self.note(Event::Know { link, number }, stamp);
        self.resume(operation.item, OK);
    }

    /// The offer under that number was taken: its operation has ended, or it is a request and has
    /// begun.
    pub fn know(&mut self, link: u32, number: u64, stamp: u64)
        requires room { 0 < self.old.journal.spare }
        requires ready { 0 < self.old.schedule.spare }
        requires settled { self.old.threads.pending ≡ false }
        requires places { HavePlaces self.old }
        requires some { IsSome (find (is_offered link number) self.old.outstanding.operations) }
        ensures enters { Enters self.old (Event.Know link number) stamp self.new }
    {
        let Some(operation) = self.outstanding.offered(link, number) else {
            unreachable!()
        };
        if operation.is_request() {
            self.know_begun(link, number, stamp);
        } else {
            self.know_ended(link, number, stamp);
        }
    }

    /// A message has come over a link, for the oldest operation that waits for one, which has ended.
    pub fn got(&mut self, link: u32, number: u64, value: Message, stamp: u64)
        requires room { 0 < self.old.journal.spare }
        requires ready { 0 < self.old.schedule.spare }
        requires settled { self.old.threads.pending ≡ false }
        requires some { IsSome (find (is_to_receive link) self.old.outstanding.operations) }
        requires running { self.old.ended ≡ None }
        requires sound { IsSound self.old }
        ensures enters { Enters self.old (Event.Got link number value) stamp self.new }
    {
        let Some(operation) = self.outstanding.end_receiving(link) else {
            unreachable!()
        };
        let Asked::Recv(place) = operation.asked else {
            unreachable!()
        };
        put_message(&mut self.frames, place, &value);
        self.note(
            Event::Got {
                link,
                number,
                value,
            },
            stamp,
        );
        self.resume(operation.item, OK);
    }

    /// A withdrawn offer was passed over on a link from which an operation waits for a message; it
    /// goes on waiting.
    pub fn passed(&mut self, link: u32, number: u64, stamp: u64)
        requires room { 0 < self.old.journal.spare }
        requires some { IsSome (find (is_to_receive link) self.old.outstanding.operations) }
        ensures enters { Enters self.old (Event.Pass link number) stamp self.new }
        ensures pending { self.new.threads.pending ≡ self.old.threads.pending }
    {
        self.note(Event::Pass { link, number }, stamp);
    }

    /// The room of a withdrawn offer was given back; it changes no operation.
    pub fn roomed(&mut self, link: u32, number: u64, stamp: u64)
        requires room { 0 < self.old.journal.spare }
        requires keeps { keeps_room link number self.old.journal.entries ≡ true }
        ensures enters { Enters self.old (Event.Room link number) stamp self.new }
        ensures pending { self.new.threads.pending ≡ self.old.threads.pending }
    {
        self.note(Event::Room { link, number }, stamp);
    }
}

// ---- the outcome of an offer

impl Running<'_> {
    ghost use Rattle.std.specs.Prelude.{◌≡◌, ◌<◌, Some, IsSome, false, length, slice_get, slice_set};
    ghost use Rattle.std.specs.List.{remove};
    ghost use Rattle.cancel_scope.specs.declared.operation.Operation.{Operation};
    ghost use Rattle.cancel_scope.specs.Outstanding.{as_begun};
    ghost use Rattle.core_state.specs.Arrivals.{goes_on_waiting, has_ended_as};
    ghost use Rattle.core_state.specs.Cancelling.{NeverHappens, IsTaken};
    ghost use Rattle.core_machine.specs.State.{state_of, HavePlaces, IsSound};
    ghost use Rattle.core_machine.specs.Tried.{tried_of};
    ghost use Rattle.core_machine.specs.inner.Deciding.{Makes, Decides};

    // At the cancel of a block, the operation at that place has ended with a value, by an event.
    fn end_tried(&mut self, block: BlockId, place: usize, value: i64, event: Event, stamp: u64)
        requires room { 0 < self.old.journal.spare }
        requires ready { 0 < self.old.schedule.spare }
        requires settled { self.old.threads.pending ≡ false }
        requires places { HavePlaces self.old }
        requires place { place < length self.old.outstanding.operations }
        ensures makes { (o : Operation) → slice_get self.old.outstanding.operations place ≡ Some o → Makes self.old block event stamp
            (has_ended_as value self.old.frames (remove self.old.outstanding.operations place) o) self.new }
    {
        let operation = self.outstanding.end_at(place);
        self.blocks.mark_cancelled(block);
        self.note(event, stamp);
        self.resume(operation.item, value);
    }

    // At the cancel of a block, the request at that place has begun, by an event.
    fn begin_tried(&mut self, block: BlockId, place: usize, event: Event, stamp: u64)
        requires room { 0 < self.old.journal.spare }
        requires place { place < length self.old.outstanding.operations }
        ensures makes { (o : Operation) → slice_get self.old.outstanding.operations place ≡ Some o → Makes self.old block event stamp
            (goes_on_waiting self.old.frames (slice_set self.old.outstanding.operations place (as_begun o))) self.new }
    {
        self.outstanding.begin_at(place);
        self.blocks.mark_cancelled(block);
        self.note(event, stamp);
    }

    /// At a cancel, the operation that it tries never happens, by an event that decides its offer.
    pub fn decide_withdrawn(&mut self, event: Event, stamp: u64)
        requires room { 0 < self.old.journal.spare }
        requires ready { 0 < self.old.schedule.spare }
        requires settled { self.old.threads.pending ≡ false }
        requires asks { IsSome (tried_of self.old.code.now (state_of self.old)) }
        requires sound { IsSound self.old }
        ensures decides { Decides self.old NeverHappens event stamp self.new }
    {
        let Some(block) = self.cancels() else {
            unreachable!()
        };
        let Some(place) = self.oldest_within(block) else {
            unreachable!()
        };
        self.end_tried(block, place, CANCELLED, event, stamp);
    }

    /// At a cancel, the operation that it tries was taken by its peer, by an event that decides its
    /// offer.
    pub fn decide_taken(&mut self, event: Event, stamp: u64)
        requires room { 0 < self.old.journal.spare }
        requires ready { 0 < self.old.schedule.spare }
        requires settled { self.old.threads.pending ≡ false }
        requires asks { IsSome (tried_of self.old.code.now (state_of self.old)) }
        requires sound { IsSound self.old }
        ensures decides { Decides self.old IsTaken event stamp self.new }
    {
        let Some(block) = self.cancels() else {
            unreachable!()
        };
        let Some(place) = self.oldest_within(block) else {
            unreachable!()
        };
        if self.outstanding.get(place).is_request() {
            self.begin_tried(block, place, event, stamp);
        } else {
            self.end_tried(block, place, OK, event, stamp);
        }
    }
}
