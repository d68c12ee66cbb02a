//! The operations of a core that have not ended.

ghost use Rattle.std.specs.Prelude.{◌≡◌, ◌+◌, ◌≤◌, ◌<◌, [], ◌∷◌, ◌++◌, position, find, is_some, map, length};
ghost use Rattle.std.specs.Prelude.{slice_get, slice_set, slice_index_or, Some, IsSome, IfSome, OnSome, OnOk, IfOk, option_copied, ◌↔◌};
ghost use Rattle.std.specs.VecDeque.{deque_len};
ghost use Rattle.cancel_scope.specs.declared.operation.Operation.{Operation};
ghost use Rattle.std.specs.List.{list_any, remove};
ghost use Rattle.cancel_scope.specs.Outstanding.{offered_as, as_begun, is_request, is_to_offer, is_offered, is_begun, is_to_receive};
ghost use Rattle.cancel_scope.specs.Outstanding.{waiting_as, waits_on, change_first, without_first};

use crate::operation::Operation;
use ac_base::{List, NoMemory, Waiting};
use std::alloc::Global;
use std::collections::VecDeque;
use std::marker::Model;

/// The operations of a core that have not ended, the oldest first. It keeps the allocator with
/// which it is made.
///
/// Contracts see them, and the spare: the number of further operations for which there is room.
#[derive(Drop)]
pub struct Outstanding {
    operations: VecDeque<Operation>,
    requests: usize,
}

impl Model for Outstanding {
    ghost use Rattle.std.specs.Prelude.{◌≡◌, ◌-◌, length};
    ghost use Rattle.std.specs.VecDeque.{deque_len, deque_capacity};
    ghost use Rattle.cancel_scope.specs.Roomy.{Roomy};
    ghost use Rattle.std.specs.List.{filter};
    ghost use Rattle.cancel_scope.specs.Outstanding.{is_request};

    ghost Value = { Roomy };

    ghost view = { λ it. record { operations = it.operations.items; spare = deque_capacity it.operations - deque_len it.operations } };

    // how many of them are requests is known without a look at each
    ghost invariant = { λ it. it.requests ≡ length (filter (λ o. is_request o.asked) it.operations.items) };
}

fn any_waits(operations: &VecDeque<Operation>, link: u32) -> bool
    ensures { result ≡ list_any (λ o. waits_on link (waiting_as o)) operations.now.items }
{
    operations.iter().any(|o| o.waits_on(link))
}

// Takes out the operation at a place. The first, which it mostly is, leaves the others where they are.
fn take_out(operations: &mut VecDeque<Operation>, place: usize) -> Option<Operation>
    ensures value { IfSome result (λ o. o ≡ slice_index_or operations.old.items place o) }
    ensures items { OnSome result (operations.new.items ≡ remove operations.old.items place) }
    ensures variant { IsSome result ↔ (place < deque_len operations.old) }
{
    if place == 0 {
        operations.pop_front()
    } else {
        operations.remove(place)
    }
}

impl Outstanding {
    /// No operations.
    pub fn new(alloc: Global) -> Outstanding
        ensures { result.operations ≡ [] }
    {
        Outstanding {
            operations: VecDeque::new(alloc),
            requests: 0,
        }
    }

    /// What is seen of the operations.
    pub fn seen(&self, alloc: Global) -> Result<List<Waiting>, NoMemory>
        ensures { IfOk result (λ it. it ≡ map waiting_as self.now.operations) }
    {
        let mut seen = List::new(alloc);
        for place in 0..self.len() {
            seen.push(self.get(place).seen())?;
        }
        Ok(seen)
    }

    /// Whether one on that link waits, of which only its core knows.
    pub fn waits(&self, link: u32) -> bool
        ensures { result ≡ list_any (waits_on link) (map waiting_as self.now.operations) }
    {
        any_waits(&self.operations, link)
    }

    /// Makes the spare at least n. After want of memory the operations are as before.
    pub fn reserve(&mut self, n: u32) -> Result<(), NoMemory>
        ensures operations { self.new.operations ≡ self.old.operations }
        ensures ok { OnOk result (n ≤ self.new.spare) }
        ensures spare { self.old.spare ≤ self.new.spare }
    {
        self.operations.reserve(n as usize)?;
        Ok(())
    }

    /// An operation starts, and is the newest. It takes no memory.
    ///
    /// Condition: the spare is positive.
    pub fn add(&mut self, operation: Operation)
        requires { 0 < self.old.spare }
        ensures operations { self.new.operations ≡ self.old.operations ++ operation ∷ [] }
        ensures spare { self.new.spare + 1 ≡ self.old.spare }
    {
        // There are no more requests than operations, so their number fits.
        let _room = self.operations.capacity();
        if operation.is_request() {
            self.requests += 1;
        }
        self.operations.push_back_reserved(operation);
    }

    /// Whether one is a request of a file. It takes as long for many operations as for one.
    pub fn has_requests(&self) -> bool
        ensures { result ≡ list_any (λ o. is_request o.asked) self.now.operations }
    {
        self.requests != 0
    }

    /// How many there are.
    pub fn len(&self) -> usize
        ensures { result ≡ length self.now.operations }
    {
        self.operations.len()
    }

    /// The operation at a place; the oldest is at 0.
    ///
    /// Condition: the place is below the length.
    pub fn get(&self, place: usize) -> &Operation
        requires { place < length self.now.operations }
        ensures { slice_get self.now.operations place ≡ Some result.now }
    {
        &self.operations[place]
    }

    // The place of the oldest operation that is to be offered on a link.
    fn first_to_offer(&self, link: u32) -> Option<usize>
        ensures { result ≡ position (is_to_offer link) self.now.operations }
    {
        self.operations.iter().position(|o| o.is_to_offer(link))
    }

    // The place of the operation that stands on a link under a number.
    fn first_offered(&self, link: u32, number: u64) -> Option<usize>
        ensures { result ≡ position (is_offered link number) self.now.operations }
    {
        self.operations
            .iter()
            .position(|o| o.is_offered(link, number))
    }

    // The place of the operation that has begun on a link under a number.
    fn first_begun(&self, link: u32, number: u64) -> Option<usize>
        ensures { result ≡ position (is_begun link number) self.now.operations }
    {
        self.operations
            .iter()
            .position(|o| o.is_begun(link, number))
    }

    // The place of the oldest operation that waits for a message from a link.
    fn first_to_receive(&self, link: u32) -> Option<usize>
        ensures { result ≡ position (is_to_receive link) self.now.operations }
    {
        self.operations.iter().position(|o| o.is_to_receive(link))
    }

    /// The oldest operation that is to be offered on a link.
    pub fn to_offer(&self, link: u32) -> Option<&Operation>
        ensures { option_copied result ≡ find (is_to_offer link) self.now.operations }
    {
        let place = self.first_to_offer(link)?;
        Some(self.get(place))
    }

    /// The operation that stands on a link under a number.
    pub fn offered(&self, link: u32, number: u64) -> Option<&Operation>
        ensures { option_copied result ≡ find (is_offered link number) self.now.operations }
    {
        let place = self.first_offered(link, number)?;
        Some(self.get(place))
    }

    /// Whether one waits for a message from a link.
    pub fn wants(&self, link: u32) -> bool
        ensures { result ≡ is_some (find (is_to_receive link) self.now.operations) }
    {
        self.first_to_receive(link).is_some()
    }

    /// The oldest operation that is to be offered on a link is offered under a number.
    pub fn offer_oldest(&mut self, link: u32, number: u64)
        ensures operations { self.new.operations
            ≡ change_first (is_to_offer link) (offered_as number) self.old.operations }
        ensures spare { self.new.spare ≡ self.old.spare }
    {
        if let Some(place) = self.first_to_offer(link) {
            self.operations[place].offer(number);
        }
    }

    /// The operation that stands on a link under a number has begun.
    pub fn begin_offered(&mut self, link: u32, number: u64)
        ensures operations { self.new.operations
            ≡ change_first (is_offered link number) as_begun self.old.operations }
        ensures spare { self.new.spare ≡ self.old.spare }
    {
        if let Some(place) = self.first_offered(link, number) {
            self.operations[place].begin();
        }
    }

    /// The operation at a place has begun, where it was offered.
    ///
    /// Condition: the place is below the length.
    pub fn begin_at(&mut self, place: usize)
        requires { place < length self.old.operations }
        ensures operations { (o : Operation) → slice_get self.old.operations place ≡ Some o
            → self.new.operations ≡ slice_set self.old.operations place (as_begun o) }
        ensures spare { self.new.spare ≡ self.old.spare }
    {
        self.operations[place].begin();
    }

    /// Takes away the operation that stands on a link under a number, and gives it.
    pub fn end_offered(&mut self, link: u32, number: u64) -> Option<Operation>
        ensures result { result ≡ find (is_offered link number) self.old.operations }
        ensures operations { self.new.operations
            ≡ without_first (is_offered link number) self.old.operations }
    {
        let place = self.first_offered(link, number)?;
        Some(self.end_at(place))
    }

    /// Takes away the operation that has begun on a link under a number, and gives it.
    pub fn end_begun(&mut self, link: u32, number: u64) -> Option<Operation>
        ensures result { result ≡ find (is_begun link number) self.old.operations }
        ensures operations { self.new.operations
            ≡ without_first (is_begun link number) self.old.operations }
    {
        let place = self.first_begun(link, number)?;
        Some(self.end_at(place))
    }

    /// Takes away the oldest operation that waits for a message from a link, and gives it.
    pub fn end_receiving(&mut self, link: u32) -> Option<Operation>
        ensures result { result ≡ find (is_to_receive link) self.old.operations }
        ensures operations { self.new.operations
            ≡ without_first (is_to_receive link) self.old.operations }
    {
        let place = self.first_to_receive(link)?;
        Some(self.end_at(place))
    }

    /// Takes away the operation at a place, and gives it.
    ///
    /// Condition: the place is below the length.
    pub fn end_at(&mut self, place: usize) -> Operation
        requires { place < length self.old.operations }
        ensures result { slice_get self.old.operations place ≡ Some result }
        ensures operations { self.new.operations ≡ remove self.old.operations place }
    {
        match take_out(&mut self.operations, place) {
            Some(operation) => {
                if operation.is_request() {
                    self.requests -= 1;
                }
                operation
            }
            None => unreachable!(),
        }
    }
}
