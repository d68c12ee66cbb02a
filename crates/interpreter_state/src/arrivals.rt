//! What an entry of a journal makes of the operations of a core.

ghost use Rattle.std.specs.Prelude.{◌≡◌, ◌<◌, Bool, length, find, position, Some, None, MatchBool, MatchOption, MatchResult};
ghost use Rattle.std.specs.List.{list_any};
ghost use Rattle.cancel_scope.specs.Outstanding.{is_to_offer, is_offered, is_begun, is_to_receive, without_first};
ghost use Rattle.work_item.specs.Store.{Store};
ghost use Rattle.cancel_scope.specs.declared.operation.Operation as c;
ghost use Rattle.core_state.specs.Arrivals.{ok, goes_on_waiting, is_taken, offers, is_offer, offers_on, is_withdrawal, is_room, keeps_room};
ghost use Rattle.interpreter_state.specs.Operations.{IsOldest};
ghost use Rattle.interpreter_state.specs.inner.Sought.{is_sought};
ghost use Rattle.interpreter_state.specs.Arrivals.{left_after};
ghost use Rattle.interpreter_state.specs.State.{held_of};

use crate::held::Held;
use crate::operation::{Operation, Sought};
use ac_base::{Answer, Entry, Event, Message, Payload};
use work_item::Item;

/// The value of an operation that is done.
pub const OK: i64 = 0;

/// An entry that does not fit.
#[derive(Clone, Copy)]
pub struct Unfit;

/// The thread whose operation has ended, and the value with which it goes on.
#[derive(Clone, Copy)]
pub struct Woken {
    pub item: Item,
    pub value: i64,
}

impl Woken {
    // The thread of an operation that is done.
    fn done(item: Item) -> Woken
        ensures { result ≡ record { item = item; value = ok } }
    {
        Woken { item, value: OK }
    }
}

// The place of the oldest operation of those that are looked for.
fn oldest(operations: &[Operation], sought: Sought) -> Option<usize>
    ensures { result ≡ position (is_sought sought) operations.now }
{
    operations.iter().position(|o| o.is_sought(sought))
}

// ---- one event

// Whether the oldest operation that is to be offered on a link was offered, by an offer that carries what it sends.
fn offer(operations: &mut Vec<Operation>, link: u32, number: u64, payload: &Payload) -> bool
    ensures offered { (store : Store) → MatchBool result
        (offers store operations.old.items link number payload.now (find (is_to_offer link) operations.old.items)
        ≡ Some (goes_on_waiting store operations.new.items))
        (offers store operations.old.items link number payload.now (find (is_to_offer link) operations.old.items) ≡ None) }
{
    match oldest(operations.as_slice(), Sought::ToOffer(link)) {
        None => false,
        Some(index) => {
            if !operations[index].carries(payload) {
                return false;
            }
            let operation = &mut operations[index];
            operation.offer(number);
            true
        }
    }
}

/// The peer of the operation at a place has taken it: it has ended, and its thread goes on, or else it is a request, which has begun.
///
/// Condition: there is an operation at that place.
pub fn be_taken(operations: &mut Vec<Operation>, place: usize) -> Option<Woken>
    requires { place < length operations.old.items }
    ensures { (store : Store) (test : c.Operation → Bool) (o : c.Operation) → IsOldest test operations.old.items place o
        → is_taken store test operations.old.items o ≡ left_after store operations.new.items result }
{
    if operations[place].is_request() {
        let operation = &mut operations[place];
        operation.begin();
        return None;
    }
    let operation = operations.remove(place);
    Some(Woken::done(operation.item()))
}

// Takes away the oldest operation of those that are looked for.
fn take(operations: &mut Vec<Operation>, sought: Sought) -> Option<Operation>
    ensures { MatchOption result (find (is_sought sought) operations.old.items ≡ None)
        (λ o. (find (is_sought sought) operations.old.items ≡ Some o)
        × (operations.new.items ≡ without_first (is_sought sought) operations.old.items)) }
{
    match oldest(operations.as_slice(), sought) {
        None => None,
        Some(index) => Some(operations.remove(index)),
    }
}

fn is_offer(link: u32, event: &Event) -> bool
    ensures { result ≡ is_offer link event.now }
{
    match event {
        Event::Offer { link: other, .. } => *other == link,
        _ => false,
    }
}

// How many offers on a link these entries make.
fn offers_on(link: u32, past: &[Entry]) -> usize
    ensures { result ≡ offers_on link past.now }
{
    let mut count = 0;
    for entry in past {
        if is_offer(link, &entry.event) {
            count += 1;
        }
    }
    count
}

fn is_withdrawal(link: u32, number: u64, event: &Event) -> bool
    ensures { result ≡ is_withdrawal link number event.now }
{
    match event {
        Event::Withdraw {
            link: other,
            number: own,
        } => *other == link && *own == number,
        _ => false,
    }
}

fn is_room(link: u32, number: u64, event: &Event) -> bool
    ensures { result ≡ is_room link number event.now }
{
    match event {
        Event::Room {
            link: other,
            number: own,
        } => *other == link && *own == number,
        _ => false,
    }
}

// These entries withdraw an offer.
fn was_withdrawn(link: u32, number: u64, past: &[Entry]) -> bool
    ensures { result ≡ list_any (λ e. is_withdrawal link number e.event) past.now }
{
    past.iter().any(|e| is_withdrawal(link, number, &e.event))
}

// They give its room back.
fn has_room(link: u32, number: u64, past: &[Entry]) -> bool
    ensures { result ≡ list_any (λ e. is_room link number e.event) past.now }
{
    past.iter().any(|e| is_room(link, number, &e.event))
}

// By these entries an offer was withdrawn, and keeps its room.
fn keeps_room(link: u32, number: u64, past: &[Entry]) -> bool
    ensures { result ≡ keeps_room link number past.now }
{
    was_withdrawn(link, number, past) && !has_room(link, number, past)
}

impl Held {
    ghost use Rattle.core_state.specs.Arrivals.{offers, is_known, is_answered, ends_received, passes_over, arrives};
    ghost use Rattle.interpreter_state.specs.Arrivals.{arrival_of};

    // An operation is offered.
    fn offer(&mut self, link: u32, number: u64, payload: &Payload) -> Result<Option<Woken>, Unfit>
        ensures fits { MatchResult result
            (λ woken. offers self.old.memory self.old.operations.items link number payload.now
            (find (is_to_offer link) self.old.operations.items) ≡ Some (arrival_of self.new woken))
            (λ e. offers self.old.memory self.old.operations.items link number payload.now
            (find (is_to_offer link) self.old.operations.items) ≡ None) }
        ensures held { held_of self.new
            ≡ record (held_of self.old) { store = self.new.memory; operations = self.new.operations.items } }
    {
        if offer(&mut self.operations, link, number, payload) {
            Ok(None)
        } else {
            Err(Unfit)
        }
    }

    // What was offered there was taken.
    fn take_offered(&mut self, link: u32, number: u64) -> Result<Option<Woken>, Unfit>
        ensures fits { MatchResult result
            (λ woken. is_known self.old.memory self.old.operations.items link number
            (find (is_offered link number) self.old.operations.items) ≡ Some (arrival_of self.new woken))
            (λ e. is_known self.old.memory self.old.operations.items link number
            (find (is_offered link number) self.old.operations.items) ≡ None) }
        ensures held { held_of self.new
            ≡ record (held_of self.old) { store = self.new.memory; operations = self.new.operations.items } }
    {
        match oldest(self.operations.as_slice(), Sought::Offered(link, number)) {
            Some(place) => Ok(be_taken(&mut self.operations, place)),
            None => Err(Unfit),
        }
    }

    // A request that has begun there has its answer, and has ended.
    fn end_answered(
        &mut self,
        link: u32,
        number: u64,
        answer: &Answer,
    ) -> Result<Option<Woken>, Unfit>
        ensures fits { MatchResult result
            (λ woken. is_answered self.old.memory self.old.operations.items link number answer.now
            (find (is_begun link number) self.old.operations.items) ≡ Some (arrival_of self.new woken))
            (λ e. is_answered self.old.memory self.old.operations.items link number answer.now
            (find (is_begun link number) self.old.operations.items) ≡ None) }
        ensures held { held_of self.new
            ≡ record (held_of self.old) { store = self.new.memory; operations = self.new.operations.items } }
    {
        match take(&mut self.operations, Sought::Begun(link, number)) {
            Some(operation) => {
                let value = operation.take_answer(&mut self.memory, answer);
                let item = operation.item();
                Ok(Some(Woken { item, value }))
            }
            None => Err(Unfit),
        }
    }

    // The oldest operation that waits for a message has it, and has ended.
    fn end_received(&mut self, link: u32, message: &Message) -> Result<Option<Woken>, Unfit>
        ensures fits { MatchResult result
            (λ woken. ends_received self.old.memory self.old.operations.items link message.now
            (find (is_to_receive link) self.old.operations.items) ≡ Some (arrival_of self.new woken))
            (λ e. ends_received self.old.memory self.old.operations.items link message.now
            (find (is_to_receive link) self.old.operations.items) ≡ None) }
        ensures held { held_of self.new
            ≡ record (held_of self.old) { store = self.new.memory; operations = self.new.operations.items } }
    {
        match take(&mut self.operations, Sought::ToReceive(link)) {
            Some(operation) => {
                self.memory
                    .write_ints(operation.place(), message.as_slice());
                Ok(Some(Woken::done(operation.item())))
            }
            None => Err(Unfit),
        }
    }

    // A withdrawn offer is passed over, and the operation that waits for a message goes on waiting.
    fn pass_over(&mut self, link: u32) -> Result<Option<Woken>, Unfit>
        ensures fits { MatchResult result
            (λ woken. passes_over self.old.memory self.old.operations.items
            (find (is_to_receive link) self.old.operations.items) ≡ Some (arrival_of self.new woken))
            (λ e. passes_over self.old.memory self.old.operations.items
            (find (is_to_receive link) self.old.operations.items) ≡ None) }
        ensures held { held_of self.new
            ≡ record (held_of self.old) { store = self.new.memory; operations = self.new.operations.items } }
    {
        match oldest(self.operations.as_slice(), Sought::ToReceive(link)) {
            Some(_) => Ok(None),
            None => Err(Unfit),
        }
    }

    /// What an event makes of a core whose journal had these entries before, and the thread that goes on where its operation
    /// has ended.
    pub fn take_in(&mut self, past: &[Entry], event: &Event) -> Result<Option<Woken>, Unfit>
        ensures fits { MatchResult result
            (λ woken. arrives past.now self.old.memory self.old.operations.items event.now ≡ Some (arrival_of self.new woken))
            (λ e. arrives past.now self.old.memory self.old.operations.items event.now ≡ None) }
        ensures held { held_of self.new
            ≡ record (held_of self.old) { store = self.new.memory; operations = self.new.operations.items } }
    {
        match event {
            Event::Offer {
                link,
                number,
                payload,
            } => {
                if *number != offers_on(*link, past) as u64 {
                    return Err(Unfit);
                }
                self.offer(*link, *number, payload)
            }
            Event::Know { link, number } => self.take_offered(*link, *number),
            Event::Reply {
                link,
                number,
                answer,
            } => self.end_answered(*link, *number, answer),
            Event::Got { link, value, .. } => self.end_received(*link, value),
            Event::Pass { link, .. } => self.pass_over(*link),
            Event::Room { link, number } => {
                if keeps_room(*link, *number, past) {
                    Ok(None)
                } else {
                    Err(Unfit)
                }
            }
            _ => Err(Unfit),
        }
    }
}
