//! The running thread and the ready list of a core.

ghost use Rattle.std.specs.Prelude.{◌≡◌, ◌+◌, ◌≤◌, ◌<◌, [], length, IsSome, IsNone, OnOk, OnErr, None};
ghost use Rattle.core_scheduler.specs.Schedule.{at_back, at_front, suspended, yielded, yielded_to, front, dispatched};

use ac_base::NoMemory;
use std::alloc::Global;
use std::collections::VecDeque;
use std::marker::Model;
use work_item::Item;

/// The running thread of a core, or none, and the threads that are ready to run, in their order from
/// front to back. It keeps the allocator with which it is made.
///
/// Contracts see these, and the spare: the number of further threads for which the ready list has
/// room. Only `reserve` and `reserve_all` take memory, and only they may go over the list.
#[derive(Drop)]
pub struct Scheduler {
    running: Option<Item>,
    ready: VecDeque<Item>,
}

impl Model for Scheduler {
    ghost use Rattle.std.specs.Prelude.{◌-◌, length};
    ghost use Rattle.std.specs.VecDeque.{deque_capacity};
    ghost use Rattle.core_scheduler.specs.Schedule.{Schedule};

    ghost Value = { Schedule };

    ghost view = { λ s. record { running = s.running; ready = s.ready.items; spare = deque_capacity s.ready - length s.ready.items } };
}

impl Scheduler {
    /// No thread runs, and none is ready.
    pub fn new(alloc: Global) -> Scheduler
        ensures running { result.running ≡ None }
        ensures ready { result.ready ≡ [] }
    {
        Scheduler {
            running: None,
            ready: VecDeque::new(alloc),
        }
    }

    /// The running thread.
    pub fn running(&self) -> Option<Item>
        ensures { result ≡ self.now.running }
    {
        self.running
    }

    /// The thread at the front, if one is ready.
    pub fn front(&self) -> Option<Item>
        ensures { result ≡ front self.now.ready }
    {
        self.ready.front().copied()
    }

    /// Makes the spare at least n. After want of memory the running thread and the list are as
    /// before.
    pub fn reserve(&mut self, n: u32) -> Result<(), NoMemory>
        ensures running { self.new.running ≡ self.old.running }
        ensures ready { self.new.ready ≡ self.old.ready }
        ensures ok { OnOk result (n ≤ self.new.spare) }
        ensures spare { self.old.spare ≤ self.new.spare }
    {
        self.ready.reserve(n as usize)?;
        Ok(())
    }

    /// Makes room for so many ready threads in all, and for as many again where it has to make any, so
    /// that who asks for one more each time asks seldom for memory. After want of memory the running
    /// thread and the list are as before.
    pub fn reserve_all(&mut self, n: usize) -> Result<(), NoMemory>
        ensures running { self.new.running ≡ self.old.running }
        ensures ready { self.new.ready ≡ self.old.ready }
        ensures ok { OnOk result (n ≤ length self.new.ready + self.new.spare) }
        ensures spare { self.old.spare ≤ self.new.spare }
    {
        if self.ready.capacity() < n {
            let missing = n - self.ready.len();
            self.ready.reserve(missing.saturating_add(n))?;
        }
        Ok(())
    }

    /// Puts a thread at the back.
    ///
    /// Condition: the spare is positive.
    pub fn schedule(&mut self, item: Item)
        requires { 0 < self.old.spare }
        ensures { self.new ≡ at_back self.old item }
    {
        self.ready.push_back_reserved(item);
    }

    /// Puts a thread at the front, as the owner that the last thread of its block wakes.
    ///
    /// Condition: the spare is positive.
    pub fn wake_owner(&mut self, item: Item)
        requires { 0 < self.old.spare }
        ensures { self.new ≡ at_front self.old item }
    {
        self.ready.push_front_reserved(item);
    }

    /// The running thread stops and is not ready. None runs then.
    ///
    /// Condition: one is running.
    pub fn suspend(&mut self)
        requires { IsSome self.old.running }
        ensures { self.new ≡ suspended self.old }
    {
        self.running = None;
    }

    /// Puts the running thread at the back. None runs then.
    ///
    /// Condition: one is running, and the spare is positive.
    pub fn yield_now(&mut self)
        requires running { IsSome self.old.running }
        requires spare { 0 < self.old.spare }
        ensures { self.new ≡ yielded self.old }
    {
        if let Some(current) = self.running.take() {
            self.ready.push_back_reserved(current);
        }
    }

    /// Puts the running thread at the front, and runs this one, as a thread that has just been
    /// started.
    ///
    /// Condition: one is running, and the spare is positive.
    pub fn yield_to(&mut self, item: Item)
        requires running { IsSome self.old.running }
        requires spare { 0 < self.old.spare }
        ensures { self.new ≡ yielded_to self.old item }
    {
        if let Some(creator) = self.running.replace(item) {
            self.ready.push_front_reserved(creator);
        }
    }

    /// Runs the thread at the front, and gives it. It gives none exactly where none is ready.
    ///
    /// Condition: none is running.
    pub fn next(&mut self) -> Option<Item>
        requires { IsNone self.old.running }
        ensures item { result ≡ front self.old.ready }
        ensures state { self.new ≡ dispatched self.old }
    {
        self.running = self.ready.pop_front();
        self.running
    }
}
