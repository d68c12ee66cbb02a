//! What has become of the requests of a core, as the core knows it.

ghost use Rattle.std.specs.Prelude.{◌≡◌, ◌+◌, ◌≤◌, ◌<◌, [], ◌∷◌, ◌++◌, length, drop, slice_get, slice_set, nat_lt, OnOk};
ghost use Rattle.request_ends.specs.declared.marks.Asked.TheVariants.{Open};
ghost use Rattle.request_ends.specs.inner.Marks.{is_started, Skips};

use ac_base::NoMemory;
use std::alloc::Global;
use std::collections::VecDeque;
use std::marker::Model;

/// How far one request has come.
#[derive(Clone, Copy)]
pub(crate) enum Asked {
    /// It is offered, and nothing is known of it.
    Open,
    /// The worker has taken it, and the core knows.
    Started,
    /// It is withdrawn.
    Gone,
}

/// A mark for each request from the first on that is neither withdrawn nor replied. Contracts see the
/// marks, and for how many more there is a place.
#[derive(Drop)]
pub(crate) struct Marks {
    list: VecDeque<Asked>,
}

impl Model for Marks {
    ghost use Rattle.std.specs.Prelude.{◌-◌, length};
    ghost use Rattle.std.specs.VecDeque.{deque_capacity};
    ghost use Rattle.request_ends.specs.inner.Marks.{Marked};

    ghost Value = { Marked };

    ghost view = { λ m. record { list = m.list.items; places = deque_capacity m.list - length m.list.items } };
}

impl Marks {
    pub(crate) fn new(alloc: Global) -> Marks
        ensures { result.list ≡ [] }
    {
        Marks {
            list: VecDeque::new(alloc),
        }
    }

    pub(crate) fn len(&self) -> u64
        ensures { result ≡ length self.now.list }
    {
        self.list.len() as u64
    }

    pub(crate) fn has_place(&self) -> bool
        ensures { result ≡ nat_lt 0 self.now.places }
    {
        self.list.len() < self.list.capacity()
    }

    /// Makes room for so many more.
    pub(crate) fn reserve(&mut self, n: u32) -> Result<(), NoMemory>
        ensures list { self.new.list ≡ self.old.list }
        ensures places { self.old.places ≤ self.new.places }
        ensures ok { OnOk result (n ≤ self.new.places) }
    {
        self.list.reserve(n as usize)?;
        Ok(())
    }

    /// Notes one request more.
    pub(crate) fn push(&mut self)
        requires { 0 < self.old.places }
        ensures list { self.new.list ≡ self.old.list ++ Open ∷ [] }
        ensures places { self.old.places ≡ self.new.places + 1 }
    {
        self.list.push_back_reserved(Asked::Open);
    }

    /// Notes what has become of the request at this place of the list.
    pub(crate) fn set(&mut self, at: u64, mark: Asked)
        requires { at < length self.old.list }
        ensures list { self.new.list ≡ slice_set self.old.list at mark }
        ensures places { self.new.places ≡ self.old.places }
    {
        self.list[at as usize] = mark;
    }

    /// Goes on to the first request that is not withdrawn.
    pub(crate) fn skip(&mut self)
        ensures { Skips self.old self.new }
    {
        while let Some(Asked::Gone) = self.list.front() {
            let _gone = self.list.pop_front();
        }
    }

    /// The first request has its reply.
    pub(crate) fn pass(&mut self)
        requires { 0 < length self.old.list }
        ensures list { self.new.list ≡ drop 1 self.old.list }
        ensures places { self.new.places ≡ self.old.places + 1 }
    {
        let _first = self.list.pop_front();
    }

    /// Whether the worker has taken the first request.
    pub(crate) fn is_started(&self) -> bool
        ensures { result ≡ is_started (slice_get self.now.list 0) }
    {
        matches!(self.list.front(), Some(Asked::Started))
    }
}
