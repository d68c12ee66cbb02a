//! What the cores are dealt.

ghost use Rattle.std.specs.Prelude.{◌≡◌, ◌+◌, ◌<◌, ◌^◌, All, [], ◌∷◌, ◌++◌, length, OnOk, IfOk};
ghost use Rattle.run_ends.specs.inner.Hands.{Gives, port_of, ports_from};
ghost use Rattle.run_ends.specs.inner.Dealing.{AsksNothing};

use ac_base::NoMemory;
use end_ports::{CorePorts, RecvAt, SendAt};
use request_ends::AskEnd;
use stack_code::ChannelEnds;
use std::alloc::Global;
use std::marker::Model;

/// The ends of one core.
#[derive(Drop)]
pub(crate) struct Hand<'a> {
    sends: Vec<SendAt<'a>>,
    recvs: Vec<RecvAt<'a>>,
    ask: AskEnd<'a>,
}

impl<'a> Model for Hand<'a> {
    ghost use Rattle.run_ends.specs.inner.Hands.{Handed};

    ghost Value = { Handed };

    ghost view = { λ it. record { sends = it.sends.items; recvs = it.recvs.items; ask = it.ask } };
}

impl<'a> Hand<'a> {
    pub(crate) fn new(alloc: Global, ask: AskEnd<'a>) -> Hand<'a>
        ensures { result ≡ record { sends = []; recvs = []; ask = ask.entry } }
    {
        Hand {
            sends: Vec::new(alloc),
            recvs: Vec::new(alloc),
            ask,
        }
    }

    fn add_send(&mut self, send: SendAt<'a>) -> Result<(), NoMemory>
        ensures { OnOk result (self.new ≡ record self.old { sends = self.old.sends ++ send.entry ∷ [] }) }
    {
        self.sends.push(send)?;
        Ok(())
    }

    fn add_recv(&mut self, recv: RecvAt<'a>) -> Result<(), NoMemory>
        ensures { OnOk result (self.new ≡ record self.old { recvs = self.old.recvs ++ recv.entry ∷ [] }) }
    {
        self.recvs.push(recv)?;
        Ok(())
    }

    fn into_ports(self, asked: u32) -> CorePorts<'a>
        requires { (self.ask.send.notes.offers ≡ []) × (self.ask.send.notes.heard ≡ []) × (self.ask.send.payloads ≡ []) }
        ensures { result ≡ port_of asked self.entry }
    {
        let Hand { sends, recvs, ask } = self;
        CorePorts::new(sends, recvs, asked, ask)
    }
}

/// The ends of each core, by their numbers.
#[derive(Drop)]
pub(crate) struct Hands<'a> {
    list: Vec<Hand<'a>>,
}

impl<'a> Model for Hands<'a> {
    ghost use Rattle.std.specs.Prelude.{List};
    ghost use Rattle.run_ends.specs.inner.Hands.{Handed};

    ghost Value = { List Handed };

    ghost view = { λ it. it.list.items };
}

impl<'a> Hands<'a> {
    pub(crate) fn new(alloc: Global) -> Hands<'a>
        ensures { result ≡ [] }
    {
        Hands {
            list: Vec::new(alloc),
        }
    }

    /// One core more.
    pub(crate) fn add(&mut self, hand: Hand<'a>) -> Result<(), NoMemory>
        ensures { OnOk result (self.new ≡ self.old ++ hand.entry ∷ []) }
    {
        self.list.push(hand)?;
        Ok(())
    }

    /// Gives the two ends of a channel to its two cores.
    pub(crate) fn give(
        &mut self,
        ends: ChannelEnds,
        send: SendAt<'a>,
        recv: RecvAt<'a>,
    ) -> Result<(), NoMemory>
        requires { (ends.from < length self.old) × (ends.to < length self.old) }
        ensures { OnOk result (Gives self.old ends send.entry recv.entry self.new) }
    {
        self.list[ends.from as usize].add_send(send)?;
        self.list[ends.to as usize].add_recv(recv)
    }

    /// The ports of each core, where the requests of core k have the link `channels` + k.
    pub(crate) fn into_ports(
        self,
        alloc: Global,
        channels: u32,
    ) -> Result<Vec<CorePorts<'a>>, NoMemory>
        requires new { All AsksNothing self }
        requires few { channels + length self < 2 ^ 32 }
        ensures { IfOk result (λ ports. ports.items ≡ ports_from channels self.entry) }
    {
        let mut ports = Vec::new(alloc);
        let mut asked = channels;
        for hand in self.list {
            ports.push(hand.into_ports(asked))?;
            asked += 1;
        }
        Ok(ports)
    }
}
