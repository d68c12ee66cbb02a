//! What is round an open place, and what an expression comes to.

ghost use Rattle.std.specs.Prelude.{◌≡◌, [], ◌∷◌, IfOk, OnOk, MatchOption};
ghost use Rattle.interpreter_steps.specs.inner.Pending.{context_of};

use ac_base::{NoMemory, Trap};
use ac_commands::{Action, Target, Value, ValueLink};
use ac_tree::{BinaryOp, UnaryOp};
use interpreter_state::{Datum, Span};
use std::alloc::Global;
use std::marker::Model;

/// What takes operands: a call or an operation, or the statement itself.
#[derive(Clone, Copy)]
pub enum Head {
    Acting(Action),
    Ending,
}

/// The operands that are still to be computed.
#[derive(Clone, Copy)]
pub enum Rest<'a> {
    Nothing,
    Values(&'a [Value]),
    One(&'a Value),
    /// What a target needs.
    Target(&'a Target),
    /// A value, and what the target needs into which it is put.
    Into(&'a Value, &'a Target),
}

/// A part of a statement with an open place in it. What was computed before stands in it.
#[derive(Drop)]
pub enum Context<'a> {
    ElementAt(Span),
    PartAt(Span),
    Operand(UnaryOp),
    First(&'a [ValueLink]),
    Right(i64, BinaryOp, &'a [ValueLink]),
    /// One of several operands, with those before it.
    Operands(Head, Vec<Datum>, Rest<'a>),
}

// An equal one.
fn copy_context<'a>(alloc: Global, context: &Context<'a>) -> Result<Context<'a>, NoMemory>
    ensures { IfOk result (λ it. context_of it ≡ context_of context.now) }
{
    Ok(match context {
        Context::ElementAt(place) => Context::ElementAt(*place),
        Context::PartAt(place) => Context::PartAt(*place),
        Context::Operand(op) => Context::Operand(*op),
        Context::First(links) => Context::First(links),
        Context::Right(x, op, links) => Context::Right(*x, *op, links),
        Context::Operands(head, done, rest) => {
            Context::Operands(*head, Vec::from_slice(alloc, done.as_slice())?, *rest)
        }
    })
}

/// What is round an open place.
///
/// Contracts see it from there outwards.
#[derive(Drop)]
pub struct Around<'a> {
    contexts: Vec<Context<'a>>,
}

impl<'a> Model for Around<'a> {
    ghost use Rattle.std.specs.Prelude.{List, map, reverse};
    ghost use Rattle.ac_semantics.specs.Evaluation.{Context};
    ghost use Rattle.interpreter_steps.specs.inner.Pending.{context_of};
    ghost use Rattle.ac_commands.specs.contracts.value.Value as v;
    ghost use Rattle.ac_commands.specs.contracts.value.ValueLink as l;
    ghost use Rattle.std.specs.Coded.{codes};

    ghost Value = { List Context };

    ghost coded = { Prim.hlevel (codes, v.the_row.coded, l.the_row.coded) };

    ghost view = { λ it. map context_of (reverse it.contexts.items) };
}

impl<'a> Around<'a> {
    /// Nothing.
    pub fn new(alloc: Global) -> Around<'a>
        ensures { result ≡ [] }
    {
        Around {
            contexts: Vec::new(alloc),
        }
    }

    /// Puts one inside.
    pub fn push(&mut self, context: Context<'a>) -> Result<(), NoMemory>
        ensures { OnOk result (self.new ≡ context_of context.entry ∷ self.old) }
    {
        self.contexts.push(context)?;
        Ok(())
    }

    /// Takes the innermost.
    pub fn pop(&mut self) -> Option<Context<'a>>
        ensures { MatchOption result ((self.old ≡ []) × (self.new ≡ [])) (λ x. self.old ≡ context_of x ∷ self.new) }
    {
        self.contexts.pop()
    }

    /// An equal one.
    pub fn copy(&self, alloc: Global) -> Result<Around<'a>, NoMemory>
        ensures { IfOk result (λ it. it ≡ self.now) }
    {
        let mut contexts = Vec::new(alloc);
        for context in &self.contexts {
            contexts.push(copy_context(alloc, context)?)?;
        }
        Ok(Around { contexts })
    }
}

/// What an expression comes to, or a row of operands: a stop is at a head, with its operands in their order.
#[derive(Drop)]
pub enum Evaluated {
    Comes(Datum),
    Traps(Trap),
    Stops(Head, Vec<Datum>),
}
