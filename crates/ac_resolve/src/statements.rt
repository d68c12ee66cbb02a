//! Statements without their names.
//!
//! Commands are appended to a list of the caller, so that a block needs none of its own.

ghost use Rattle.std.specs.Prelude.{◌≡◌, [], ◌∷◌, ◌++◌, ◌+◌, ◌<◌, OnOk, IfOk};
ghost use Rattle.ac_tree.specs.Weight.{stmt_weight, some_weight, body_weight};
ghost use Rattle.ac_names.specs.Room.{HasSlots, HasDepths};
ghost use Rattle.ac_names.specs.Statements.{array_len};
ghost use Rattle.ac_commands.specs.declared.command.Command.TheVariants as d;
ghost use Rattle.ac_resolve.specs.Commands.{told, some_told, body_told};
ghost use Rattle.ac_resolve.specs.inner.Forms.{print_told, int_told, array_told, if_told, while_told, for_told, do_told, async_told};
ghost use Rattle.ac_resolve.specs.Computed.{value_in, target_in, some_in};
ghost use Rattle.ac_resolve.specs.inner.Walks.{HasTexts, after, does, after_listed, after_some, some_does};
ghost use Rattle.ac_resolve.specs.inner.Walks.{other_does, after_init, after_body, body_does, after_scope, scope_does};

use crate::expressions::{initial_in, some_in, target_in, value_in, values_in};
use crate::names::cancel_of;
use crate::walk::Walk;
use ac_base::{Boxed, Bytes, List, Name, NoMemory};
use ac_commands::{Command, Place, Target};
use ac_names::{Scopes, array_len};
use ac_tree::{Expr, Stmt};
use std::alloc::Global;

fn resolve_int(
    alloc: Global,
    walk: &mut Walk,
    depth: u32,
    out: &mut List<Command>,
    name: &Name,
    value: &Option<Expr>,
) -> Result<(), NoMemory>
    requires { walk.old.names.slot + 1 < 4294967296 }
    ensures walk { OnOk result (walk.new ≡ after (int_told name.now value.now) walk.old) }
    ensures commands { OnOk result (out.new ≡ out.old ++ does (int_told name.now value.now) depth walk.old) }
{
    let slot = walk.names.slot;
    walk.names.take(1);
    let value = initial_in(alloc, &walk.names.scopes, depth, value)?;
    let target = Target::Variable(Place::Local { level: 0, slot });
    out.push(Command::Set { target, value })
}

fn resolve_array(
    walk: &mut Walk,
    depth: u32,
    out: &mut List<Command>,
    name: &Name,
    size: i64,
) -> Result<(), NoMemory>
    requires { walk.old.names.slot + array_len size < 4294967296 }
    ensures walk { OnOk result (walk.new ≡ after (array_told name.now size) walk.old) }
    ensures commands { OnOk result (out.new ≡ out.old ++ does (array_told name.now size) depth walk.old) }
{
    let slot = walk.names.slot;
    let len = array_len(size);
    walk.names.take(len);
    out.push(Command::Clear { slot, len })
}

fn resolve_assign(
    alloc: Global,
    scopes: &Scopes,
    depth: u32,
    out: &mut List<Command>,
    place: &Expr,
    value: &Expr,
) -> Result<(), NoMemory>
    ensures { OnOk result (out.new ≡ out.old ++ d.Set (target_in place.now scopes.now depth) (value_in value.now scopes.now depth) ∷ []) }
{
    let target = target_in(alloc, scopes, depth, place)?;
    let value = value_in(alloc, scopes, depth, value)?;
    out.push(Command::Set { target, value })
}

fn resolve_call(
    alloc: Global,
    scopes: &Scopes,
    depth: u32,
    out: &mut List<Command>,
    call: &Expr,
) -> Result<(), NoMemory>
    ensures { OnOk result (out.new ≡ out.old ++ d.Run (value_in call.now scopes.now depth) ∷ []) }
{
    out.push(Command::Run(value_in(alloc, scopes, depth, call)?))
}

fn resolve_return(
    alloc: Global,
    scopes: &Scopes,
    depth: u32,
    out: &mut List<Command>,
    value: &Option<Expr>,
) -> Result<(), NoMemory>
    ensures { OnOk result (out.new ≡ out.old ++ d.Return (some_in value.now scopes.now depth) ∷ []) }
{
    out.push(Command::Return(some_in(alloc, scopes, depth, value)?))
}

fn resolve_print(
    alloc: Global,
    walk: &mut Walk,
    depth: u32,
    out: &mut List<Command>,
    format: &Bytes,
    args: &[Expr],
) -> Result<(), NoMemory>
    requires { HasTexts walk.old.texts 1 }
    ensures walk { OnOk result (walk.new ≡ after (print_told format.now args.now) walk.old) }
    ensures commands { OnOk result (out.new ≡ out.old ++ does (print_told format.now args.now) depth walk.old) }
{
    let text = walk.texts.len() as u32;
    walk.texts.push(format.copy(alloc)?)?;
    let args = values_in(alloc, &walk.names.scopes, depth, args)?;
    out.push(Command::Print { text, args })
}

/// Appends the commands of a statement.
#[cycle(stmt)]
fn resolve_stmt(
    alloc: Global,
    walk: &mut Walk,
    depth: u32,
    out: &mut List<Command>,
    stmt: &Stmt,
) -> Result<(), NoMemory>
    requires slots { HasSlots walk.old.names.slot (stmt_weight stmt.now) }
    requires depths { HasDepths depth (stmt_weight stmt.now) }
    requires texts { HasTexts walk.old.texts (stmt_weight stmt.now) }
    ensures walk { OnOk result (walk.new ≡ after (told stmt.now) walk.old) }
    ensures commands { OnOk result (out.new ≡ out.old ++ does (told stmt.now) depth walk.old) }
{
    match stmt {
        Stmt::Block { at: _, body } => resolve_scope(alloc, walk, depth, out, body.as_slice()),
        Stmt::Empty { .. } => out.push(Command::Nothing),
        Stmt::Int { at: _, name, value } => resolve_int(alloc, walk, depth, out, name, value),
        Stmt::Array { at: _, name, size } => resolve_array(walk, depth, out, name, *size),
        Stmt::Assign {
            at: _,
            place,
            value,
        } => resolve_assign(alloc, &walk.names.scopes, depth, out, place, value),
        Stmt::Call { at: _, call } => resolve_call(alloc, &walk.names.scopes, depth, out, call),
        Stmt::Print {
            at: _,
            format,
            args,
        } => resolve_print(alloc, walk, depth, out, format, args.as_slice()),
        Stmt::If {
            at: _,
            test,
            body,
            other,
        } => resolve_if(alloc, walk, depth, out, test, body, other),
        Stmt::While { at: _, test, body } => resolve_while(alloc, walk, depth, out, test, body),
        Stmt::For {
            at: _,
            init,
            test,
            next,
            body,
        } => resolve_for(alloc, walk, depth, out, init, test, next, body),
        Stmt::Break { .. } => out.push(Command::Break),
        Stmt::Continue { .. } => out.push(Command::Continue),
        Stmt::Return { at: _, value } => {
            resolve_return(alloc, &walk.names.scopes, depth, out, value)
        }
        Stmt::Do { at: _, label, body } => {
            resolve_do(alloc, walk, depth, out, label, body.as_slice())
        }
        Stmt::Async { at: _, body } => resolve_async(alloc, walk, depth, out, body),
        Stmt::Cancel { at: _, label } => {
            out.push(cancel_of(walk.names.labels.find(label), depth))
        }
        Stmt::Yield { .. } => out.push(Command::Yield),
    }
}

#[cycle(stmt)]
fn resolve_if(
    alloc: Global,
    walk: &mut Walk,
    depth: u32,
    out: &mut List<Command>,
    test: &Expr,
    body: &Boxed<Stmt>,
    other: &Option<Boxed<Stmt>>,
) -> Result<(), NoMemory>
    requires slots { HasSlots walk.old.names.slot (stmt_weight body.now + some_weight other.now) }
    requires depths { HasDepths depth (stmt_weight body.now + some_weight other.now) }
    requires texts { HasTexts walk.old.texts (stmt_weight body.now + some_weight other.now) }
    ensures walk { OnOk result (walk.new ≡ after (if_told test.now (told body.now) (some_told other.now)) walk.old) }
    ensures commands { OnOk result (out.new ≡ out.old ++ does (if_told test.now (told body.now) (some_told other.now)) depth walk.old) }
{
    let test = value_in(alloc, &walk.names.scopes, depth, test)?;
    let body = resolve_part(alloc, walk, depth, body)?;
    let other = resolve_other(alloc, walk, depth, other)?;
    out.push(Command::If { test, body, other })
}

#[cycle(stmt)]
fn resolve_while(
    alloc: Global,
    walk: &mut Walk,
    depth: u32,
    out: &mut List<Command>,
    test: &Expr,
    body: &Boxed<Stmt>,
) -> Result<(), NoMemory>
    requires slots { HasSlots walk.old.names.slot (stmt_weight body.now) }
    requires depths { HasDepths depth (stmt_weight body.now) }
    requires texts { HasTexts walk.old.texts (stmt_weight body.now) }
    ensures walk { OnOk result (walk.new ≡ after (while_told test.now (told body.now)) walk.old) }
    ensures commands { OnOk result (out.new ≡ out.old ++ does (while_told test.now (told body.now)) depth walk.old) }
{
    let test = value_in(alloc, &walk.names.scopes, depth, test)?;
    let body = resolve_part(alloc, walk, depth, body)?;
    out.push(Command::While { test, body })
}

/// Its first part stands before it, in a scope that is round its other parts.
#[cycle(stmt)]
fn resolve_for(
    alloc: Global,
    walk: &mut Walk,
    depth: u32,
    out: &mut List<Command>,
    init: &Option<Boxed<Stmt>>,
    test: &Option<Expr>,
    next: &Option<Boxed<Stmt>>,
    body: &Boxed<Stmt>,
) -> Result<(), NoMemory>
    requires slots { HasSlots walk.old.names.slot (some_weight init.now + (some_weight next.now + stmt_weight body.now)) }
    requires depths { HasDepths depth (some_weight init.now + (some_weight next.now + stmt_weight body.now)) }
    requires texts { HasTexts walk.old.texts (some_weight init.now + (some_weight next.now + stmt_weight body.now)) }
    ensures walk { OnOk result (walk.new ≡ after (for_told (some_told init.now) test.now (some_told next.now) (told body.now)) walk.old) }
    ensures commands { OnOk result (out.new ≡ out.old
        ++ does (for_told (some_told init.now) test.now (some_told next.now) (told body.now)) depth walk.old) }
{
    walk.names.scopes.open()?;
    resolve_init(alloc, walk, depth, out, init)?;
    let test = some_in(alloc, &walk.names.scopes, depth, test)?;
    let next = resolve_some(alloc, walk, depth, next)?;
    let body = resolve_part(alloc, walk, depth, body)?;
    walk.names.scopes.close();
    out.push(Command::For { test, next, body })
}

#[cycle(stmt)]
fn resolve_do(
    alloc: Global,
    walk: &mut Walk,
    depth: u32,
    out: &mut List<Command>,
    label: &Option<Name>,
    body: &[Stmt],
) -> Result<(), NoMemory>
    requires slots { HasSlots (walk.old.names.slot + 1) (body_weight body.now) }
    requires depths { HasDepths depth (body_weight body.now) }
    requires texts { HasTexts walk.old.texts (body_weight body.now) }
    ensures walk { OnOk result (walk.new ≡ after (do_told label.now (body_told body.now)) walk.old) }
    ensures commands { OnOk result (out.new ≡ out.old ++ does (do_told label.now (body_told body.now)) depth walk.old) }
{
    let slot = walk.names.slot;
    walk.names.enter_do(label, depth)?;
    let mut list = List::new(alloc);
    resolve_scope(alloc, walk, depth, &mut list, body)?;
    walk.names.labels.close();
    out.push(Command::Do { slot, body: list })
}

#[cycle(stmt)]
fn resolve_async(
    alloc: Global,
    walk: &mut Walk,
    depth: u32,
    out: &mut List<Command>,
    body: &Boxed<Stmt>,
) -> Result<(), NoMemory>
    requires slots { HasSlots 0 (stmt_weight body.now) }
    requires depths { HasDepths (depth + 1) (stmt_weight body.now) }
    requires texts { HasTexts walk.old.texts (stmt_weight body.now) }
    ensures walk { OnOk result (walk.new ≡ after (async_told (told body.now)) walk.old) }
    ensures commands { OnOk result (out.new ≡ out.old ++ does (async_told (told body.now)) depth walk.old) }
{
    let slot = walk.names.slot;
    walk.names.slot = 0;
    let body = resolve_part(alloc, walk, depth + 1, body)?;
    let slots = walk.names.slot;
    walk.names.slot = slot;
    out.push(Command::Async { slots, body })
}

/// The commands of a statement in a list of their own.
#[cycle(stmt)]
fn resolve_part(
    alloc: Global,
    walk: &mut Walk,
    depth: u32,
    stmt: &Boxed<Stmt>,
) -> Result<List<Command>, NoMemory>
    requires slots { HasSlots walk.old.names.slot (stmt_weight stmt.now) }
    requires depths { HasDepths depth (stmt_weight stmt.now) }
    requires texts { HasTexts walk.old.texts (stmt_weight stmt.now) }
    ensures walk { OnOk result (walk.new ≡ after (told stmt.now) walk.old) }
    ensures commands { IfOk result (λ list. list ≡ does (told stmt.now) depth walk.old) }
{
    let mut list = List::new(alloc);
    resolve_stmt(alloc, walk, depth, &mut list, stmt.get())?;
    Ok(list)
}

/// The commands of a statement in a list of their own: none, where there is no statement.
#[cycle(stmt)]
fn resolve_some(
    alloc: Global,
    walk: &mut Walk,
    depth: u32,
    stmt: &Option<Boxed<Stmt>>,
) -> Result<List<Command>, NoMemory>
    requires slots { HasSlots walk.old.names.slot (some_weight stmt.now) }
    requires depths { HasDepths depth (some_weight stmt.now) }
    requires texts { HasTexts walk.old.texts (some_weight stmt.now) }
    ensures walk { OnOk result (walk.new ≡ after_some (some_told stmt.now) walk.old) }
    ensures commands { IfOk result (λ list. list ≡ some_does (some_told stmt.now) depth walk.old) }
{
    match stmt {
        None => Ok(List::new(alloc)),
        Some(stmt) => resolve_part(alloc, walk, depth, stmt),
    }
}

/// What stands after an `else`, where there is one.
#[cycle(stmt)]
fn resolve_other(
    alloc: Global,
    walk: &mut Walk,
    depth: u32,
    stmt: &Option<Boxed<Stmt>>,
) -> Result<Option<List<Command>>, NoMemory>
    requires slots { HasSlots walk.old.names.slot (some_weight stmt.now) }
    requires depths { HasDepths depth (some_weight stmt.now) }
    requires texts { HasTexts walk.old.texts (some_weight stmt.now) }
    ensures walk { OnOk result (walk.new ≡ after_some (some_told stmt.now) walk.old) }
    ensures commands { IfOk result (λ other. other ≡ other_does (some_told stmt.now) depth walk.old) }
{
    match stmt {
        None => Ok(None),
        Some(stmt) => Ok(Some(resolve_part(alloc, walk, depth, stmt)?)),
    }
}

/// The first part of a `for`, which may declare.
#[cycle(stmt)]
fn resolve_init(
    alloc: Global,
    walk: &mut Walk,
    depth: u32,
    out: &mut List<Command>,
    stmt: &Option<Boxed<Stmt>>,
) -> Result<(), NoMemory>
    requires slots { HasSlots walk.old.names.slot (some_weight stmt.now) }
    requires depths { HasDepths depth (some_weight stmt.now) }
    requires texts { HasTexts walk.old.texts (some_weight stmt.now) }
    ensures walk { OnOk result (walk.new ≡ after_init (some_told stmt.now) depth walk.old) }
    ensures commands { OnOk result (out.new ≡ out.old ++ some_does (some_told stmt.now) depth walk.old) }
{
    match stmt {
        None => Ok(()),
        Some(stmt) => resolve_listed(alloc, walk, depth, out, stmt.get()),
    }
}

/// Appends the commands of a statement, and declares what it declares.
#[cycle(stmt)]
fn resolve_listed(
    alloc: Global,
    walk: &mut Walk,
    depth: u32,
    out: &mut List<Command>,
    stmt: &Stmt,
) -> Result<(), NoMemory>
    requires slots { HasSlots walk.old.names.slot (stmt_weight stmt.now) }
    requires depths { HasDepths depth (stmt_weight stmt.now) }
    requires texts { HasTexts walk.old.texts (stmt_weight stmt.now) }
    ensures walk { OnOk result (walk.new ≡ after_listed (told stmt.now) depth walk.old) }
    ensures commands { OnOk result (out.new ≡ out.old ++ does (told stmt.now) depth walk.old) }
{
    let slot = walk.names.slot;
    resolve_stmt(alloc, walk, depth, out, stmt)?;
    walk.names.declare(depth, slot, stmt)
}

/// Appends the commands of statements whose declarations have a scope of their own.
#[cycle(stmt)]
fn resolve_scope(
    alloc: Global,
    walk: &mut Walk,
    depth: u32,
    out: &mut List<Command>,
    body: &[Stmt],
) -> Result<(), NoMemory>
    requires slots { HasSlots walk.old.names.slot (body_weight body.now) }
    requires depths { HasDepths depth (body_weight body.now) }
    requires texts { HasTexts walk.old.texts (body_weight body.now) }
    ensures walk { OnOk result (walk.new ≡ after_scope (body_told body.now) walk.old) }
    ensures commands { OnOk result (out.new ≡ out.old ++ scope_does (body_told body.now) depth walk.old) }
{
    walk.names.scopes.open()?;
    resolve_body(alloc, walk, depth, out, body)?;
    walk.names.scopes.close();
    Ok(())
}

/// Appends the commands of statements one after the other.
#[cycle(stmt)]
pub fn resolve_body(
    alloc: Global,
    walk: &mut Walk,
    depth: u32,
    out: &mut List<Command>,
    body: &[Stmt],
) -> Result<(), NoMemory>
    requires slots { HasSlots walk.old.names.slot (body_weight body.now) }
    requires depths { HasDepths depth (body_weight body.now) }
    requires texts { HasTexts walk.old.texts (body_weight body.now) }
    ensures walk { OnOk result (walk.new ≡ after_body (body_told body.now) depth walk.old) }
    ensures commands { OnOk result (out.new ≡ out.old ++ body_does (body_told body.now) depth walk.old) }
{
    for stmt in body {
        resolve_listed(alloc, walk, depth, out, stmt)?;
    }
    Ok(())
}
