//! The rules that statements break.

ghost use Rattle.std.specs.Prelude.{◌≡◌, ◌+◌, ◌<◌, OnOk, IfOk};
ghost use Rattle.ac_tree.specs.Weight.{stmt_weight, some_weight, body_weight};
ghost use Rattle.ac_types.specs.Around.{inside_loop};
ghost use Rattle.ac_names.specs.Room.{HasSlots, HasDepths};
ghost use Rattle.ac_names.specs.Statements.{array_len};
ghost use Rattle.ac_types.specs.inner.Statements.{after, after_listed, after_some, after_init, after_body, after_scope};
ghost use Rattle.ac_types.specs.inner.Statements.{after_test, after_open, noted_plain, after_expr, after_value, stmt_seen};
ghost use Rattle.ac_types.specs.inner.Statements.{some_seen, body_seen, block_seen, int_seen, array_seen, assign_seen};
ghost use Rattle.ac_types.specs.inner.Statements.{call_seen, print_seen, return_seen, do_seen, async_seen, cancel_seen};

use crate::around::{Around, Position};
use crate::expressions::{see_expr, see_value, see_values};
use crate::judged::{
    judge_array, judge_async, judge_body, judge_cancel, judge_leave, judge_once, judge_print,
    judge_return,
};
use crate::numbered::Tables;
use crate::rule::Rule;
use crate::seen::Seen;
use ac_base::{Boxed, Bytes, List, Name, NoMemory};
use ac_names::{Names, array_len};
use ac_tree::{Expr, Stmt};

/// A walk over the tree: the names round the place where it is, and what it has seen.
#[derive(Drop)]
pub struct Walk {
    pub names: Names,
    pub seen: Seen,
}

impl Walk {
    /// Notes a node that calls nothing.
    pub fn note(&mut self, at: u32, rule: Option<Rule>) -> Result<(), NoMemory>
        ensures { OnOk result (self.new ≡ noted_plain at rule self.old) }
    {
        self.seen.note(at, rule, None, None)
    }

    /// Sees an expression at its position.
    fn expr(
        &mut self,
        tables: &Tables,
        around: Around,
        position: Position,
        expr: &Expr,
    ) -> Result<(), NoMemory>
        ensures { OnOk result (self.new ≡ after_expr tables.now around position expr.now self.old) }
    {
        see_expr(
            &mut self.seen,
            tables,
            &self.names.scopes,
            around,
            position,
            expr,
        )
    }

    /// Sees an expression whose value is used, where there is one.
    fn value(
        &mut self,
        tables: &Tables,
        around: Around,
        value: &Option<Expr>,
    ) -> Result<(), NoMemory>
        ensures { OnOk result (self.new ≡ after_value tables.now around value.now self.old) }
    {
        see_value(&mut self.seen, tables, &self.names.scopes, around, value)
    }
}

fn see_int(
    walk: &mut Walk,
    tables: &Tables,
    around: Around,
    at: u32,
    name: &Name,
    value: &Option<Expr>,
) -> Result<(), NoMemory>
    requires { walk.old.names.slot + 1 < 4294967296 }
    ensures { OnOk result (walk.new ≡ after tables.now around (int_seen at name.now value.now) walk.old) }
{
    let before = walk.names.scopes.find_inner(name);
    walk.note(at, judge_once(before))?;
    walk.value(tables, around, value)?;
    walk.names.take(1);
    Ok(())
}

fn see_array(
    walk: &mut Walk,
    tables: &Tables,
    around: Around,
    at: u32,
    name: &Name,
    size: i64,
) -> Result<(), NoMemory>
    requires { walk.old.names.slot + array_len size < 4294967296 }
    ensures { OnOk result (walk.new ≡ after tables.now around (array_seen at name.now size) walk.old) }
{
    let before = walk.names.scopes.find_inner(name);
    walk.note(at, judge_array(before, size))?;
    walk.names.take(array_len(size));
    Ok(())
}

fn see_assign(
    walk: &mut Walk,
    tables: &Tables,
    around: Around,
    at: u32,
    place: &Expr,
    value: &Expr,
) -> Result<(), NoMemory>
    ensures { OnOk result (walk.new ≡ after tables.now around (assign_seen at place.now value.now) walk.old) }
{
    walk.note(at, None)?;
    walk.expr(tables, around, Position::Value, place)?;
    walk.expr(tables, around, Position::Value, value)
}

fn see_call(
    walk: &mut Walk,
    tables: &Tables,
    around: Around,
    at: u32,
    call: &Expr,
) -> Result<(), NoMemory>
    ensures { OnOk result (walk.new ≡ after tables.now around (call_seen at call.now) walk.old) }
{
    walk.note(at, None)?;
    walk.expr(tables, around, Position::Statement, call)
}

fn see_print(
    walk: &mut Walk,
    tables: &Tables,
    around: Around,
    at: u32,
    format: &Bytes,
    args: &List<Expr>,
) -> Result<(), NoMemory>
    ensures { OnOk result (walk.new ≡ after tables.now around (print_seen at format.now args.now) walk.old) }
{
    walk.note(at, judge_print(format.as_slice(), args.len()))?;
    see_values(
        &mut walk.seen,
        tables,
        &walk.names.scopes,
        around,
        args.as_slice(),
    )
}

fn see_return(
    walk: &mut Walk,
    tables: &Tables,
    around: Around,
    at: u32,
    value: &Option<Expr>,
) -> Result<(), NoMemory>
    ensures { OnOk result (walk.new ≡ after tables.now around (return_seen at value.now) walk.old) }
{
    walk.note(at, judge_return(around, value.is_some()))?;
    walk.value(tables, around, value)
}

fn see_cancel(
    walk: &mut Walk,
    tables: &Tables,
    around: Around,
    at: u32,
    label: &Name,
) -> Result<(), NoMemory>
    ensures { OnOk result (walk.new ≡ after tables.now around (cancel_seen at label.now) walk.old) }
{
    let label = walk.names.labels.find(label);
    walk.note(at, judge_cancel(label, around))
}

fn in_loop(around: Around) -> Around
    ensures { result ≡ inside_loop around }
{
    Around {
        in_loop: true,
        ..around
    }
}

/// Sees the node of a statement with a test, and the test.
fn see_test(
    walk: &mut Walk,
    tables: &Tables,
    around: Around,
    at: u32,
    test: &Expr,
) -> Result<(), NoMemory>
    ensures { OnOk result (walk.new ≡ after_test tables.now around at test.now walk.old) }
{
    walk.note(at, None)?;
    walk.expr(tables, around, Position::Value, test)
}

/// Sees the node of a statement, and opens a scope.
fn see_open(walk: &mut Walk, at: u32) -> Result<(), NoMemory>
    ensures { OnOk result (walk.new ≡ after_open at walk.old) }
{
    walk.note(at, None)?;
    walk.names.scopes.open()?;
    Ok(())
}

/// Sees the nodes of a statement.
#[cycle(stmt)]
fn see_stmt(walk: &mut Walk, tables: &Tables, around: Around, stmt: &Stmt) -> Result<(), NoMemory>
    requires slots { HasSlots walk.old.names.slot (stmt_weight stmt.now) }
    requires depths { HasDepths around.depth (stmt_weight stmt.now) }
    ensures { OnOk result (walk.new ≡ after tables.now around (stmt_seen stmt.now) walk.old) }
{
    match stmt {
        Stmt::Block { at, body } => see_block(walk, tables, around, *at, body.as_slice()),
        Stmt::Empty { at } => walk.note(*at, None),
        Stmt::Int { at, name, value } => see_int(walk, tables, around, *at, name, value),
        Stmt::Array { at, name, size } => see_array(walk, tables, around, *at, name, *size),
        Stmt::Assign { at, place, value } => see_assign(walk, tables, around, *at, place, value),
        Stmt::Call { at, call } => see_call(walk, tables, around, *at, call),
        Stmt::Print { at, format, args } => see_print(walk, tables, around, *at, format, args),
        Stmt::If {
            at,
            test,
            body,
            other,
        } => {
            see_test(walk, tables, around, *at, test)?;
            see_stmt(walk, tables, around, body.get())?;
            see_some(walk, tables, around, other)
        }
        Stmt::While { at, test, body } => {
            see_test(walk, tables, around, *at, test)?;
            see_stmt(walk, tables, in_loop(around), body.get())
        },
        Stmt::For {
            at,
            init,
            test,
            next,
            body,
        } => {
            see_open(walk, *at)?;
            see_init(walk, tables, around, init)?;
            walk.value(tables, around, test)?;
            see_some(walk, tables, around, next)?;
            see_stmt(walk, tables, in_loop(around), body.get())?;
            walk.names.scopes.close();
            Ok(())
        }
        Stmt::Break { at } => walk.note(*at, judge_leave(around)),
        Stmt::Continue { at } => walk.note(*at, judge_leave(around)),
        Stmt::Return { at, value } => see_return(walk, tables, around, *at, value),
        Stmt::Do { at, label, body } => see_do(walk, tables, around, *at, label, body.as_slice()),
        Stmt::Async { at, body } => see_async(walk, tables, around, *at, body),
        Stmt::Cancel { at, label } => see_cancel(walk, tables, around, *at, label),
        Stmt::Yield { at } => walk.note(*at, judge_async(around)),
    }
}

#[cycle(stmt)]
fn see_block(
    walk: &mut Walk,
    tables: &Tables,
    around: Around,
    at: u32,
    body: &[Stmt],
) -> Result<(), NoMemory>
    requires slots { HasSlots walk.old.names.slot (body_weight body.now) }
    requires depths { HasDepths around.depth (body_weight body.now) }
    ensures { OnOk result (walk.new ≡ after tables.now around (block_seen at (body_seen body.now)) walk.old) }
{
    walk.note(at, None)?;
    see_scope(walk, tables, around, body)
}

#[cycle(stmt)]
fn see_do(
    walk: &mut Walk,
    tables: &Tables,
    around: Around,
    at: u32,
    label: &Option<Name>,
    body: &[Stmt],
) -> Result<(), NoMemory>
    requires slots { HasSlots (walk.old.names.slot + 1) (body_weight body.now) }
    requires depths { HasDepths around.depth (body_weight body.now) }
    ensures { OnOk result (walk.new ≡ after tables.now around (do_seen at label.now (body_seen body.now)) walk.old) }
{
    walk.note(at, judge_async(around))?;
    walk.names.enter_do(label, around.depth)?;
    let around = Around {
        in_do: true,
        in_loop: false,
        ..around
    };
    see_scope(walk, tables, around, body)?;
    walk.names.labels.close();
    Ok(())
}

#[cycle(stmt)]
fn see_async(
    walk: &mut Walk,
    tables: &Tables,
    around: Around,
    at: u32,
    body: &Boxed<Stmt>,
) -> Result<(), NoMemory>
    requires slots { HasSlots 0 (stmt_weight body.now) }
    requires depths { HasDepths (around.depth + 1) (stmt_weight body.now) }
    ensures { OnOk result (walk.new ≡ after tables.now around (async_seen at (stmt_seen body.now)) walk.old) }
{
    walk.note(at, judge_body(around))?;
    let around = Around {
        depth: around.depth + 1,
        in_loop: false,
        ..around
    };
    let slot = walk.names.slot;
    walk.names.slot = 0;
    see_stmt(walk, tables, around, body.get())?;
    walk.names.slot = slot;
    Ok(())
}

#[cycle(stmt)]
fn see_some(
    walk: &mut Walk,
    tables: &Tables,
    around: Around,
    stmt: &Option<Boxed<Stmt>>,
) -> Result<(), NoMemory>
    requires slots { HasSlots walk.old.names.slot (some_weight stmt.now) }
    requires depths { HasDepths around.depth (some_weight stmt.now) }
    ensures { OnOk result (walk.new ≡ after_some tables.now around (some_seen stmt.now) walk.old) }
{
    match stmt {
        None => Ok(()),
        Some(stmt) => see_stmt(walk, tables, around, stmt.get()),
    }
}

#[cycle(stmt)]
fn see_init(
    walk: &mut Walk,
    tables: &Tables,
    around: Around,
    stmt: &Option<Boxed<Stmt>>,
) -> Result<(), NoMemory>
    requires slots { HasSlots walk.old.names.slot (some_weight stmt.now) }
    requires depths { HasDepths around.depth (some_weight stmt.now) }
    ensures { OnOk result (walk.new ≡ after_init tables.now around (some_seen stmt.now) walk.old) }
{
    match stmt {
        None => Ok(()),
        Some(stmt) => see_listed(walk, tables, around, stmt.get()),
    }
}

/// Sees the nodes of a statement, and declares what it declares.
#[cycle(stmt)]
fn see_listed(walk: &mut Walk, tables: &Tables, around: Around, stmt: &Stmt) -> Result<(), NoMemory>
    requires slots { HasSlots walk.old.names.slot (stmt_weight stmt.now) }
    requires depths { HasDepths around.depth (stmt_weight stmt.now) }
    ensures { OnOk result (walk.new ≡ after_listed tables.now around (stmt_seen stmt.now) walk.old) }
{
    let slot = walk.names.slot;
    see_stmt(walk, tables, around, stmt)?;
    walk.names.declare(around.depth, slot, stmt)
}

/// Sees the nodes of statements whose declarations have a scope of their own.
#[cycle(stmt)]
fn see_scope(
    walk: &mut Walk,
    tables: &Tables,
    around: Around,
    body: &[Stmt],
) -> Result<(), NoMemory>
    requires slots { HasSlots walk.old.names.slot (body_weight body.now) }
    requires depths { HasDepths around.depth (body_weight body.now) }
    ensures { OnOk result (walk.new ≡ after_scope tables.now around (body_seen body.now) walk.old) }
{
    walk.names.scopes.open()?;
    see_body(walk, tables, around, body)?;
    walk.names.scopes.close();
    Ok(())
}

/// Sees the nodes of statements one after the other.
#[cycle(stmt)]
pub fn see_body(
    walk: &mut Walk,
    tables: &Tables,
    around: Around,
    body: &[Stmt],
) -> Result<(), NoMemory>
    requires slots { HasSlots walk.old.names.slot (body_weight body.now) }
    requires depths { HasDepths around.depth (body_weight body.now) }
    ensures { OnOk result (walk.new ≡ after_body tables.now around (body_seen body.now) walk.old) }
{
    for stmt in body {
        see_listed(walk, tables, around, stmt)?;
    }
    Ok(())
}
