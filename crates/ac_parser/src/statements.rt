//! Statements, and blocks of them.
//!
//! The room is as in expressions: in a part behind its first token, that of what is one deeper.

ghost use Rattle.std.specs.Prelude.{◌≡◌, suc, ◌+◌, ◌<◌, ◌^◌};
ghost use Rattle.ac_expressions.specs.Returned.{Gives};
ghost use Rattle.ac_expressions.specs.Reads.{expr_at};
ghost use Rattle.ac_parser.specs.inner.ReadsStatements.{named_simple_at, simple_at, decl_value_at, decl_size_at, decl_plain_at};
ghost use Rattle.ac_parser.specs.inner.ReadsStatements.{whole_decl_at, decl_at, test_at, whole_int_init_at, int_init_at, init_at, next_at};
ghost use Rattle.ac_parser.specs.inner.ReadsStatements.{whole_head_at, begins_head, head_at, entry_at, entries_at, block_at, block_stmt_at};
ghost use Rattle.ac_parser.specs.inner.ReadsStatements.{empty_at, plain_do_at, labelled_at, call_stmt_at, assign_at, named_stmt_at};
ghost use Rattle.ac_parser.specs.inner.ReadsStatements.{operation_stmt_at, print_at, other_at, branches_at, if_at, while_at, for_at};
ghost use Rattle.ac_parser.specs.inner.ReadsStatements.{break_at, continue_at, yield_at, return_at, async_at, cancel_at, stmt_at};
ghost use Rattle.reading_laws.specs.inner.Tokens.{deep_number_at, deep_text_at};

use crate::forms::{ForBegins, Opening, for_next, is_statement, opening_next};
use ac_base::{Boxed, Bytes, List, Name};
use ac_expressions::{
    Cursor, Halt, call, expression, is_expression, is_mark, is_name, is_number, is_other, is_text,
    is_word, mark, more_args, name, named_place, number, operation, place, text, word,
};
use ac_lexer::{Mark, Word};
use ac_tree::{Expr, Stmt};
use std::alloc::Global;

// ---- parts

// An assignment without its semicolon, behind its first name.
fn named_simple(
    alloc: Global,
    c: &mut Cursor<'_>,
    room: u32,
    at: u32,
    name: Name,
) -> Result<Stmt, Halt>
    requires { room + 1 < 2 ^ 32 }
    ensures { Gives c.new.rest.now (λ x. (x, c.new.rest.now)) result (named_simple_at room at name c.old.rest.now) }
{
    let place = named_place(alloc, c, room, at, name)?;
    mark(c, Mark::Assign)?;
    let value = expression(alloc, c, room + 1)?;
    Ok(Stmt::Assign { at, place, value })
}

fn simple(alloc: Global, c: &mut Cursor<'_>, room: u32) -> Result<Stmt, Halt>
    ensures { Gives c.new.rest.now (λ x. (x, c.new.rest.now)) result (simple_at room c.old.rest.now) }
{
    if room == 0 {
        if is_name(c) {
            return Err(Halt::TooDeep);
        }
        return Err(Halt::Unexpected);
    }
    let (at, name) = name(alloc, c)?;
    named_simple(alloc, c, room - 1, at, name)
}

fn deep_number(c: &mut Cursor<'_>, room: u32) -> Result<(u32, i64), Halt>
    ensures { Gives c.new.rest.now (λ x. (x, c.new.rest.now)) result (deep_number_at room c.old.rest.now) }
{
    if room == 0 {
        if is_number(c) {
            return Err(Halt::TooDeep);
        }
        return Err(Halt::Unexpected);
    }
    number(c)
}

fn deep_text(alloc: Global, c: &mut Cursor<'_>, room: u32) -> Result<Bytes, Halt>
    ensures { Gives c.new.rest.now (λ x. (x, c.new.rest.now)) result (deep_text_at room c.old.rest.now) }
{
    if room == 0 {
        if is_text(c) {
            return Err(Halt::TooDeep);
        }
        return Err(Halt::Unexpected);
    }
    text(alloc, c)
}

// ---- declarations

fn decl_value(
    alloc: Global,
    c: &mut Cursor<'_>,
    room: u32,
    at: u32,
    name: Name,
) -> Result<Stmt, Halt>
    requires { room + 1 < 2 ^ 32 }
    ensures { Gives c.new.rest.now (λ x. (x, c.new.rest.now)) result (decl_value_at room at name c.old.rest.now) }
{
    mark(c, Mark::Assign)?;
    let value = expression(alloc, c, room + 1)?;
    mark(c, Mark::Semicolon)?;
    let value = Some(value);
    Ok(Stmt::Int { at, name, value })
}

fn decl_size(c: &mut Cursor<'_>, room: u32, at: u32, name: Name) -> Result<Stmt, Halt>
    ensures { Gives c.new.rest.now (λ x. (x, c.new.rest.now)) result (decl_size_at room at name c.old.rest.now) }
{
    mark(c, Mark::OpenBracket)?;
    let (_, size) = deep_number(c, room)?;
    mark(c, Mark::CloseBracket)?;
    mark(c, Mark::Semicolon)?;
    Ok(Stmt::Array { at, name, size })
}

fn decl_plain(c: &mut Cursor<'_>, at: u32, name: Name) -> Result<Stmt, Halt>
    ensures { Gives c.new.rest.now (λ x. (x, c.new.rest.now)) result (decl_plain_at at name c.old.rest.now) }
{
    mark(c, Mark::Semicolon)?;
    let value = None;
    Ok(Stmt::Int { at, name, value })
}

fn whole_decl(alloc: Global, c: &mut Cursor<'_>, room: u32) -> Result<Stmt, Halt>
    requires { room + 1 < 2 ^ 32 }
    ensures { Gives c.new.rest.now (λ x. (x, c.new.rest.now)) result (whole_decl_at room c.old.rest.now) }
{
    let at = word(c, Word::Int)?;
    let (_, name) = name(alloc, c)?;
    if is_mark(c, Mark::Assign) {
        return decl_value(alloc, c, room, at, name);
    }
    if is_mark(c, Mark::OpenBracket) {
        return decl_size(c, room, at, name);
    }
    decl_plain(c, at, name)
}

fn decl(alloc: Global, c: &mut Cursor<'_>, room: u32) -> Result<Stmt, Halt>
    ensures { Gives c.new.rest.now (λ x. (x, c.new.rest.now)) result (decl_at room c.old.rest.now) }
{
    if room == 0 {
        if is_word(c, Word::Int) {
            return Err(Halt::TooDeep);
        }
        return Err(Halt::Unexpected);
    }
    whole_decl(alloc, c, room - 1)
}

// An expression in a statement, if one comes.
fn test(alloc: Global, c: &mut Cursor<'_>, room: u32) -> Result<Option<Expr>, Halt>
    requires { room + 1 < 2 ^ 32 }
    ensures { Gives c.new.rest.now (λ x. (x, c.new.rest.now)) result (test_at (expr_at (suc room)) c.old.rest.now) }
{
    if !is_expression(c) {
        return Ok(None);
    }
    let value = expression(alloc, c, room + 1)?;
    Ok(Some(value))
}

// ---- the parts of a `for`

fn whole_int_init(alloc: Global, c: &mut Cursor<'_>, room: u32) -> Result<Stmt, Halt>
    requires { room + 1 < 2 ^ 32 }
    ensures { Gives c.new.rest.now (λ x. (x, c.new.rest.now)) result (whole_int_init_at room c.old.rest.now) }
{
    let at = word(c, Word::Int)?;
    let (_, name) = name(alloc, c)?;
    mark(c, Mark::Assign)?;
    let value = expression(alloc, c, room + 1)?;
    let value = Some(value);
    Ok(Stmt::Int { at, name, value })
}

fn int_init(alloc: Global, c: &mut Cursor<'_>, room: u32) -> Result<Stmt, Halt>
    ensures { Gives c.new.rest.now (λ x. (x, c.new.rest.now)) result (int_init_at room c.old.rest.now) }
{
    if room == 0 {
        if is_word(c, Word::Int) {
            return Err(Halt::TooDeep);
        }
        return Err(Halt::Unexpected);
    }
    whole_int_init(alloc, c, room - 1)
}

// The first part, if one comes.
fn init(alloc: Global, c: &mut Cursor<'_>, room: u32) -> Result<Option<Boxed<Stmt>>, Halt>
    ensures { Gives c.new.rest.now (λ x. (x, c.new.rest.now)) result (init_at room c.old.rest.now) }
{
    let part = match for_next(c) {
        ForBegins::Int => int_init(alloc, c, room)?,
        ForBegins::Name => simple(alloc, c, room)?,
        ForBegins::Other => return Ok(None),
    };
    Ok(Some(Boxed::new(alloc, part)?))
}

// The third part, if one comes.
fn next(alloc: Global, c: &mut Cursor<'_>, room: u32) -> Result<Option<Boxed<Stmt>>, Halt>
    ensures { Gives c.new.rest.now (λ x. (x, c.new.rest.now)) result (next_at room c.old.rest.now) }
{
    if !is_name(c) {
        return Ok(None);
    }
    let part = simple(alloc, c, room)?;
    Ok(Some(Boxed::new(alloc, part)?))
}

/// What stands between the parentheses of a `for`.
#[derive(Drop)]
pub struct ForHead {
    pub init: Option<Boxed<Stmt>>,
    pub test: Option<Expr>,
    pub next: Option<Boxed<Stmt>>,
}

fn whole_head(alloc: Global, c: &mut Cursor<'_>, room: u32) -> Result<ForHead, Halt>
    requires { room + 1 < 2 ^ 32 }
    ensures { Gives c.new.rest.now (λ x. (x, c.new.rest.now)) result (whole_head_at room c.old.rest.now) }
{
    let init = init(alloc, c, room)?;
    mark(c, Mark::Semicolon)?;
    let test = test(alloc, c, room)?;
    mark(c, Mark::Semicolon)?;
    let next = next(alloc, c, room)?;
    Ok(ForHead { init, test, next })
}

// Whether the first part of a `for`, or the semicolon behind it, comes next.
fn is_head(c: &Cursor<'_>) -> bool
    ensures { result ≡ begins_head c.now.rest.now }
{
    if is_mark(c, Mark::Semicolon) {
        return true;
    }
    match for_next(c) {
        ForBegins::Int | ForBegins::Name => true,
        ForBegins::Other => false,
    }
}

fn head(alloc: Global, c: &mut Cursor<'_>, room: u32) -> Result<ForHead, Halt>
    ensures { Gives c.new.rest.now (λ x. (x, c.new.rest.now)) result (head_at room c.old.rest.now) }
{
    if room == 0 {
        if is_head(c) {
            return Err(Halt::TooDeep);
        }
        return Err(Halt::Unexpected);
    }
    whole_head(alloc, c, room - 1)
}

// ---- statements without statements in them

fn empty(c: &mut Cursor<'_>) -> Result<Stmt, Halt>
    ensures { Gives c.new.rest.now (λ x. (x, c.new.rest.now)) result (empty_at c.old.rest.now) }
{
    let at = mark(c, Mark::Semicolon)?;
    Ok(Stmt::Empty { at })
}

fn call_stmt(
    alloc: Global,
    c: &mut Cursor<'_>,
    room: u32,
    at: u32,
    name: Name,
) -> Result<Stmt, Halt>
    ensures { Gives c.new.rest.now (λ x. (x, c.new.rest.now)) result (call_stmt_at room at name c.old.rest.now) }
{
    let call = call(alloc, c, room, at, name)?;
    mark(c, Mark::Semicolon)?;
    Ok(Stmt::Call { at, call })
}

fn assign(alloc: Global, c: &mut Cursor<'_>, room: u32, at: u32, name: Name) -> Result<Stmt, Halt>
    requires { room + 1 < 2 ^ 32 }
    ensures { Gives c.new.rest.now (λ x. (x, c.new.rest.now)) result (assign_at room at name c.old.rest.now) }
{
    let place = named_place(alloc, c, room, at, name)?;
    mark(c, Mark::Assign)?;
    let value = expression(alloc, c, room + 1)?;
    mark(c, Mark::Semicolon)?;
    Ok(Stmt::Assign { at, place, value })
}

fn operation_stmt(alloc: Global, c: &mut Cursor<'_>, room: u32) -> Result<Stmt, Halt>
    ensures { Gives c.new.rest.now (λ x. (x, c.new.rest.now)) result (operation_stmt_at room c.old.rest.now) }
{
    let call = operation(alloc, c, room)?;
    mark(c, Mark::Semicolon)?;
    let at = place(&call);
    Ok(Stmt::Call { at, call })
}

fn print(alloc: Global, c: &mut Cursor<'_>, room: u32) -> Result<Stmt, Halt>
    ensures { Gives c.new.rest.now (λ x. (x, c.new.rest.now)) result (print_at room c.old.rest.now) }
{
    let at = word(c, Word::Printf)?;
    mark(c, Mark::OpenParen)?;
    let format = deep_text(alloc, c, room)?;
    let args = more_args(alloc, c, room, List::new(alloc))?;
    mark(c, Mark::CloseParen)?;
    mark(c, Mark::Semicolon)?;
    Ok(Stmt::Print { at, format, args })
}

fn break_stmt(c: &mut Cursor<'_>) -> Result<Stmt, Halt>
    ensures { Gives c.new.rest.now (λ x. (x, c.new.rest.now)) result (break_at c.old.rest.now) }
{
    let at = word(c, Word::Break)?;
    mark(c, Mark::Semicolon)?;
    Ok(Stmt::Break { at })
}

fn continue_stmt(c: &mut Cursor<'_>) -> Result<Stmt, Halt>
    ensures { Gives c.new.rest.now (λ x. (x, c.new.rest.now)) result (continue_at c.old.rest.now) }
{
    let at = word(c, Word::Continue)?;
    mark(c, Mark::Semicolon)?;
    Ok(Stmt::Continue { at })
}

fn yield_stmt(c: &mut Cursor<'_>) -> Result<Stmt, Halt>
    ensures { Gives c.new.rest.now (λ x. (x, c.new.rest.now)) result (yield_at c.old.rest.now) }
{
    let at = word(c, Word::Yield)?;
    mark(c, Mark::Semicolon)?;
    Ok(Stmt::Yield { at })
}

fn return_stmt(alloc: Global, c: &mut Cursor<'_>, room: u32) -> Result<Stmt, Halt>
    requires { room + 1 < 2 ^ 32 }
    ensures { Gives c.new.rest.now (λ x. (x, c.new.rest.now)) result (return_at room c.old.rest.now) }
{
    let at = word(c, Word::Return)?;
    let value = test(alloc, c, room)?;
    mark(c, Mark::Semicolon)?;
    Ok(Stmt::Return { at, value })
}

fn cancel(alloc: Global, c: &mut Cursor<'_>) -> Result<Stmt, Halt>
    ensures { Gives c.new.rest.now (λ x. (x, c.new.rest.now)) result (cancel_at c.old.rest.now) }
{
    let at = word(c, Word::Cancel)?;
    let (_, label) = name(alloc, c)?;
    mark(c, Mark::Semicolon)?;
    Ok(Stmt::Cancel { at, label })
}

// ---- statements with statements in them

/// A statement.
#[cycle(stmt)]
#[tactic(auto, unfolding(crate::specs::inner::ReadsStatements::stmt_at))]
pub fn statement(alloc: Global, c: &mut Cursor<'_>, room: u32) -> Result<Stmt, Halt>
    ensures { Gives c.new.rest.now (λ x. (x, c.new.rest.now)) result (stmt_at room c.old.rest.now) }
{
    if room == 0 {
        if is_statement(c) {
            return Err(Halt::TooDeep);
        }
        return Err(Halt::Unexpected);
    }
    form(alloc, c, room - 1)
}

#[cycle(stmt)]
fn form(alloc: Global, c: &mut Cursor<'_>, room: u32) -> Result<Stmt, Halt>
    requires { room + 1 < 2 ^ 32 }
    ensures { Gives c.new.rest.now (λ x. (x, c.new.rest.now)) result (stmt_at (room + 1) c.old.rest.now) }
{
    match opening_next(c) {
        Opening::Block => block_stmt(alloc, c, room),
        Opening::Empty => empty(c),
        Opening::Name => named_stmt(alloc, c, room),
        Opening::Operation => operation_stmt(alloc, c, room),
        Opening::Print => print(alloc, c, room),
        Opening::If => if_stmt(alloc, c, room),
        Opening::While => while_stmt(alloc, c, room),
        Opening::For => for_stmt(alloc, c, room),
        Opening::Break => break_stmt(c),
        Opening::Continue => continue_stmt(c),
        Opening::Return => return_stmt(alloc, c, room),
        Opening::Do => plain_do(alloc, c, room),
        Opening::Async => async_stmt(alloc, c, room),
        Opening::Cancel => cancel(alloc, c),
        Opening::Yield => yield_stmt(c),
        Opening::Other => Err(Halt::Unexpected),
    }
}

#[cycle(stmt)]
fn entry(alloc: Global, c: &mut Cursor<'_>, room: u32) -> Result<Stmt, Halt>
    ensures { Gives c.new.rest.now (λ x. (x, c.new.rest.now)) result (entry_at (stmt_at room) room c.old.rest.now) }
{
    if is_word(c, Word::Int) {
        return decl(alloc, c, room);
    }
    statement(alloc, c, room)
}

// The declarations and statements up to the next closing brace.
#[cycle(stmt)]
fn entries(alloc: Global, c: &mut Cursor<'_>, room: u32) -> Result<List<Stmt>, Halt>
    ensures { Gives c.new.rest.now (λ xs. (xs, c.new.rest.now)) result (entries_at (stmt_at room) room c.old.rest.now) }
{
    let mut body = List::new(alloc);
    let most = c.rest.len();
    'body: for _ in 0..most {
        if !is_other(c, Mark::CloseBrace) {
            return Ok(body);
        }
        let next = entry(alloc, c, room)?;
        body.push(next)?;
    }
    Ok(body)
}

/// A block: its place, and what stands between its braces.
#[cycle(stmt)]
pub fn block(alloc: Global, c: &mut Cursor<'_>, room: u32) -> Result<(u32, List<Stmt>), Halt>
    ensures { Gives c.new.rest.now (λ x. (x, c.new.rest.now)) result (block_at (stmt_at room) room c.old.rest.now) }
{
    let at = mark(c, Mark::OpenBrace)?;
    let body = entries(alloc, c, room)?;
    mark(c, Mark::CloseBrace)?;
    Ok((at, body))
}

#[cycle(stmt)]
fn block_stmt(alloc: Global, c: &mut Cursor<'_>, room: u32) -> Result<Stmt, Halt>
    ensures { Gives c.new.rest.now (λ x. (x, c.new.rest.now)) result (block_stmt_at (stmt_at room) room c.old.rest.now) }
{
    let (at, body) = block(alloc, c, room)?;
    Ok(Stmt::Block { at, body })
}

#[cycle(stmt)]
fn plain_do(alloc: Global, c: &mut Cursor<'_>, room: u32) -> Result<Stmt, Halt>
    ensures { Gives c.new.rest.now (λ x. (x, c.new.rest.now)) result (plain_do_at (stmt_at room) room c.old.rest.now) }
{
    let at = word(c, Word::Do)?;
    let (_, body) = block(alloc, c, room)?;
    word(c, Word::Finish)?;
    mark(c, Mark::Semicolon)?;
    let label = None;
    Ok(Stmt::Do { at, label, body })
}

#[cycle(stmt)]
fn labelled(alloc: Global, c: &mut Cursor<'_>, room: u32, at: u32, name: Name) -> Result<Stmt, Halt>
    ensures { Gives c.new.rest.now (λ x. (x, c.new.rest.now)) result (labelled_at (stmt_at room) room at name c.old.rest.now) }
{
    mark(c, Mark::Colon)?;
    word(c, Word::Do)?;
    let (_, body) = block(alloc, c, room)?;
    word(c, Word::Finish)?;
    mark(c, Mark::Semicolon)?;
    let label = Some(name);
    Ok(Stmt::Do { at, label, body })
}

#[cycle(stmt)]
fn named_stmt(alloc: Global, c: &mut Cursor<'_>, room: u32) -> Result<Stmt, Halt>
    requires { room + 1 < 2 ^ 32 }
    ensures { Gives c.new.rest.now (λ x. (x, c.new.rest.now)) result (named_stmt_at (stmt_at room) room c.old.rest.now) }
{
    let (at, name) = name(alloc, c)?;
    if is_mark(c, Mark::OpenParen) {
        return call_stmt(alloc, c, room, at, name);
    }
    if is_mark(c, Mark::Colon) {
        return labelled(alloc, c, room, at, name);
    }
    assign(alloc, c, room, at, name)
}

#[cycle(stmt)]
fn other(alloc: Global, c: &mut Cursor<'_>, room: u32) -> Result<Option<Boxed<Stmt>>, Halt>
    ensures { Gives c.new.rest.now (λ x. (x, c.new.rest.now)) result (other_at (stmt_at room) c.old.rest.now) }
{
    if !is_word(c, Word::Else) {
        return Ok(None);
    }
    word(c, Word::Else)?;
    let other = statement(alloc, c, room)?;
    Ok(Some(Boxed::new(alloc, other)?))
}

// The statement behind the condition of an `if`, and the one behind its `else`.
#[cycle(stmt)]
fn branches(
    alloc: Global,
    c: &mut Cursor<'_>,
    room: u32,
) -> Result<(Boxed<Stmt>, Option<Boxed<Stmt>>), Halt>
    ensures { Gives c.new.rest.now (λ x. (x, c.new.rest.now)) result (branches_at (stmt_at room) c.old.rest.now) }
{
    let body = statement(alloc, c, room)?;
    let body = Boxed::new(alloc, body)?;
    let other = other(alloc, c, room)?;
    Ok((body, other))
}

#[cycle(stmt)]
fn if_stmt(alloc: Global, c: &mut Cursor<'_>, room: u32) -> Result<Stmt, Halt>
    ensures { Gives c.new.rest.now (λ x. (x, c.new.rest.now)) result (if_at (stmt_at room) room c.old.rest.now) }
{
    let at = word(c, Word::If)?;
    mark(c, Mark::OpenParen)?;
    let test = expression(alloc, c, room)?;
    mark(c, Mark::CloseParen)?;
    let (body, other) = branches(alloc, c, room)?;
    Ok(Stmt::If {
        at,
        test,
        body,
        other,
    })
}

#[cycle(stmt)]
fn while_stmt(alloc: Global, c: &mut Cursor<'_>, room: u32) -> Result<Stmt, Halt>
    ensures { Gives c.new.rest.now (λ x. (x, c.new.rest.now)) result (while_at (stmt_at room) room c.old.rest.now) }
{
    let at = word(c, Word::While)?;
    mark(c, Mark::OpenParen)?;
    let test = expression(alloc, c, room)?;
    mark(c, Mark::CloseParen)?;
    let body = statement(alloc, c, room)?;
    let body = Boxed::new(alloc, body)?;
    Ok(Stmt::While { at, test, body })
}

#[cycle(stmt)]
fn for_stmt(alloc: Global, c: &mut Cursor<'_>, room: u32) -> Result<Stmt, Halt>
    ensures { Gives c.new.rest.now (λ x. (x, c.new.rest.now)) result (for_at (stmt_at room) room c.old.rest.now) }
{
    let at = word(c, Word::For)?;
    mark(c, Mark::OpenParen)?;
    let ForHead { init, test, next } = head(alloc, c, room)?;
    mark(c, Mark::CloseParen)?;
    let body = statement(alloc, c, room)?;
    let body = Boxed::new(alloc, body)?;
    Ok(Stmt::For {
        at,
        init,
        test,
        next,
        body,
    })
}

#[cycle(stmt)]
fn async_stmt(alloc: Global, c: &mut Cursor<'_>, room: u32) -> Result<Stmt, Halt>
    ensures { Gives c.new.rest.now (λ x. (x, c.new.rest.now)) result (async_at (stmt_at room) c.old.rest.now) }
{
    let at = word(c, Word::Async)?;
    let body = statement(alloc, c, room)?;
    let body = Boxed::new(alloc, body)?;
    Ok(Stmt::Async { at, body })
}
