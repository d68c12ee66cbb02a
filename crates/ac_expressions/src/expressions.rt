//! Expressions.
//!
//! The room is how many more depths the tokens of a part may have, that of its first token included: at room 0 the next token is too deep,
//! if the part can begin with it. Behind a first token that was read, it is the room of what stands between parentheses or brackets.

ghost use Rattle.std.specs.Prelude.{◌≡◌, ◌≤◌, ◌<◌, ◌+◌, ◌-◌, IfOk};
ghost use Rattle.ac_expressions.specs.Returned.{Gives};
ghost use Rattle.reading_laws.specs.Readers.{with_front};
ghost use Rattle.ac_expressions.specs.Reads.{place_of, made, link_at, links_at, level_at, expr_at, unary_at, group_at, signed_at};
ghost use Rattle.ac_expressions.specs.Reads.{number_expr_at, constant_expr_at, named_at, index_at, named_place_at, place_at, call_at};
ghost use Rattle.ac_expressions.specs.Reads.{begins_args, deep_closed_at, closed_at, args_at, some_args_at, more_args_at, next_arg_at};
ghost use Rattle.ac_expressions.specs.Reads.{send_at, recv_rest_at, deep_recv_at, recv_at, range_at, transfer_at, read_at, write_at};
ghost use Rattle.ac_expressions.specs.Reads.{operation_at};
ghost use Rattle.reading_laws.specs.Letters.{deep_name_at};

use crate::cursor::{
    Cursor, Halt, constant, is_mark, is_name, is_operator, mark, name, number, operator,
    unary_sign, word,
};
use crate::forms::{Operation, Primary, is_expression, operation_next, primary_next};
use ac_base::{Boxed, List, Name, NoMemory};
use ac_lexer::{Mark, Word};
use ac_tree::{Expr, Link};
use std::alloc::Global;

// The level of unary expressions and primaries, above that of every operator.
const UNARY: u8 = 11;

/// The first byte of an expression.
pub fn place(x: &Expr) -> u32
    ensures { result ≡ place_of x.now }
{
    match x {
        Expr::Number { at, .. } => *at,
        Expr::Const { at, .. } => *at,
        Expr::Name { at, .. } => *at,
        Expr::Index { at, .. } => *at,
        Expr::Group { at, .. } => *at,
        Expr::Unary { at, .. } => *at,
        Expr::Chain { at, .. } => *at,
        Expr::Call { at, .. } => *at,
        Expr::Send { at, .. } => *at,
        Expr::Recv { at, .. } => *at,
        Expr::Read { at, .. } => *at,
        Expr::Write { at, .. } => *at,
    }
}

// A chain, or its first part alone.
fn whole(alloc: Global, level: u8, first: Expr, rest: List<Link>) -> Result<Expr, NoMemory>
    ensures { IfOk result (λ x. x ≡ made level first rest) }
{
    if rest.len() == 0 {
        return Ok(first);
    }
    let at = place(&first);
    let first = Boxed::new(alloc, first)?;
    Ok(Expr::Chain {
        at,
        level,
        first,
        rest,
    })
}

/// An expression.
#[cycle(expr)]
pub fn expression(alloc: Global, c: &mut Cursor<'_>, room: u32) -> Result<Expr, Halt>
    ensures { Gives c.new.rest.now (λ x. (x, c.new.rest.now)) result (expr_at room c.old.rest.now) }
{
    chain(alloc, c, room, 1)
}

// An expression of that level.
#[cycle(expr)]
fn chain(alloc: Global, c: &mut Cursor<'_>, room: u32, level: u8) -> Result<Expr, Halt>
    requires { level ≤ 11 }
    ensures { Gives c.new.rest.now (λ x. (x, c.new.rest.now)) result (level_at (unary_at room) level c.old.rest.now) }
{
    if level == UNARY {
        return unary(alloc, c, room);
    }
    let first = chain(alloc, c, room, level + 1)?;
    let rest = links(alloc, c, room, level)?;
    Ok(whole(alloc, level, first, rest)?)
}

// The operators of that level that come next, each with its right operand.
#[cycle(expr)]
fn links(alloc: Global, c: &mut Cursor<'_>, room: u32, level: u8) -> Result<List<Link>, Halt>
    requires { level < 11 }
    ensures { Gives c.new.rest.now (λ ls. (ls, c.new.rest.now)) result
        (links_at level (level_at (unary_at room) (level + 1)) c.old.rest.now) }
{
    let mut links = List::new(alloc);
    let most = c.rest.len();
    'links: for _ in 0..most {
        if !is_operator(c, level) {
            return Ok(links);
        }
        let next = link(alloc, c, room, level)?;
        links.push(next)?;
    }
    Ok(links)
}

#[cycle(expr)]
fn link(alloc: Global, c: &mut Cursor<'_>, room: u32, level: u8) -> Result<Link, Halt>
    requires { level < 11 }
    ensures { Gives c.new.rest.now (λ l. (l, c.new.rest.now)) result (link_at level (level_at (unary_at room) (level + 1)) c.old.rest.now) }
{
    let op = operator(c, level)?;
    let operand = chain(alloc, c, room, level + 1)?;
    Ok(Link { op, operand })
}

// A unary operator with its operand, or a primary.
#[cycle(expr)]
#[tactic(auto, unfolding(crate::specs::Reads::unary_at))]
fn unary(alloc: Global, c: &mut Cursor<'_>, room: u32) -> Result<Expr, Halt>
    ensures { Gives c.new.rest.now (λ x. (x, c.new.rest.now)) result (unary_at room c.old.rest.now) }
{
    if room == 0 {
        if is_expression(c) {
            return Err(Halt::TooDeep);
        }
        return Err(Halt::Unexpected);
    }
    primary(alloc, c, room - 1)
}

#[cycle(expr)]
fn primary(alloc: Global, c: &mut Cursor<'_>, room: u32) -> Result<Expr, Halt>
    ensures { Gives c.new.rest.now (λ x. (x, c.new.rest.now)) result (unary_at (room + 1) c.old.rest.now) }
{
    match primary_next(c) {
        Primary::Name => named(alloc, c, room),
        Primary::Number => number_expr(c),
        Primary::Constant => constant_expr(c),
        Primary::Operation => operation(alloc, c, room),
        Primary::Group => group(alloc, c, room),
        Primary::Unary => signed(alloc, c, room),
        Primary::Other => Err(Halt::Unexpected),
    }
}

fn number_expr(c: &mut Cursor<'_>) -> Result<Expr, Halt>
    ensures { Gives c.new.rest.now (λ x. (x, c.new.rest.now)) result (number_expr_at c.old.rest.now) }
{
    let (at, value) = number(c)?;
    Ok(Expr::Number { at, value })
}

fn constant_expr(c: &mut Cursor<'_>) -> Result<Expr, Halt>
    ensures { Gives c.new.rest.now (λ x. (x, c.new.rest.now)) result (constant_expr_at c.old.rest.now) }
{
    let (at, which) = constant(c)?;
    Ok(Expr::Const { at, which })
}

#[cycle(expr)]
fn group(alloc: Global, c: &mut Cursor<'_>, room: u32) -> Result<Expr, Halt>
    ensures { Gives c.new.rest.now (λ x. (x, c.new.rest.now)) result (group_at (expr_at room) c.old.rest.now) }
{
    let at = mark(c, Mark::OpenParen)?;
    let inner = expression(alloc, c, room)?;
    mark(c, Mark::CloseParen)?;
    let inner = Boxed::new(alloc, inner)?;
    Ok(Expr::Group { at, inner })
}

#[cycle(expr)]
fn signed(alloc: Global, c: &mut Cursor<'_>, room: u32) -> Result<Expr, Halt>
    ensures { Gives c.new.rest.now (λ x. (x, c.new.rest.now)) result (signed_at (unary_at room) c.old.rest.now) }
{
    let (at, op) = unary_sign(c)?;
    let inner = unary(alloc, c, room)?;
    let inner = Boxed::new(alloc, inner)?;
    Ok(Expr::Unary { at, op, inner })
}

#[cycle(expr)]
fn named(alloc: Global, c: &mut Cursor<'_>, room: u32) -> Result<Expr, Halt>
    ensures { Gives c.new.rest.now (λ x. (x, c.new.rest.now)) result (named_at (expr_at room) room c.old.rest.now) }
{
    let (at, name) = name(alloc, c)?;
    if is_mark(c, Mark::OpenParen) {
        return call(alloc, c, room, at, name);
    }
    named_place(alloc, c, room, at, name)
}

#[cycle(expr)]
fn index(alloc: Global, c: &mut Cursor<'_>, room: u32, at: u32, name: Name) -> Result<Expr, Halt>
    ensures { Gives c.new.rest.now (λ x. (x, c.new.rest.now)) result (index_at (expr_at room) at name c.old.rest.now) }
{
    mark(c, Mark::OpenBracket)?;
    let index = expression(alloc, c, room)?;
    mark(c, Mark::CloseBracket)?;
    let index = Boxed::new(alloc, index)?;
    Ok(Expr::Index { at, name, index })
}

/// A place, behind its name.
#[cycle(expr)]
pub fn named_place(
    alloc: Global,
    c: &mut Cursor<'_>,
    room: u32,
    at: u32,
    name: Name,
) -> Result<Expr, Halt>
    ensures { Gives c.new.rest.now (λ x. (x, c.new.rest.now)) result (named_place_at (expr_at room) at name c.old.rest.now) }
{
    if is_mark(c, Mark::OpenBracket) {
        return index(alloc, c, room, at, name);
    }
    Ok(Expr::Name { at, name })
}

#[cycle(expr)]
fn place_next(alloc: Global, c: &mut Cursor<'_>, room: u32) -> Result<Expr, Halt>
    ensures { Gives c.new.rest.now (λ x. (x, c.new.rest.now)) result (place_at (expr_at room) c.old.rest.now) }
{
    let (at, name) = name(alloc, c)?;
    named_place(alloc, c, room, at, name)
}

/// A call of a function, behind its name.
#[cycle(expr)]
pub fn call(alloc: Global, c: &mut Cursor<'_>, room: u32, at: u32, name: Name) -> Result<Expr, Halt>
    ensures { Gives c.new.rest.now (λ x. (x, c.new.rest.now)) result (call_at (expr_at room) room at name c.old.rest.now) }
{
    mark(c, Mark::OpenParen)?;
    let args = deep_closed(alloc, c, room)?;
    Ok(Expr::Call { at, name, args })
}

// Arguments and the closing parenthesis.
#[cycle(expr)]
fn deep_closed(alloc: Global, c: &mut Cursor<'_>, room: u32) -> Result<List<Expr>, Halt>
    ensures { Gives c.new.rest.now (λ xs. (xs, c.new.rest.now)) result (deep_closed_at (expr_at room) room c.old.rest.now) }
{
    if room == 0 {
        if is_args(c) {
            return Err(Halt::TooDeep);
        }
        return Err(Halt::Unexpected);
    }
    closed(alloc, c, room)
}

// Whether an argument or the closing parenthesis comes next.
fn is_args(c: &Cursor<'_>) -> bool
    ensures { result ≡ begins_args c.now.rest.now }
{
    is_mark(c, Mark::CloseParen) || is_expression(c)
}

#[cycle(expr)]
fn closed(alloc: Global, c: &mut Cursor<'_>, room: u32) -> Result<List<Expr>, Halt>
    ensures { Gives c.new.rest.now (λ xs. (xs, c.new.rest.now)) result (closed_at (expr_at room) c.old.rest.now) }
{
    let args = args(alloc, c, room)?;
    mark(c, Mark::CloseParen)?;
    Ok(args)
}

#[cycle(expr)]
fn args(alloc: Global, c: &mut Cursor<'_>, room: u32) -> Result<List<Expr>, Halt>
    ensures { Gives c.new.rest.now (λ xs. (xs, c.new.rest.now)) result (args_at (expr_at room) c.old.rest.now) }
{
    if is_mark(c, Mark::CloseParen) {
        return Ok(List::new(alloc));
    }
    some_args(alloc, c, room)
}

#[cycle(expr)]
fn some_args(alloc: Global, c: &mut Cursor<'_>, room: u32) -> Result<List<Expr>, Halt>
    ensures { Gives c.new.rest.now (λ xs. (xs, c.new.rest.now)) result (some_args_at (expr_at room) c.old.rest.now) }
{
    let first = expression(alloc, c, room)?;
    let mut args = List::new(alloc);
    args.push(first)?;
    more_args(alloc, c, room, args)
}

/// Further arguments, each with a comma before it, behind those that were read.
#[cycle(expr)]
pub fn more_args(
    alloc: Global,
    c: &mut Cursor<'_>,
    room: u32,
    front: List<Expr>,
) -> Result<List<Expr>, Halt>
    ensures { Gives c.new.rest.now (λ xs. (xs, c.new.rest.now)) result (with_front front (more_args_at (expr_at room) c.old.rest.now)) }
{
    let mut args = front;
    let most = c.rest.len();
    'args: for _ in 0..most {
        if !is_mark(c, Mark::Comma) {
            return Ok(args);
        }
        let next = next_arg(alloc, c, room)?;
        args.push(next)?;
    }
    Ok(args)
}

#[cycle(expr)]
fn next_arg(alloc: Global, c: &mut Cursor<'_>, room: u32) -> Result<Expr, Halt>
    ensures { Gives c.new.rest.now (λ x. (x, c.new.rest.now)) result (next_arg_at (expr_at room) c.old.rest.now) }
{
    mark(c, Mark::Comma)?;
    expression(alloc, c, room)
}

fn deep_name(alloc: Global, c: &mut Cursor<'_>, room: u32) -> Result<(u32, Name), Halt>
    ensures { Gives c.new.rest.now (λ x. (x, c.new.rest.now)) result (deep_name_at room c.old.rest.now) }
{
    if room == 0 {
        if is_name(c) {
            return Err(Halt::TooDeep);
        }
        return Err(Halt::Unexpected);
    }
    name(alloc, c)
}

/// An operation.
#[cycle(expr)]
pub fn operation(alloc: Global, c: &mut Cursor<'_>, room: u32) -> Result<Expr, Halt>
    ensures { Gives c.new.rest.now (λ x. (x, c.new.rest.now)) result
        (operation_at (expr_at room) (expr_at (room - 1)) room c.old.rest.now) }
{
    match operation_next(c) {
        Operation::Send => send(alloc, c, room),
        Operation::Recv => recv(alloc, c, room),
        Operation::Read => read(alloc, c, room),
        Operation::Write => write(alloc, c, room),
    }
}

#[cycle(expr)]
fn send(alloc: Global, c: &mut Cursor<'_>, room: u32) -> Result<Expr, Halt>
    ensures { Gives c.new.rest.now (λ x. (x, c.new.rest.now)) result (send_at (expr_at room) room c.old.rest.now) }
{
    let at = word(c, Word::Send)?;
    mark(c, Mark::OpenParen)?;
    let (_, channel) = deep_name(alloc, c, room)?;
    mark(c, Mark::Comma)?;
    let value = expression(alloc, c, room)?;
    mark(c, Mark::CloseParen)?;
    let value = Boxed::new(alloc, value)?;
    Ok(Expr::Send { at, channel, value })
}

#[cycle(expr)]
fn recv(alloc: Global, c: &mut Cursor<'_>, room: u32) -> Result<Expr, Halt>
    ensures { Gives c.new.rest.now (λ x. (x, c.new.rest.now)) result (recv_at (expr_at (room - 1)) room c.old.rest.now) }
{
    let at = word(c, Word::Recv)?;
    mark(c, Mark::OpenParen)?;
    deep_recv(alloc, c, room, at)
}

#[cycle(expr)]
fn deep_recv(alloc: Global, c: &mut Cursor<'_>, room: u32, at: u32) -> Result<Expr, Halt>
    ensures { Gives c.new.rest.now (λ x. (x, c.new.rest.now)) result (deep_recv_at (expr_at (room - 1)) at room c.old.rest.now) }
{
    if room == 0 {
        if is_name(c) {
            return Err(Halt::TooDeep);
        }
        return Err(Halt::Unexpected);
    }
    recv_rest(alloc, c, room - 1, at)
}

// What stands between the parentheses of a `Recv`, and the closing one. The room is that of what is one deeper.
#[cycle(expr)]
fn recv_rest(alloc: Global, c: &mut Cursor<'_>, room: u32, at: u32) -> Result<Expr, Halt>
    ensures { Gives c.new.rest.now (λ x. (x, c.new.rest.now)) result (recv_rest_at (expr_at room) at c.old.rest.now) }
{
    let (_, channel) = name(alloc, c)?;
    mark(c, Mark::Comma)?;
    mark(c, Mark::And)?;
    let place = place_next(alloc, c, room)?;
    mark(c, Mark::CloseParen)?;
    let place = Boxed::new(alloc, place)?;
    Ok(Expr::Recv { at, channel, place })
}

// What stands in a `Read` or a `Write` behind the file, up to the array: two expressions, each with a comma behind it.
#[cycle(expr)]
fn range(alloc: Global, c: &mut Cursor<'_>, room: u32) -> Result<(Boxed<Expr>, Boxed<Expr>), Halt>
    ensures { Gives c.new.rest.now (λ x. (x, c.new.rest.now)) result (range_at (expr_at room) c.old.rest.now) }
{
    let from = expression(alloc, c, room)?;
    mark(c, Mark::Comma)?;
    let len = expression(alloc, c, room)?;
    mark(c, Mark::Comma)?;
    let from = Boxed::new(alloc, from)?;
    let len = Boxed::new(alloc, len)?;
    Ok((from, len))
}

/// What stands between the parentheses of a `Read` or a `Write`.
#[derive(Drop)]
pub struct Transfer {
    pub file: Name,
    pub from: Boxed<Expr>,
    pub len: Boxed<Expr>,
    pub array: Name,
}

#[cycle(expr)]
fn file_transfer(alloc: Global, c: &mut Cursor<'_>, room: u32) -> Result<Transfer, Halt>
    ensures { Gives c.new.rest.now (λ x. (x, c.new.rest.now)) result (transfer_at (expr_at room) room c.old.rest.now) }
{
    mark(c, Mark::OpenParen)?;
    let (_, file) = deep_name(alloc, c, room)?;
    mark(c, Mark::Comma)?;
    let (from, len) = range(alloc, c, room)?;
    let (_, array) = name(alloc, c)?;
    mark(c, Mark::CloseParen)?;
    Ok(Transfer {
        file,
        from,
        len,
        array,
    })
}

#[cycle(expr)]
fn read(alloc: Global, c: &mut Cursor<'_>, room: u32) -> Result<Expr, Halt>
    ensures { Gives c.new.rest.now (λ x. (x, c.new.rest.now)) result (read_at (expr_at room) room c.old.rest.now) }
{
    let at = word(c, Word::Read)?;
    let Transfer {
        file,
        from,
        len,
        array,
    } = file_transfer(alloc, c, room)?;
    Ok(Expr::Read {
        at,
        file,
        from,
        len,
        array,
    })
}

#[cycle(expr)]
fn write(alloc: Global, c: &mut Cursor<'_>, room: u32) -> Result<Expr, Halt>
    ensures { Gives c.new.rest.now (λ x. (x, c.new.rest.now)) result (write_at (expr_at room) room c.old.rest.now) }
{
    let at = word(c, Word::Write)?;
    let Transfer {
        file,
        from,
        len,
        array,
    } = file_transfer(alloc, c, room)?;
    Ok(Expr::Write {
        at,
        file,
        from,
        len,
        array,
    })
}
