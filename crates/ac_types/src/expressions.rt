//! The rules that expressions break.

ghost use Rattle.std.specs.Prelude.{◌≡◌, ◌<◌, ◌^◌, length, OnOk};
ghost use Rattle.ac_types.specs.Around.{position_of};
ghost use Rattle.ac_types.specs.Expressions.{number_of};
ghost use Rattle.ac_types.specs.inner.Seen.{expr_seen, links_seen, args_seen, values_seen, value_seen};
ghost use Rattle.ac_names.specs.Scopes.{visible};

use crate::around::{Around, Position};
use crate::carried::{carried_on, is_unlike, length_named};
use crate::judged::{
    judge_call, judge_file, judge_index, judge_name, judge_recv, judge_send, judge_value,
};
use crate::numbered::{Callee, Tables};
use crate::seen::Seen;
use ac_base::NoMemory;
use ac_names::{Meaning, Scopes};
use ac_tree::{Expr, Link};

fn position_of(is_array: bool) -> Position
    ensures { result ≡ position_of is_array }
{
    if is_array {
        Position::Array
    } else {
        Position::Value
    }
}

fn number_of(callee: Option<Callee>) -> Option<u32>
    ensures { result ≡ number_of callee }
{
    match callee {
        None => None,
        Some(callee) => Some(callee.number),
    }
}

/// Sees the nodes of an expression in these scopes.
#[cycle(expr)]
pub fn see_expr(
    seen: &mut Seen,
    tables: &Tables,
    scopes: &Scopes,
    around: Around,
    position: Position,
    expr: &Expr,
) -> Result<(), NoMemory>
    ensures { OnOk result (seen.new ≡ expr_seen expr.now tables.now scopes.now around position seen.old) }
{
    match expr {
        Expr::Number { at, value: _ } => seen.note(*at, judge_value(position), None, None),
        Expr::Const { at, which: _ } => seen.note(*at, judge_value(position), None, None),
        Expr::Name { at, name } => {
            seen.note(*at, judge_name(scopes.find(name), position), None, None)
        }
        Expr::Index { at, name, index } => {
            seen.note(*at, judge_index(scopes.find(name), position), None, None)?;
            see_expr(seen, tables, scopes, around, Position::Value, index.get())
        }
        Expr::Group { at, inner } => {
            seen.note(*at, judge_value(position), None, None)?;
            see_expr(seen, tables, scopes, around, Position::Value, inner.get())
        }
        Expr::Unary { at, op: _, inner } => {
            seen.note(*at, judge_value(position), None, None)?;
            see_expr(seen, tables, scopes, around, Position::Value, inner.get())
        }
        Expr::Chain {
            at,
            level: _,
            first,
            rest,
        } => {
            seen.note(*at, judge_value(position), None, None)?;
            see_expr(seen, tables, scopes, around, Position::Value, first.get())?;
            see_links(seen, tables, scopes, around, rest.as_slice())
        }
        Expr::Call { at, name, args } => {
            let meaning = scopes.find(name);
            let callee = tables.callee(meaning);
            let rule = judge_call(meaning, callee, args.len(), around, position);
            seen.note(*at, rule, number_of(callee), None)?;
            see_args(seen, tables, scopes, around, meaning, args.as_slice())
        }
        Expr::Send { at, channel, value } => {
            let meaning = scopes.find(channel);
            let len = length_named(scopes, value.get());
            let unlike = is_unlike(len, tables.width(meaning));
            let rule = judge_send(meaning, unlike, tables.ends(meaning), around, position);
            seen.note(*at, rule, None, carried_on(meaning, len))?;
            see_expr(seen, tables, scopes, around, Position::Message, value.get())
        }
        Expr::Recv { at, channel, place } => {
            let meaning = scopes.find(channel);
            let len = length_named(scopes, place.get());
            let unlike = is_unlike(len, tables.width(meaning));
            let rule = judge_recv(meaning, unlike, tables.ends(meaning), around, position);
            seen.note(*at, rule, None, carried_on(meaning, len))?;
            see_expr(seen, tables, scopes, around, Position::Message, place.get())
        }
        Expr::Read {
            at,
            file,
            from,
            len,
            array,
        } => {
            let rule = judge_file(scopes.find(file), scopes.find(array), around, position);
            seen.note(*at, rule, None, None)?;
            see_expr(seen, tables, scopes, around, Position::Value, from.get())?;
            see_expr(seen, tables, scopes, around, Position::Value, len.get())
        }
        Expr::Write {
            at,
            file,
            from,
            len,
            array,
        } => {
            let rule = judge_file(scopes.find(file), scopes.find(array), around, position);
            seen.note(*at, rule, None, None)?;
            see_expr(seen, tables, scopes, around, Position::Value, from.get())?;
            see_expr(seen, tables, scopes, around, Position::Value, len.get())
        }
    }
}

/// Sees the nodes of the operands of links.
#[cycle(expr)]
fn see_links(
    seen: &mut Seen,
    tables: &Tables,
    scopes: &Scopes,
    around: Around,
    links: &[Link],
) -> Result<(), NoMemory>
    ensures { OnOk result (seen.new ≡ links_seen links.now tables.now scopes.now around seen.old) }
{
    for link in links {
        see_expr(seen, tables, scopes, around, Position::Value, &link.operand)?;
    }
    Ok(())
}

/// Sees the nodes of the arguments of a call of what its name means.
#[cycle(expr)]
fn see_args(
    seen: &mut Seen,
    tables: &Tables,
    scopes: &Scopes,
    around: Around,
    meaning: Option<Meaning>,
    args: &[Expr],
) -> Result<(), NoMemory>
    ensures { OnOk result (seen.new ≡ args_seen meaning 0 args.now tables.now scopes.now around seen.old) }
{
    for (number, arg) in args.iter().enumerate() {
        let position = position_of(tables.takes_array(meaning, number as u64));
        see_expr(seen, tables, scopes, around, position, arg)?;
    }
    Ok(())
}

/// Sees the nodes of expressions whose values are used.
pub fn see_values(
    seen: &mut Seen,
    tables: &Tables,
    scopes: &Scopes,
    around: Around,
    values: &[Expr],
) -> Result<(), NoMemory>
    ensures { OnOk result (seen.new ≡ values_seen values.now tables.now scopes.now around seen.old) }
{
    for value in values {
        see_expr(seen, tables, scopes, around, Position::Value, value)?;
    }
    Ok(())
}

/// Sees the nodes of an expression whose value is used, where there is one.
pub fn see_value(
    seen: &mut Seen,
    tables: &Tables,
    scopes: &Scopes,
    around: Around,
    value: &Option<Expr>,
) -> Result<(), NoMemory>
    ensures { OnOk result (seen.new ≡ value_seen value.now tables.now scopes.now around seen.old) }
{
    match value {
        None => Ok(()),
        Some(value) => see_expr(seen, tables, scopes, around, Position::Value, value),
    }
}
