//! Expressions without their names.

ghost use Rattle.std.specs.Prelude.{◌≡◌, [], ◌∷◌, IfOk};
ghost use Rattle.ac_commands.specs.declared.command.Target.TheVariants as t;
ghost use Rattle.ac_commands.specs.declared.value.Place.TheVariants as p;
ghost use Rattle.ac_commands.specs.declared.value.Value.TheVariants as v;
ghost use Rattle.ac_resolve.specs.Places.{reference_to};
ghost use Rattle.ac_resolve.specs.Computed.{value_in, links_in, values_in, some_in, initial_in};
ghost use Rattle.ac_resolve.specs.Computed.{argument_in, arguments_in, target_in, place_in};

use crate::names::{
    array_at, array_of, channel_of, constant_value, file_of, function_of, name_argument, place_of,
    received_in,
};
use ac_base::{Boxed, List, NoMemory};
use ac_commands::{Action, Array, Place, Target, Value, ValueLink};
use ac_names::Scopes;
use ac_tree::{Expr, Link};
use std::alloc::Global;

/// The value of an expression in these scopes, with so many async bodies round it.
#[cycle(value)]
pub fn value_in(alloc: Global, scopes: &Scopes, depth: u32, expr: &Expr) -> Result<Value, NoMemory>
    ensures { IfOk result (λ v. v ≡ value_in expr.now scopes.now depth) }
{
    match expr {
        Expr::Number { at: _, value } => Ok(Value::Number(*value)),
        Expr::Const { at: _, which } => Ok(Value::Number(constant_value(*which))),
        Expr::Name { at: _, name } => Ok(Value::Variable(place_of(scopes.find(name), depth))),
        Expr::Index { at: _, name, index } => {
            let index = boxed_in(alloc, scopes, depth, index.get())?;
            Ok(Value::Element {
                array: array_of(scopes.find(name), depth),
                index,
            })
        }
        Expr::Group { at: _, inner } => value_in(alloc, scopes, depth, inner.get()),
        Expr::Unary { at: _, op, inner } => {
            let operand = boxed_in(alloc, scopes, depth, inner.get())?;
            Ok(Value::Unary { op: *op, operand })
        }
        Expr::Chain {
            at: _,
            level: _,
            first,
            rest,
        } => {
            let first = boxed_in(alloc, scopes, depth, first.get())?;
            let rest = links_in(alloc, scopes, depth, rest.as_slice())?;
            Ok(Value::Chain { first, rest })
        }
        Expr::Call { at: _, name, args } => {
            let function = function_of(scopes.find(name));
            let operands = arguments_in(alloc, scopes, depth, args.as_slice())?;
            Ok(Value::Act {
                action: Action::Call { function },
                operands,
            })
        }
        Expr::Send {
            at: _,
            channel,
            value,
        } => {
            let channel = channel_of(scopes.find(channel));
            let value = argument_in(alloc, scopes, depth, value.get())?;
            act_on(alloc, Action::Send { channel }, value)
        }
        Expr::Recv {
            at: _,
            channel,
            place,
        } => {
            let channel = channel_of(scopes.find(channel));
            let place = place_in(alloc, scopes, depth, place.get())?;
            act_on(alloc, Action::Recv { channel }, place)
        }
        Expr::Read {
            at: _,
            file,
            from,
            len,
            array,
        } => {
            let action = Action::Read {
                file: file_of(scopes.find(file)),
            };
            let array = array_of(scopes.find(array), depth);
            let from = value_in(alloc, scopes, depth, from.get())?;
            let len = value_in(alloc, scopes, depth, len.get())?;
            act_in_file(alloc, action, from, len, array)
        }
        Expr::Write {
            at: _,
            file,
            from,
            len,
            array,
        } => {
            let action = Action::Write {
                file: file_of(scopes.find(file)),
            };
            let array = array_of(scopes.find(array), depth);
            let from = value_in(alloc, scopes, depth, from.get())?;
            let len = value_in(alloc, scopes, depth, len.get())?;
            act_in_file(alloc, action, from, len, array)
        }
    }
}

/// An operation with one operand.
fn act_on(alloc: Global, action: Action, operand: Value) -> Result<Value, NoMemory>
    ensures { IfOk result (λ value. value ≡ v.Act action (operand ∷ [])) }
{
    let mut operands = List::new(alloc);
    operands.push(operand)?;
    Ok(Value::Act { action, operands })
}

/// A Read or a Write, with the place in the file, the length and the array.
fn act_in_file(
    alloc: Global,
    action: Action,
    from: Value,
    len: Value,
    array: Array,
) -> Result<Value, NoMemory>
    ensures { IfOk result (λ value. value ≡ v.Act action (from ∷ len ∷ v.Reference array ∷ [])) }
{
    let mut operands = List::new(alloc);
    operands.push(from)?;
    operands.push(len)?;
    operands.push(Value::Reference(array))?;
    Ok(Value::Act { action, operands })
}

/// A reference to the one int that is a target.
fn reference_to(alloc: Global, target: Target) -> Result<Value, NoMemory>
    ensures { IfOk result (λ v. v ≡ reference_to target) }
{
    match target {
        Target::Variable(place) => Ok(Value::Reference(array_at(place))),
        Target::Element { array, index } => {
            let index = Boxed::new(alloc, index)?;
            Ok(Value::Part { array, index })
        }
    }
}

/// A reference to the ints in which the message of a Recv is stored.
#[cycle(value)]
fn place_in(alloc: Global, scopes: &Scopes, depth: u32, expr: &Expr) -> Result<Value, NoMemory>
    ensures { IfOk result (λ v. v ≡ place_in expr.now scopes.now depth) }
{
    match expr {
        Expr::Name { at: _, name } => {
            Ok(Value::Reference(received_in(scopes.find(name), depth)))
        }
        _ => {
            let target = target_in(alloc, scopes, depth, expr)?;
            reference_to(alloc, target)
        }
    }
}

/// An argument of a call, or what is sent: a reference, where it is the name of an array.
#[cycle(value)]
fn argument_in(alloc: Global, scopes: &Scopes, depth: u32, expr: &Expr) -> Result<Value, NoMemory>
    ensures { IfOk result (λ a. a ≡ argument_in expr.now scopes.now depth) }
{
    match expr {
        Expr::Name { at: _, name } => Ok(name_argument(scopes.find(name), depth)),
        Expr::Number { .. } => value_in(alloc, scopes, depth, expr),
        Expr::Const { .. } => value_in(alloc, scopes, depth, expr),
        Expr::Index { .. } => value_in(alloc, scopes, depth, expr),
        Expr::Group { .. } => value_in(alloc, scopes, depth, expr),
        Expr::Unary { .. } => value_in(alloc, scopes, depth, expr),
        Expr::Chain { .. } => value_in(alloc, scopes, depth, expr),
        Expr::Call { .. } => value_in(alloc, scopes, depth, expr),
        Expr::Send { .. } => value_in(alloc, scopes, depth, expr),
        Expr::Recv { .. } => value_in(alloc, scopes, depth, expr),
        Expr::Read { .. } => value_in(alloc, scopes, depth, expr),
        Expr::Write { .. } => value_in(alloc, scopes, depth, expr),
    }
}

#[cycle(value)]
fn arguments_in(
    alloc: Global,
    scopes: &Scopes,
    depth: u32,
    exprs: &[Expr],
) -> Result<List<Value>, NoMemory>
    ensures { IfOk result (λ list. list ≡ arguments_in exprs.now scopes.now depth) }
{
    let mut list = List::new(alloc);
    for expr in exprs {
        list.push(argument_in(alloc, scopes, depth, expr)?)?;
    }
    Ok(list)
}

#[cycle(value)]
fn boxed_in(
    alloc: Global,
    scopes: &Scopes,
    depth: u32,
    expr: &Expr,
) -> Result<Boxed<Value>, NoMemory>
    ensures { IfOk result (λ v. v ≡ value_in expr.now scopes.now depth) }
{
    Boxed::new(alloc, value_in(alloc, scopes, depth, expr)?)
}

#[cycle(value)]
fn links_in(
    alloc: Global,
    scopes: &Scopes,
    depth: u32,
    links: &[Link],
) -> Result<List<ValueLink>, NoMemory>
    ensures { IfOk result (λ list. list ≡ links_in links.now scopes.now depth) }
{
    let mut list = List::new(alloc);
    for link in links {
        let operand = value_in(alloc, scopes, depth, &link.operand)?;
        list.push(ValueLink {
            op: link.op,
            operand,
        })?;
    }
    Ok(list)
}

/// The values of expressions.
pub fn values_in(
    alloc: Global,
    scopes: &Scopes,
    depth: u32,
    exprs: &[Expr],
) -> Result<List<Value>, NoMemory>
    ensures { IfOk result (λ list. list ≡ values_in exprs.now scopes.now depth) }
{
    let mut list = List::new(alloc);
    for expr in exprs {
        list.push(value_in(alloc, scopes, depth, expr)?)?;
    }
    Ok(list)
}

fn no_target() -> Target
    ensures { result ≡ t.Variable (p.Global 0) }
{
    Target::Variable(Place::Global { slot: 0 })
}

/// The target that an expression is.
#[cycle(value)]
pub fn target_in(
    alloc: Global,
    scopes: &Scopes,
    depth: u32,
    expr: &Expr,
) -> Result<Target, NoMemory>
    ensures { IfOk result (λ t. t ≡ target_in expr.now scopes.now depth) }
{
    match expr {
        Expr::Name { at: _, name } => Ok(Target::Variable(place_of(scopes.find(name), depth))),
        Expr::Index { at: _, name, index } => {
            let index = value_in(alloc, scopes, depth, index.get())?;
            Ok(Target::Element {
                array: array_of(scopes.find(name), depth),
                index,
            })
        }
        Expr::Number { .. } => Ok(no_target()),
        Expr::Const { .. } => Ok(no_target()),
        Expr::Group { .. } => Ok(no_target()),
        Expr::Unary { .. } => Ok(no_target()),
        Expr::Chain { .. } => Ok(no_target()),
        Expr::Call { .. } => Ok(no_target()),
        Expr::Send { .. } => Ok(no_target()),
        Expr::Recv { .. } => Ok(no_target()),
        Expr::Read { .. } => Ok(no_target()),
        Expr::Write { .. } => Ok(no_target()),
    }
}

/// The value of an expression that may be left out.
pub fn some_in(
    alloc: Global,
    scopes: &Scopes,
    depth: u32,
    expr: &Option<Expr>,
) -> Result<Option<Value>, NoMemory>
    ensures { IfOk result (λ v. v ≡ some_in expr.now scopes.now depth) }
{
    match expr {
        None => Ok(None),
        Some(expr) => Ok(Some(value_in(alloc, scopes, depth, expr)?)),
    }
}

/// The value with which a variable starts.
pub fn initial_in(
    alloc: Global,
    scopes: &Scopes,
    depth: u32,
    value: &Option<Expr>,
) -> Result<Value, NoMemory>
    ensures { IfOk result (λ v. v ≡ initial_in value.now scopes.now depth) }
{
    match value {
        None => Ok(Value::Number(0)),
        Some(expr) => value_in(alloc, scopes, depth, expr),
    }
}
