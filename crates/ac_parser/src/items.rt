//! The top level.

ghost use Rattle.std.specs.Prelude.{◌≡◌};
ghost use Rattle.ac_expressions.specs.Returned.{Gives};
ghost use Rattle.reading_laws.specs.inner.Tokens.{has_token};
ghost use Rattle.reading_laws.specs.Readers.{with_front};
ghost use Rattle.ac_parser.specs.inner.ReadsItems.{signed_number_at, global_value_at, global_size_at, global_plain_at, brackets_at};
ghost use Rattle.ac_parser.specs.inner.ReadsItems.{param_at, next_param_at, more_params_at, some_params_at, params_at, function_at};
ghost use Rattle.ac_parser.specs.inner.ReadsItems.{int_item_at, void_item_at, gives_at, async_item_at, channel_at, file_at, core_at};
ghost use Rattle.ac_parser.specs.inner.ReadsItems.{item_at, items_at, program_at};

use crate::forms::{ItemBegins, ParamsBegin, item_next, params_next};
use crate::statements::block;
use ac_base::{List, Name};
use ac_expressions::{Cursor, Halt, is_mark, is_word, mark, name, negated, number, text, word};
use ac_lexer::{Mark, Word};
use ac_tree::{Function, Item, Param, Program};
use std::alloc::Global;

// The room of what stands in the body block of a function: the block has depth 1, and no token is deeper than 256.
const BODY_ROOM: u32 = 255;

// ---- globals

fn signed_number(c: &mut Cursor<'_>) -> Result<i64, Halt>
    ensures { Gives c.new.rest.now (λ x. (x, c.new.rest.now)) result (signed_number_at c.old.rest.now) }
{
    if is_mark(c, Mark::Minus) {
        mark(c, Mark::Minus)?;
        return negated(c);
    }
    let (_, value) = number(c)?;
    Ok(value)
}

fn global_value(c: &mut Cursor<'_>, at: u32, name: Name) -> Result<Item, Halt>
    ensures { Gives c.new.rest.now (λ x. (x, c.new.rest.now)) result (global_value_at at name c.old.rest.now) }
{
    mark(c, Mark::Assign)?;
    let value = signed_number(c)?;
    mark(c, Mark::Semicolon)?;
    let size = None;
    Ok(Item::Global {
        at,
        name,
        size,
        value,
    })
}

fn global_size(c: &mut Cursor<'_>, at: u32, name: Name) -> Result<Item, Halt>
    ensures { Gives c.new.rest.now (λ x. (x, c.new.rest.now)) result (global_size_at at name c.old.rest.now) }
{
    mark(c, Mark::OpenBracket)?;
    let (_, size) = number(c)?;
    mark(c, Mark::CloseBracket)?;
    mark(c, Mark::Semicolon)?;
    let size = Some(size);
    Ok(Item::Global {
        at,
        name,
        size,
        value: 0,
    })
}

fn global_plain(c: &mut Cursor<'_>, at: u32, name: Name) -> Result<Item, Halt>
    ensures { Gives c.new.rest.now (λ x. (x, c.new.rest.now)) result (global_plain_at at name c.old.rest.now) }
{
    mark(c, Mark::Semicolon)?;
    let size = None;
    Ok(Item::Global {
        at,
        name,
        size,
        value: 0,
    })
}

// ---- functions

// Whether `[]` comes behind the name of a parameter.
fn brackets(c: &mut Cursor<'_>) -> Result<bool, Halt>
    ensures { Gives c.new.rest.now (λ x. (x, c.new.rest.now)) result (brackets_at c.old.rest.now) }
{
    if !is_mark(c, Mark::OpenBracket) {
        return Ok(false);
    }
    mark(c, Mark::OpenBracket)?;
    mark(c, Mark::CloseBracket)?;
    Ok(true)
}

fn param(alloc: Global, c: &mut Cursor<'_>) -> Result<Param, Halt>
    ensures { Gives c.new.rest.now (λ x. (x, c.new.rest.now)) result (param_at c.old.rest.now) }
{
    let at = word(c, Word::Int)?;
    let (_, name) = name(alloc, c)?;
    let is_array = brackets(c)?;
    Ok(Param { at, name, is_array })
}

fn next_param(alloc: Global, c: &mut Cursor<'_>) -> Result<Param, Halt>
    ensures { Gives c.new.rest.now (λ x. (x, c.new.rest.now)) result (next_param_at c.old.rest.now) }
{
    mark(c, Mark::Comma)?;
    param(alloc, c)
}

// Further parameters, each with a comma before it, behind those that were read.
fn more_params(alloc: Global, c: &mut Cursor<'_>, front: List<Param>) -> Result<List<Param>, Halt>
    ensures { Gives c.new.rest.now (λ xs. (xs, c.new.rest.now)) result (with_front front (more_params_at c.old.rest.now)) }
{
    let mut params = front;
    let most = c.rest.len();
    'params: for _ in 0..most {
        if !is_mark(c, Mark::Comma) {
            return Ok(params);
        }
        let next = next_param(alloc, c)?;
        params.push(next)?;
    }
    Ok(params)
}

fn some_params(alloc: Global, c: &mut Cursor<'_>) -> Result<List<Param>, Halt>
    ensures { Gives c.new.rest.now (λ xs. (xs, c.new.rest.now)) result (some_params_at c.old.rest.now) }
{
    let first = param(alloc, c)?;
    let mut params = List::new(alloc);
    params.push(first)?;
    more_params(alloc, c, params)
}

fn params(alloc: Global, c: &mut Cursor<'_>) -> Result<List<Param>, Halt>
    ensures { Gives c.new.rest.now (λ xs. (xs, c.new.rest.now)) result (params_at c.old.rest.now) }
{
    match params_next(c) {
        ParamsBegin::Void => {
            word(c, Word::Void)?;
            Ok(List::new(alloc))
        }
        ParamsBegin::Int => some_params(alloc, c),
        ParamsBegin::Other => Ok(List::new(alloc)),
    }
}

// A function behind its name.
fn function(
    alloc: Global,
    c: &mut Cursor<'_>,
    at: u32,
    is_async: bool,
    gives_int: bool,
    name: Name,
) -> Result<Item, Halt>
    ensures { Gives c.new.rest.now (λ x. (x, c.new.rest.now)) result (function_at at is_async gives_int name c.old.rest.now) }
{
    mark(c, Mark::OpenParen)?;
    let params = params(alloc, c)?;
    mark(c, Mark::CloseParen)?;
    let (_, body) = block(alloc, c, BODY_ROOM)?;
    Ok(Item::Function(Function {
        at,
        is_async,
        gives_int,
        name,
        params,
        body,
    }))
}

fn int_item(alloc: Global, c: &mut Cursor<'_>) -> Result<Item, Halt>
    ensures { Gives c.new.rest.now (λ x. (x, c.new.rest.now)) result (int_item_at c.old.rest.now) }
{
    let at = word(c, Word::Int)?;
    let (_, name) = name(alloc, c)?;
    if is_mark(c, Mark::Assign) {
        return global_value(c, at, name);
    }
    if is_mark(c, Mark::OpenBracket) {
        return global_size(c, at, name);
    }
    if is_mark(c, Mark::OpenParen) {
        return function(alloc, c, at, false, true, name);
    }
    global_plain(c, at, name)
}

fn void_item(alloc: Global, c: &mut Cursor<'_>) -> Result<Item, Halt>
    ensures { Gives c.new.rest.now (λ x. (x, c.new.rest.now)) result (void_item_at c.old.rest.now) }
{
    let at = word(c, Word::Void)?;
    let (_, name) = name(alloc, c)?;
    function(alloc, c, at, false, false, name)
}

// Whether the function gives an int.
fn gives(c: &mut Cursor<'_>) -> Result<bool, Halt>
    ensures { Gives c.new.rest.now (λ x. (x, c.new.rest.now)) result (gives_at c.old.rest.now) }
{
    if is_word(c, Word::Int) {
        word(c, Word::Int)?;
        return Ok(true);
    }
    word(c, Word::Void)?;
    Ok(false)
}

fn async_item(alloc: Global, c: &mut Cursor<'_>) -> Result<Item, Halt>
    ensures { Gives c.new.rest.now (λ x. (x, c.new.rest.now)) result (async_item_at c.old.rest.now) }
{
    let at = word(c, Word::Async)?;
    let gives_int = gives(c)?;
    let (_, name) = name(alloc, c)?;
    function(alloc, c, at, true, gives_int, name)
}

// ---- channels, files and cores

fn channel(alloc: Global, c: &mut Cursor<'_>) -> Result<Item, Halt>
    ensures { Gives c.new.rest.now (λ x. (x, c.new.rest.now)) result (channel_at c.old.rest.now) }
{
    let at = word(c, Word::Channel)?;
    let (_, channel_name) = name(alloc, c)?;
    mark(c, Mark::OpenParen)?;
    let (_, from) = name(alloc, c)?;
    mark(c, Mark::Comma)?;
    let (_, to) = name(alloc, c)?;
    mark(c, Mark::Comma)?;
    let (_, cap) = number(c)?;
    mark(c, Mark::CloseParen)?;
    mark(c, Mark::Semicolon)?;
    Ok(Item::Channel {
        at,
        name: channel_name,
        from,
        to,
        cap,
    })
}

fn file(alloc: Global, c: &mut Cursor<'_>) -> Result<Item, Halt>
    ensures { Gives c.new.rest.now (λ x. (x, c.new.rest.now)) result (file_at c.old.rest.now) }
{
    let at = word(c, Word::File)?;
    let (_, name) = name(alloc, c)?;
    mark(c, Mark::OpenParen)?;
    let path = text(alloc, c)?;
    mark(c, Mark::CloseParen)?;
    mark(c, Mark::Semicolon)?;
    Ok(Item::File { at, name, path })
}

fn core_item(alloc: Global, c: &mut Cursor<'_>) -> Result<Item, Halt>
    ensures { Gives c.new.rest.now (λ x. (x, c.new.rest.now)) result (core_at c.old.rest.now) }
{
    let at = word(c, Word::Core)?;
    let (_, core_name) = name(alloc, c)?;
    mark(c, Mark::OpenParen)?;
    let (_, entry) = name(alloc, c)?;
    mark(c, Mark::CloseParen)?;
    mark(c, Mark::Semicolon)?;
    Ok(Item::Core {
        at,
        name: core_name,
        entry,
    })
}

// ---- the program

#[tactic(auto, unfolding(crate::specs::inner::ReadsItems::item_at))]
fn item(alloc: Global, c: &mut Cursor<'_>) -> Result<Item, Halt>
    ensures { Gives c.new.rest.now (λ x. (x, c.new.rest.now)) result (item_at c.old.rest.now) }
{
    match item_next(c) {
        ItemBegins::Int => int_item(alloc, c),
        ItemBegins::Void => void_item(alloc, c),
        ItemBegins::Async => async_item(alloc, c),
        ItemBegins::Channel => channel(alloc, c),
        ItemBegins::File => file(alloc, c),
        ItemBegins::Core => core_item(alloc, c),
        ItemBegins::Other => Err(Halt::Unexpected),
    }
}

fn is_more(c: &Cursor<'_>) -> bool
    ensures { result ≡ has_token c.now.rest.now }
{
    match c.rest {
        [] => false,
        [_, ..] => true,
    }
}

fn items(alloc: Global, c: &mut Cursor<'_>) -> Result<List<Item>, Halt>
    ensures { Gives c.new.rest.now (λ xs. (xs, c.new.rest.now)) result (items_at c.old.rest.now) }
{
    let mut items = List::new(alloc);
    let most = c.rest.len();
    'items: for _ in 0..most {
        if !is_more(c) {
            return Ok(items);
        }
        let next = item(alloc, c)?;
        items.push(next)?;
    }
    Ok(items)
}

/// Items up to the end of the tokens.
#[tactic(auto, unfolding(crate::specs::inner::ReadsItems::program_at))]
pub fn program(alloc: Global, c: &mut Cursor<'_>) -> Result<Program, Halt>
    ensures { Gives c.new.rest.now (λ x. (x, c.new.rest.now)) result (program_at c.old.rest.now) }
{
    let items = items(alloc, c)?;
    if is_more(c) {
        return Err(Halt::Unexpected);
    }
    Ok(Program { items })
}
