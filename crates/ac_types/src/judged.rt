//! The least rule that a node breaks, by its form.

ghost use Rattle.std.specs.Prelude.{◌≡◌, false};
ghost use Rattle.ac_types.specs.Around.{is_array_position, is_used, is_closed, is_reached_by_another};
ghost use Rattle.ac_types.specs.Judged.{lacks_one, value_tests, is_misplaced, name_tests, index_tests, is_miscounted};
ghost use Rattle.ac_types.specs.Judged.{calls_async, uses_void, call_tests, sends_away, takes_away, channel_tests};
ghost use Rattle.ac_types.specs.Judged.{file_tests, once_tests, is_size, array_tests, holes, is_misprinted};
ghost use Rattle.ac_types.specs.Judged.{print_tests, leave_tests, return_tests, async_tests, body_tests, cancel_tests};
ghost use Rattle.ac_names.specs.Kinds.{is_undeclared, is_declared};
ghost use Rattle.ac_types.specs.inner.Seen.{least_broken};

use crate::around::{Around, Position};
use crate::numbered::{Callee, Ends};
use crate::rule::Rule;
use crate::seen::least;
use ac_names::{Meaning, NameKind, is_other};
use ac_reach::Reached;

fn is_array(position: Position) -> bool
    ensures { result ≡ is_array_position position }
{
    match position {
        Position::Array => true,
        _ => false,
    }
}

fn is_used(position: Position) -> bool
    ensures { result ≡ is_used position }
{
    match position {
        Position::Statement => false,
        _ => true,
    }
}

/// Whether a name means nothing.
pub fn is_undeclared(meaning: Option<Meaning>) -> bool
    ensures { result ≡ is_undeclared meaning }
{
    meaning.is_none()
}

/// Whether a name means something.
pub fn is_declared(meaning: Option<Meaning>) -> bool
    ensures { result ≡ is_declared meaning }
{
    meaning.is_some()
}

/// Whether one of two names means nothing.
pub fn lacks_one(one: Option<Meaning>, other: Option<Meaning>) -> bool
    ensures { result ≡ lacks_one one other }
{
    is_undeclared(one) || is_undeclared(other)
}

/// What is no name.
pub fn judge_value(position: Position) -> Option<Rule>
    ensures { result ≡ least_broken (value_tests position) }
{
    least(Rule::NameFitsItsPlace, is_array(position), None)
}

fn is_misplaced(meaning: Option<Meaning>, position: Position) -> bool
    ensures { result ≡ is_misplaced meaning position }
{
    match position {
        Position::Array => is_other(NameKind::Array, meaning),
        Position::Message => {
            is_other(NameKind::Int, meaning) && is_other(NameKind::Array, meaning)
        }
        _ => is_other(NameKind::Int, meaning),
    }
}

/// A name.
pub fn judge_name(meaning: Option<Meaning>, position: Position) -> Option<Rule>
    ensures { result ≡ least_broken (name_tests meaning position) }
{
    let is_unfit = is_misplaced(meaning, position);
    let rest = least(Rule::NameFitsItsPlace, is_unfit, None);
    least(Rule::NameIsDeclared, is_undeclared(meaning), rest)
}

/// An element of an array.
pub fn judge_index(meaning: Option<Meaning>, position: Position) -> Option<Rule>
    ensures { result ≡ least_broken (index_tests meaning position) }
{
    let is_wrong = is_other(NameKind::Array, meaning) || is_array(position);
    let rest = least(Rule::NameFitsItsPlace, is_wrong, None);
    least(Rule::NameIsDeclared, is_undeclared(meaning), rest)
}

fn is_miscounted(callee: Option<Callee>, args: u64) -> bool
    ensures { result ≡ is_miscounted callee args }
{
    match callee {
        None => false,
        Some(callee) => callee.params != args,
    }
}

fn calls_async(callee: Option<Callee>, around: Around) -> bool
    ensures { result ≡ calls_async callee around }
{
    match callee {
        None => false,
        Some(callee) => callee.is_async && !around.is_async,
    }
}

fn uses_void(callee: Option<Callee>, position: Position) -> bool
    ensures { result ≡ uses_void callee position }
{
    match callee {
        None => false,
        Some(callee) => !callee.gives_int && is_used(position),
    }
}

/// A call of what its name means, with that many arguments.
pub fn judge_call(
    meaning: Option<Meaning>,
    callee: Option<Callee>,
    args: u64,
    around: Around,
    position: Position,
) -> Option<Rule>
    ensures { result ≡ least_broken (call_tests meaning callee args around position) }
{
    let is_wrong = is_other(NameKind::Function, meaning) || is_array(position);
    let rest = least(Rule::ValueFitsFunction, uses_void(callee, position), None);
    let rest = least(
        Rule::AsyncIsCalledInAsync,
        calls_async(callee, around),
        rest,
    );
    let rest = least(Rule::NameFitsItsPlace, is_wrong, rest);
    let rest = least(
        Rule::ArgumentsMatchParameters,
        is_miscounted(callee, args),
        rest,
    );
    least(Rule::NameIsDeclared, is_undeclared(meaning), rest)
}

fn is_reached_by_another(reached: Reached, core: Option<u32>) -> bool
    ensures { result ≡ is_reached_by_another reached core }
{
    match reached {
        Reached::ByNone => false,
        Reached::ByOne(one) => match core {
            None => true,
            Some(core) => one != core,
        },
        Reached::BySeveral => true,
    }
}

fn sends_away(reached: Reached, ends: Option<Ends>) -> bool
    ensures { result ≡ sends_away reached ends }
{
    match ends {
        None => false,
        Some(ends) => is_reached_by_another(reached, ends.from),
    }
}

fn takes_away(reached: Reached, ends: Option<Ends>) -> bool
    ensures { result ≡ takes_away reached ends }
{
    match ends {
        None => false,
        Some(ends) => is_reached_by_another(reached, ends.to),
    }
}

fn judge_channel(
    meaning: Option<Meaning>,
    unlike: bool,
    is_away: bool,
    around: Around,
    position: Position,
) -> Option<Rule>
    ensures { result ≡ least_broken (channel_tests meaning unlike is_away around position) }
{
    let is_unfit = unlike || is_array(position);
    let is_wrong = is_other(NameKind::Channel, meaning) || is_unfit;
    let rest = least(Rule::OnlyItsEndUsesChannel, is_away, None);
    let rest = least(Rule::StandsInAsyncFunction, !around.is_async, rest);
    let rest = least(Rule::NameFitsItsPlace, is_wrong, rest);
    least(Rule::NameIsDeclared, is_undeclared(meaning), rest)
}

/// A Send, by whether it names another number of ints than a message of its channel has.
pub fn judge_send(
    meaning: Option<Meaning>,
    unlike: bool,
    ends: Option<Ends>,
    around: Around,
    position: Position,
) -> Option<Rule>
    ensures { result ≡ least_broken (channel_tests meaning unlike (sends_away around.reached ends) around position) }
{
    let is_away = sends_away(around.reached, ends);
    judge_channel(meaning, unlike, is_away, around, position)
}

/// A Recv, likewise.
pub fn judge_recv(
    meaning: Option<Meaning>,
    unlike: bool,
    ends: Option<Ends>,
    around: Around,
    position: Position,
) -> Option<Rule>
    ensures { result ≡ least_broken (channel_tests meaning unlike (takes_away around.reached ends) around position) }
{
    let is_away = takes_away(around.reached, ends);
    judge_channel(meaning, unlike, is_away, around, position)
}

/// A Read or a Write.
pub fn judge_file(
    file: Option<Meaning>,
    array: Option<Meaning>,
    around: Around,
    position: Position,
) -> Option<Rule>
    ensures { result ≡ least_broken (file_tests file array around position) }
{
    let is_unknown = lacks_one(file, array);
    let is_unfit = is_other(NameKind::File, file) || is_other(NameKind::Array, array);
    let is_wrong = (!is_unknown && is_unfit) || is_array(position);
    let rest = least(Rule::StandsInAsyncFunction, !around.is_async, None);
    let rest = least(Rule::NameFitsItsPlace, is_wrong, rest);
    least(Rule::NameIsDeclared, is_unknown, rest)
}

/// A declaration, by what its name means in its scope before it.
pub fn judge_once(before: Option<Meaning>) -> Option<Rule>
    ensures { result ≡ least_broken (once_tests before) }
{
    least(Rule::DeclaredOnce, is_declared(before), None)
}

/// Whether an array may have that many elements.
pub fn is_size(size: i64) -> bool
    ensures { result ≡ is_size size }
{
    1 <= size && size <= 4096
}

/// A declaration of an array, by what its name means in its scope before it.
pub fn judge_array(before: Option<Meaning>, size: i64) -> Option<Rule>
    ensures { result ≡ least_broken (array_tests before size) }
{
    let rest = least(Rule::ArraySizeIsAllowed, !is_size(size), None);
    least(Rule::DeclaredOnce, is_declared(before), rest)
}

// The number of `%d` and `%c` of a format. None where a `%` begins nothing.
fn holes(format: &[u8]) -> Option<u64>
    ensures { result ≡ holes false 0 format.now }
{
    let mut is_open = false;
    let mut count = 0;
    for byte in format {
        match (is_open, *byte) {
            (false, b'%') => is_open = true,
            (false, _) => {}
            (true, b'd' | b'c') => {
                is_open = false;
                count += 1;
            }
            (true, b'%') => is_open = false,
            (true, _) => return None,
        }
    }
    if is_open { None } else { Some(count) }
}

fn is_misprinted(count: Option<u64>, args: u64) -> bool
    ensures { result ≡ is_misprinted count args }
{
    match count {
        None => true,
        Some(count) => count != args,
    }
}

/// A print of a format with that many arguments.
pub fn judge_print(format: &[u8], args: u64) -> Option<Rule>
    ensures { result ≡ least_broken (print_tests format.now args) }
{
    let is_wrong = is_misprinted(holes(format), args);
    least(Rule::FormatFitsArguments, is_wrong, None)
}

/// A `break` or a `continue`.
pub fn judge_leave(around: Around) -> Option<Rule>
    ensures { result ≡ least_broken (leave_tests around) }
{
    least(Rule::JumpStaysInside, !around.in_loop, None)
}

/// A `return`, by whether it has an operand.
pub fn judge_return(around: Around, gives: bool) -> Option<Rule>
    ensures { result ≡ least_broken (return_tests around gives) }
{
    let is_closed = around.in_do || around.depth > 0;
    let differs = around.gives_int != gives;
    let rest = least(Rule::ValueFitsFunction, differs, None);
    least(Rule::JumpStaysInside, is_closed, rest)
}

/// A `do` or a `yield`.
pub fn judge_async(around: Around) -> Option<Rule>
    ensures { result ≡ least_broken (async_tests around) }
{
    least(Rule::StandsInAsyncFunction, !around.is_async, None)
}

/// An `async`.
pub fn judge_body(around: Around) -> Option<Rule>
    ensures { result ≡ least_broken (body_tests around) }
{
    let rest = least(Rule::AsyncStandsInDo, !around.in_do, None);
    least(Rule::StandsInAsyncFunction, !around.is_async, rest)
}

/// A `cancel`, by what its label means.
pub fn judge_cancel(label: Option<Meaning>, around: Around) -> Option<Rule>
    ensures { result ≡ least_broken (cancel_tests label around) }
{
    let rest = least(Rule::CancelStandsInItsDo, is_undeclared(label), None);
    least(Rule::StandsInAsyncFunction, !around.is_async, rest)
}
