//! What a name stands for, by what it means and by the number of async bodies round its use.

ghost use Rattle.std.specs.Prelude.{◌≡◌, ◌-◌};
ghost use Rattle.ac_resolve.specs.Places.{constant_value, place_of, array_of, name_argument, array_at, received_in};
ghost use Rattle.ac_resolve.specs.Places.{cancel_of, function_of, channel_of, file_of, core_of};

use ac_commands::{Array, Command, Place, Value};
use ac_names::Meaning;
use ac_tree::Constant;

/// The number of a named result.
pub fn constant_value(which: Constant) -> i64
    ensures { result ≡ constant_value which }
{
    match which {
        Constant::Ok => 0,
        Constant::Cancelled => -1,
        Constant::Fault => -2,
    }
}

fn level(here: u32, there: u32) -> u32
    ensures { result ≡ here - there }
{
    if there <= here { here - there } else { 0 }
}

/// Where an int variable is.
pub fn place_of(meaning: Option<Meaning>, depth: u32) -> Place
    ensures { result ≡ place_of meaning depth }
{
    match meaning {
        Some(Meaning::Global(slot)) => Place::Global { slot },
        Some(Meaning::Local { depth: there, slot }) => Place::Local {
            level: level(depth, there),
            slot,
        },
        _ => Place::Global { slot: 0 },
    }
}

/// Where an array is.
pub fn array_of(meaning: Option<Meaning>, depth: u32) -> Array
    ensures { result ≡ array_of meaning depth }
{
    match meaning {
        Some(Meaning::GlobalArray { slot, len }) => Array::Global { slot, len },
        Some(
            Meaning::LocalArray {
                depth: there,
                slot,
                len,
            },
        ) => Array::Local {
            level: level(depth, there),
            slot,
            len,
        },
        Some(Meaning::ArrayParam(slot)) => Array::Param { level: depth, slot },
        _ => Array::Global { slot: 0, len: 0 },
    }
}

/// A name as an argument or as what is sent.
pub fn name_argument(meaning: Option<Meaning>, depth: u32) -> Value
    ensures { result ≡ name_argument meaning depth }
{
    match meaning {
        Some(Meaning::GlobalArray { .. }) => Value::Reference(array_of(meaning, depth)),
        Some(Meaning::LocalArray { .. }) => Value::Reference(array_of(meaning, depth)),
        Some(Meaning::ArrayParam(_)) => Value::Reference(array_of(meaning, depth)),
        _ => Value::Variable(place_of(meaning, depth)),
    }
}

/// An int variable as an array of one element.
pub fn array_at(place: Place) -> Array
    ensures { result ≡ array_at place }
{
    match place {
        Place::Global { slot } => Array::Global { slot, len: 1 },
        Place::Local { level, slot } => Array::Local {
            level,
            slot,
            len: 1,
        },
    }
}

/// A name as where a message is received: the array, or the int variable as an array of one element.
pub fn received_in(meaning: Option<Meaning>, depth: u32) -> Array
    ensures { result ≡ received_in meaning depth }
{
    match meaning {
        Some(Meaning::GlobalArray { .. }) => array_of(meaning, depth),
        Some(Meaning::LocalArray { .. }) => array_of(meaning, depth),
        Some(Meaning::ArrayParam(_)) => array_of(meaning, depth),
        _ => array_at(place_of(meaning, depth)),
    }
}

/// The `cancel` of a label.
pub fn cancel_of(meaning: Option<Meaning>, depth: u32) -> Command
    ensures { result ≡ cancel_of meaning depth }
{
    match meaning {
        Some(Meaning::Label { depth: there, slot }) => Command::Cancel {
            level: level(depth, there),
            slot,
        },
        _ => Command::Cancel { level: 0, slot: 0 },
    }
}

/// The number of a function.
pub fn function_of(meaning: Option<Meaning>) -> u32
    ensures { result ≡ function_of meaning }
{
    match meaning {
        Some(Meaning::Function(number)) => number,
        _ => 0,
    }
}

/// The number of a channel.
pub fn channel_of(meaning: Option<Meaning>) -> u32
    ensures { result ≡ channel_of meaning }
{
    match meaning {
        Some(Meaning::Channel(number)) => number,
        _ => 0,
    }
}

/// The number of a file.
pub fn file_of(meaning: Option<Meaning>) -> u32
    ensures { result ≡ file_of meaning }
{
    match meaning {
        Some(Meaning::File(number)) => number,
        _ => 0,
    }
}

/// The number of a core.
pub fn core_of(meaning: Option<Meaning>) -> u32
    ensures { result ≡ core_of meaning }
{
    match meaning {
        Some(Meaning::Core(number)) => number,
        _ => 0,
    }
}
