//! Small codes.

use ac_base::{Bytes, List, Name, NoMemory};
use stack_code::Instr::{Push, Ret};
use stack_code::{ChannelEnds, Code, Entered, Instr, Start};
use std::alloc::Global;

/// Lists of a code, beside its instructions.
#[derive(Clone, Copy)]
pub struct Lists<'a> {
    pub entries: &'a [u32],
    /// How many names there are.
    pub names: u32,
    pub capacities: &'a [u32],
    pub ends: &'a [ChannelEnds],
    pub starts: &'a [Start],
    pub widths: &'a [u32],
    /// The slots of the second function, whose parameters are an int and an array.
    pub words: u32,
}

/// Two cores that enter the first function, one channel of one int from the first to the second, and
/// three globals of which the second starts with 5.
pub const USUAL: Lists<'static> = Lists {
    entries: &[0, 0],
    names: 2,
    capacities: &[4, 1, 1],
    ends: &[ChannelEnds { from: 0, to: 1 }],
    starts: &[Start { slot: 1, value: 5 }],
    widths: &[1],
    words: 3,
};

/// The same with a channel of two ints.
const WIDE: Lists<'static> = Lists {
    widths: &[2],
    ..USUAL
};

fn list<T: Copy>(alloc: Global, items: &[T]) -> Result<List<T>, NoMemory> {
    Ok(List::from_vec(Vec::from_slice(alloc, items)?))
}

fn function(
    alloc: Global,
    name: &[u8],
    at: u32,
    params: &[bool],
    words: u32,
) -> Result<Entered, NoMemory> {
    let name = list(alloc, name)?;
    let params = list(alloc, params)?;
    Ok(Entered {
        name,
        at,
        params,
        words,
    })
}

fn functions(
    alloc: Global,
    first: u32,
    second: u32,
    words: u32,
) -> Result<List<Entered>, NoMemory> {
    let mut functions = List::new(alloc);
    functions.push(function(alloc, b"f", first, &[], 4)?)?;
    functions.push(function(alloc, b"g", second, &[false, true], words)?)?;
    Ok(functions)
}

fn texts(alloc: Global) -> Result<List<Bytes>, NoMemory> {
    let mut texts = List::new(alloc);
    texts.push(list(alloc, b"%d, %%d %c")?)?;
    texts.push(List::new(alloc))?;
    Ok(texts)
}

fn names(alloc: Global, count: u32) -> Result<List<Name>, NoMemory> {
    let mut names = List::new(alloc);
    for _ in 0..count {
        names.push(list(alloc, b"a")?)?;
    }
    Ok(names)
}

// The lists of numbers: one function makes them all, so that no other has each of them on its ways out.
struct Numbers {
    entries: List<u32>,
    capacities: List<u32>,
    ends: List<ChannelEnds>,
    starts: List<Start>,
    widths: List<u32>,
}

fn numbers_of(alloc: Global, lists: &Lists) -> Result<Numbers, NoMemory> {
    Ok(Numbers {
        entries: list(alloc, lists.entries)?,
        capacities: list(alloc, lists.capacities)?,
        ends: list(alloc, lists.ends)?,
        starts: list(alloc, lists.starts)?,
        widths: list(alloc, lists.widths)?,
    })
}

/// The code with these lists, whose functions begin there. The first has 4 slots and no parameter.
pub fn code_with(
    alloc: Global,
    lists: &Lists,
    instrs: List<Instr>,
    first: u32,
    second: u32,
) -> Result<Option<Code>, NoMemory> {
    let functions = functions(alloc, first, second, lists.words)?;
    let texts = texts(alloc)?;
    let names = names(alloc, lists.names)?;
    let Numbers {
        entries,
        capacities,
        ends,
        starts,
        widths,
    } = numbers_of(alloc, lists)?;
    Code::make(
        alloc, instrs, functions, texts, entries, names, 3, capacities, ends, starts, widths,
    )
}

/// A function of a small code, which may have one body or another.
#[derive(Clone, Copy)]
pub enum Whose {
    /// The first, whose body begins at address 2. The second returns its int.
    First,
    /// The second, whose body begins at address 4. The first calls it.
    Second,
    /// The first, in a code whose channel is one of two ints.
    Wide,
}

/// The body of a function, and whether it may have it.
pub type Case = (&'static [Instr], bool);

const RETURNS_ITS_INT: &[Instr] = &[load!(0, 0), Ret];

const CALLS_THE_SECOND: &[Instr] = &[Push(1), arr!(0, 0, 2), call!(1, 2), Ret];

// The instructions of the one function and then those of the other.
fn one_and_other(alloc: Global, one: &[Instr], other: &[Instr]) -> Result<List<Instr>, NoMemory> {
    let mut instrs = Vec::from_slice(alloc, one)?;
    instrs.extend_from_slice(other)?;
    Ok(List::from_vec(instrs))
}

// Whether that function may have this body.
fn may_have(alloc: Global, whose: Whose, body: &[Instr]) -> Result<bool, NoMemory> {
    let (other, first, second) = match whose {
        Whose::First | Whose::Wide => (RETURNS_ITS_INT, 2, 0),
        Whose::Second => (CALLS_THE_SECOND, 0, 4),
    };
    let lists = match whose {
        Whose::Wide => &WIDE,
        _ => &USUAL,
    };
    let instrs = one_and_other(alloc, other, body)?;
    Ok(code_with(alloc, lists, instrs, first, second)?.is_some())
}

/// The first of these cases in which that function may have the body and is said not to, or the
/// other way round. One place calls for all tables, since each place is proved on its own.
pub fn first_wrong(alloc: Global, whose: Whose, cases: &[Case]) -> Result<Option<usize>, NoMemory> {
    for (at, (body, valid)) in cases.iter().enumerate() {
        if may_have(alloc, whose, body)? != *valid {
            return Ok(Some(at));
        }
    }
    Ok(None)
}
