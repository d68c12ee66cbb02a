//! Programs that were accepted before calls could stand anywhere.

ghost use Rattle.ac_compile.specs.Earlier.{EarlierProgramsStay};

/// A program in which each call and each operation stands alone, as a statement or as the whole of
/// what is assigned, of what an int begins with or of the operand of a `return`, as all once had to,
/// is accepted where it was. Its runs are those of a meaning that knows of no pending expression,
/// and its code has a call in no other expression.
pub fn earlier_programs_stay()
    ensures { EarlierProgramsStay }
{}
