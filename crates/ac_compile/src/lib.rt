//! The code of a program, which has the same runs as its source.
#![tactic(auto)]

ghost use Rattle.std.specs.Prelude.{IfOk};
ghost use Rattle.ac_resolve.specs.Resolution.{resolved};
ghost use Rattle.ac_translation.specs.Same.{IsSame};
ghost use Rattle.ac_compile.specs.Compiled.{IsCodeOf};
ghost use Rattle.ac_compile.specs.OneEnd.{HasOneEnd};
ghost use Rattle.code_safety.specs.KeptEnds.{KeepsEnds};

mod earlier;
mod emit;
mod whole;

use crate::whole::program_code;
use ac_base::NoMemory;
use ac_resolve::resolve;
use ac_types::Checked;
pub use earlier::earlier_programs_stay;
use stack_code::Code;
use std::alloc::Global;

/// The code of a program: that of its tree, whose cores come to just the ends to which they come in the source. Each core comes to one
/// end and to no other, in the source and in the code, and sends and receives only where it is that end of the channel.
pub fn compile(alloc: Global, checked: &Checked) -> Result<Code, NoMemory>
    ensures code { IfOk result (λ code. IsCodeOf checked.now code) }
    ensures same { IfOk result (λ code. IsSame code (resolved checked.now)) }
    ensures one_end { IfOk result (λ code. HasOneEnd code (resolved checked.now)) }
    ensures ends { IfOk result (λ code. KeepsEnds code) }
{
    // The tree is small.
    let _ = checked.tree();
    let program = resolve(alloc, checked)?;
    program_code(alloc, &program)
}
