//! What an offer of an operation carries.

ghost use Rattle.std.specs.Prelude.{◌≡◌, true, IfOk};
ghost use Rattle.cancel_scope.specs.Outstanding.{is_outgoing, carries};

use ac_base::{NoMemory, Payload};
use cancel_scope::Asked;
use std::alloc::Global;

/// What an offer of an operation carries that asks for this. A write's bytes are copied.
#[tactic(auto, using(crate::proofs::Payloads::same_ints))]
pub fn payload_of(alloc: Global, asked: &Asked) -> Result<Payload, NoMemory>
    requires { is_outgoing asked.now ≡ true }
    ensures { IfOk result (λ payload. carries asked.now payload ≡ true) }
{
    match asked {
        Asked::Send(message) => Ok(Payload::Int(*message)),
        Asked::Read { file, from, into } => Ok(Payload::Read {
            file: *file,
            from: *from,
            len: into.len,
        }),
        Asked::Write { file, from, bytes } => Ok(Payload::Write {
            file: *file,
            from: *from,
            bytes: bytes.copy(alloc)?,
        }),
        Asked::Recv(_) => unreachable!(),
    }
}

/// Whether an offer of an operation that asks for this carries that.
pub fn carries(asked: &Asked, payload: &Payload) -> bool
    ensures { result ≡ carries asked.now payload.now }
{
    match (asked, payload) {
        (Asked::Send(sent), Payload::Int(carried)) => sent.equals(carried),
        (
            Asked::Read { file, from, into },
            Payload::Read {
                file: other,
                from: at,
                len,
            },
        ) => *file == *other && *from == *at && into.len == *len,
        (
            Asked::Write { file, from, bytes },
            Payload::Write {
                file: other,
                from: at,
                bytes: carried,
            },
        ) => *file == *other && *from == *at && bytes.as_slice() == carried.as_slice(),
        _ => false,
    }
}
