//! The kinds of what names mean.

ghost use Rattle.std.specs.Prelude.{◌≡◌};
ghost use Rattle.ac_names.specs.Kinds.{is_kind, is_other};

use crate::meaning::Meaning;

/// What a name must mean at its place.
#[derive(Clone, Copy, Debug, PartialEq, Eq)]
pub enum NameKind {
    Int,
    Array,
    Function,
    Channel,
    File,
    Core,
}

/// Whether a meaning is of that kind.
pub fn is_kind(kind: NameKind, meaning: Meaning) -> bool
    ensures { result ≡ is_kind kind meaning }
{
    match kind {
        NameKind::Int => match meaning {
            Meaning::Global(_) => true,
            Meaning::Local { .. } => true,
            _ => false,
        },
        NameKind::Array => match meaning {
            Meaning::GlobalArray { .. } => true,
            Meaning::LocalArray { .. } => true,
            Meaning::ArrayParam(_) => true,
            _ => false,
        },
        NameKind::Function => match meaning {
            Meaning::Function(_) => true,
            _ => false,
        },
        NameKind::Channel => match meaning {
            Meaning::Channel(_) => true,
            _ => false,
        },
        NameKind::File => match meaning {
            Meaning::File(_) => true,
            _ => false,
        },
        NameKind::Core => match meaning {
            Meaning::Core(_) => true,
            _ => false,
        },
    }
}

/// Whether a name means something, and that is of another kind.
pub fn is_other(kind: NameKind, meaning: Option<Meaning>) -> bool
    ensures { result ≡ is_other kind meaning }
{
    match meaning {
        None => false,
        Some(meaning) => !is_kind(kind, meaning),
    }
}
