//! The names at a place, and what statements and parameters do to them.

ghost use Rattle.std.specs.Prelude.{◌≡◌, ◌+◌, ◌<◌, [], ◌∷◌, length, OnOk, OnErr, IfOk};
ghost use Rattle.ac_names.specs.Items.{param_named, params_named};
ghost use Rattle.ac_names.specs.Statements.{array_len, declared_in, declares, in_do, moved};

use crate::meaning::Meaning;
use crate::params::param_at;
use crate::scopes::Scopes;
use crate::table::Table;
use ac_base::{Name, NoMemory};
use ac_tree::{Param, Stmt};
use std::alloc::Global;

/// The names that are visible at a place, the labels of the `do` statements round it, and the next slot of its frame.
#[derive(Drop)]
pub struct Names {
    pub scopes: Scopes,
    pub labels: Scopes,
    pub slot: u32,
}

/// The elements of an array, or 0 where that may not be its size.
pub fn array_len(size: i64) -> u32
    ensures { result ≡ array_len size }
{
    if 0 <= size && size <= 4096 {
        size as u32
    } else {
        0
    }
}

impl Names {
    /// The names at the top level.
    pub fn outermost(alloc: Global, names: Table) -> Result<Names, NoMemory>
        ensures scopes { IfOk result (λ n. n.scopes ≡ names ∷ []) }
        ensures labels { IfOk result (λ n. n.labels ≡ []) }
        ensures slot { IfOk result (λ n. n.slot ≡ 0) }
    {
        let mut scopes = Scopes::new(alloc);
        scopes.enter(names)?;
        Ok(Names {
            scopes,
            labels: Scopes::new(alloc),
            slot: 0,
        })
    }

    /// Gives so many slots.
    pub fn take(&mut self, slots: u32)
        requires { self.old.slot + slots < 4294967296 }
        ensures { self.new ≡ moved self.old slots }
    {
        self.slot += slots;
    }

    /// Goes into a `do`, which takes a slot: opens its scope of labels, and declares its label. After want of memory the names
    /// are as before.
    pub fn enter_do(&mut self, label: &Option<Name>, depth: u32) -> Result<(), NoMemory>
        requires { self.old.slot + 1 < 4294967296 }
        ensures ok { OnOk result (self.new ≡ in_do label.now depth self.old) }
        ensures err { OnErr result (self.new ≡ self.old) }
    {
        let slot = self.slot;
        self.labels.open()?;
        if let Some(name) = label {
            let declared = self.labels.declare(name, Meaning::Label { depth, slot });
            if let Err(fault) = declared {
                self.labels.close();
                return Err(fault);
            }
        }
        self.slot += 1;
        Ok(())
    }

    /// Declares what a statement declares that took its slots from a slot on, in so many async bodies. After want of memory
    /// the names are as before.
    pub fn declare(&mut self, depth: u32, slot: u32, stmt: &Stmt) -> Result<(), NoMemory>
        ensures ok { OnOk result (self.new ≡ declared_in (declares stmt.now) depth slot self.old) }
        ensures err { OnErr result (self.new ≡ self.old) }
    {
        match stmt {
            Stmt::Int {
                at: _,
                name,
                value: _,
            } => {
                let _ = self.scopes.declare(name, Meaning::Local { depth, slot })?;
                Ok(())
            }
            Stmt::Array { at: _, name, size } => {
                let len = array_len(*size);
                let _ = self
                    .scopes
                    .declare(name, Meaning::LocalArray { depth, slot, len })?;
                Ok(())
            }
            Stmt::Block { .. } => Ok(()),
            Stmt::Empty { .. } => Ok(()),
            Stmt::Assign { .. } => Ok(()),
            Stmt::Call { .. } => Ok(()),
            Stmt::Print { .. } => Ok(()),
            Stmt::If { .. } => Ok(()),
            Stmt::While { .. } => Ok(()),
            Stmt::For { .. } => Ok(()),
            Stmt::Break { .. } => Ok(()),
            Stmt::Continue { .. } => Ok(()),
            Stmt::Return { .. } => Ok(()),
            Stmt::Do { .. } => Ok(()),
            Stmt::Async { .. } => Ok(()),
            Stmt::Cancel { .. } => Ok(()),
            Stmt::Yield { .. } => Ok(()),
        }
    }

    /// Declares a parameter, which takes a slot. After want of memory the names are as before.
    pub fn declare_param(&mut self, param: &Param) -> Result<(), NoMemory>
        requires { self.old.slot + 1 < 4294967296 }
        ensures ok { OnOk result (self.new ≡ param_named param.now self.old) }
        ensures err { OnErr result (self.new ≡ self.old) }
    {
        let meaning = param_at(param.is_array, self.slot);
        let _ = self.scopes.declare(&param.name, meaning)?;
        self.slot += 1;
        Ok(())
    }

    /// Declares parameters. After want of memory the names are as before.
    pub fn declare_params(&mut self, params: &[Param]) -> Result<(), NoMemory>
        requires { self.old.slot + length params.now < 4294967296 }
        ensures ok { OnOk result (self.new ≡ params_named params.now self.old) }
        ensures err { OnErr result (self.new ≡ self.old) }
    {
        let known = self.scopes.inner_len();
        let slot = self.slot;
        for param in params {
            if let Err(fault) = self.declare_param(param) {
                // those before it are declared already
                self.scopes.cut(known);
                self.slot = slot;
                return Err(fault);
            }
        }
        Ok(())
    }
}
