//! The tree of a program: what its source says, with each node's first byte.
#![tactic(auto)]

mod expr;
mod item;
mod stmt;

pub use expr::{BinaryOp, Constant, Expr, Link, UnaryOp};
pub use item::{Function, Item, Param, Program};
pub use stmt::Stmt;
