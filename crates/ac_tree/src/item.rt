//! The top level.

use crate::stmt::Stmt;
use ac_base::{Bytes, List, Name};

/// A parameter of a function.
#[derive(Drop)]
pub struct Param {
    pub at: u32,
    pub name: Name,
    pub is_array: bool,
}

/// A function.
#[derive(Drop)]
pub struct Function {
    pub at: u32,
    pub is_async: bool,
    pub gives_int: bool,
    pub name: Name,
    pub params: List<Param>,
    pub body: List<Stmt>,
}

/// What stands at the top level. Sizes count elements, and a capacity messages.
#[derive(Drop)]
pub enum Item {
    Global {
        at: u32,
        name: Name,
        size: Option<i64>,
        value: i64,
    },
    Function(Function),
    Channel {
        at: u32,
        name: Name,
        from: Name,
        to: Name,
        cap: i64,
    },
    File {
        at: u32,
        name: Name,
        path: Bytes,
    },
    Core {
        at: u32,
        name: Name,
        entry: Name,
    },
}

/// A whole program.
#[derive(Drop)]
pub struct Program {
    pub items: List<Item>,
}
