//! Statements.

use crate::expr::Expr;
use ac_base::{Boxed, Bytes, List, Name};

/// A statement. `at` is the first byte of its first token.
#[derive(Drop)]
pub enum Stmt {
    Block {
        at: u32,
        body: List<Stmt>,
    },
    Empty {
        at: u32,
    },
    Int {
        at: u32,
        name: Name,
        value: Option<Expr>,
    },
    Array {
        at: u32,
        name: Name,
        size: i64,
    },
    Assign {
        at: u32,
        place: Expr,
        value: Expr,
    },
    Call {
        at: u32,
        call: Expr,
    },
    Print {
        at: u32,
        format: Bytes,
        args: List<Expr>,
    },
    If {
        at: u32,
        test: Expr,
        body: Boxed<Stmt>,
        other: Option<Boxed<Stmt>>,
    },
    While {
        at: u32,
        test: Expr,
        body: Boxed<Stmt>,
    },
    For {
        at: u32,
        init: Option<Boxed<Stmt>>,
        test: Option<Expr>,
        next: Option<Boxed<Stmt>>,
        body: Boxed<Stmt>,
    },
    Break {
        at: u32,
    },
    Continue {
        at: u32,
    },
    Return {
        at: u32,
        value: Option<Expr>,
    },
    Do {
        at: u32,
        label: Option<Name>,
        body: List<Stmt>,
    },
    Async {
        at: u32,
        body: Boxed<Stmt>,
    },
    Cancel {
        at: u32,
        label: Name,
    },
    Yield {
        at: u32,
    },
}
