//! Expressions.

use ac_base::{Boxed, List, Name};

/// The named results of an operation.
#[derive(Clone, Copy, Debug, PartialEq, Eq)]
pub enum Constant {
    Ok,
    Cancelled,
    Fault,
}

/// The operators with one operand.
#[derive(Clone, Copy, Debug, PartialEq, Eq)]
pub enum UnaryOp {
    Neg,
    Not,
    Flip,
}

/// The operators with two operands, from the loosest level to the tightest.
#[derive(Clone, Copy, Debug, PartialEq, Eq)]
pub enum BinaryOp {
    Or,
    And,
    BitOr,
    BitXor,
    BitAnd,
    Eq,
    Ne,
    Less,
    LessEq,
    More,
    MoreEq,
    Shl,
    Shr,
    Add,
    Sub,
    Mul,
    Div,
    Rem,
}

/// An expression. `at` is the first byte of its first token.
#[cycle(expr)]
#[derive(Drop)]
pub enum Expr {
    Number {
        at: u32,
        value: i64,
    },
    Const {
        at: u32,
        which: Constant,
    },
    Name {
        at: u32,
        name: Name,
    },
    Index {
        at: u32,
        name: Name,
        index: Boxed<Expr>,
    },
    Group {
        at: u32,
        inner: Boxed<Expr>,
    },
    Unary {
        at: u32,
        op: UnaryOp,
        inner: Boxed<Expr>,
    },
    Chain {
        at: u32,
        level: u8,
        first: Boxed<Expr>,
        rest: List<Link>,
    },
    Call {
        at: u32,
        name: Name,
        args: List<Expr>,
    },
    Send {
        at: u32,
        channel: Name,
        value: Boxed<Expr>,
    },
    Recv {
        at: u32,
        channel: Name,
        place: Boxed<Expr>,
    },
    Read {
        at: u32,
        file: Name,
        from: Boxed<Expr>,
        len: Boxed<Expr>,
        array: Name,
    },
    Write {
        at: u32,
        file: Name,
        from: Boxed<Expr>,
        len: Boxed<Expr>,
        array: Name,
    },
}

/// An operator of a chain, and its right operand.
#[cycle(expr)]
#[derive(Drop)]
pub struct Link {
    pub op: BinaryOp,
    pub operand: Expr,
}
