//! The tokens of the language.

use ac_base::{Bytes, Name, Span};

/// The words of the language, which are no names.
#[derive(Clone, Copy, Debug, PartialEq, Eq)]
pub enum Word {
    Int,
    Void,
    Async,
    Do,
    Finish,
    Cancel,
    Yield,
    If,
    Else,
    While,
    For,
    Break,
    Continue,
    Return,
    Core,
    Channel,
    File,
    Printf,
    Send,
    Recv,
    Read,
    Write,
    Ok,
    Cancelled,
    Fault,
}

/// The marks of the language.
#[derive(Clone, Copy, Debug, PartialEq, Eq)]
pub enum Mark {
    OrOr,
    AndAnd,
    EqEq,
    NotEq,
    LessEq,
    MoreEq,
    Shl,
    Shr,
    Plus,
    Minus,
    Star,
    Slash,
    Percent,
    Less,
    More,
    And,
    Bar,
    Caret,
    Not,
    Tilde,
    Assign,
    OpenParen,
    CloseParen,
    OpenBracket,
    CloseBracket,
    OpenBrace,
    CloseBrace,
    Comma,
    Semicolon,
    Colon,
}

/// What a token is. The value of a text has its escapes replaced.
#[derive(Debug, Drop)]
pub enum Kind {
    Name(Name),
    Number(i64),
    Text(Bytes),
    Word(Word),
    Mark(Mark),
}

/// A token and its bytes in the source.
#[derive(Debug, Drop)]
pub struct Token {
    pub kind: Kind,
    pub span: Span,
}
