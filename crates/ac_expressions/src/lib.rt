//! Reading expressions from left to right, each with how many more depths its tokens may have.
#![tactic(auto)]

mod cursor;
mod expressions;
mod forms;

pub use cursor::{
    Cursor, Halt, is_mark, is_name, is_number, is_other, is_text, is_word, mark, name, negated,
    number, text, word,
};
pub use expressions::{call, expression, more_args, named_place, operation, place};
pub use forms::is_expression;
