//! The emission of code: of values and of statements.

pub mod commands;
pub mod emitter;
pub mod steps;
pub mod values;
