//! What is around a node.

ghost use Rattle.std.specs.Prelude.{◌≡◌};
ghost use Rattle.ac_types.specs.Around.{is_array_position, is_used, position_of, inside_do, inside_loop, is_closed};

use ac_reach::Reached;

/// Where an expression stands.
#[derive(Clone, Copy, Debug, PartialEq, Eq)]
pub enum Position {
    /// It is a statement.
    Statement,
    /// Its value is used.
    Value,
    /// It is an argument for an array parameter.
    Array,
    /// It is the whole value of a Send, or the place of a Recv.
    Message,
}

/// What is around a node in its function.
#[derive(Clone, Copy, Debug, PartialEq, Eq)]
pub struct Around {
    /// Whether the function is async.
    pub is_async: bool,
    /// Whether it gives an int.
    pub gives_int: bool,
    /// How many async bodies are round the node.
    pub depth: u32,
    /// Whether a `do` is round it.
    pub in_do: bool,
    /// Whether a loop is round it, with no `do` or `async` between.
    pub in_loop: bool,
    /// The cores that reach the function.
    pub reached: Reached,
}
