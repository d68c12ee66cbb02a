//! The rules.

ghost use Rattle.std.specs.Prelude.{◌≡◌};
ghost use Rattle.ac_types.specs.Rules.{rule_number};

/// A rule of the language, in the order of their numbers.
#[derive(Clone, Copy, Debug, PartialEq, Eq)]
pub enum Rule {
    /// A name is declared once in its scope.
    DeclaredOnce,
    /// A declaration of a name that is used is visible.
    NameIsDeclared,
    /// A call has as many arguments as its function has parameters.
    ArgumentsMatchParameters,
    /// A name means what its place needs.
    NameFitsItsPlace,
    /// An async function is called in an async one.
    AsyncIsCalledInAsync,
    /// An operation, a `do`, an `async`, a `cancel` and a `yield` stand in an async function.
    StandsInAsyncFunction,
    /// An `async` stands in a `do` of its function.
    AsyncStandsInDo,
    /// A `cancel` stands in a `do` of its function with that label.
    CancelStandsInItsDo,
    /// A `return` stands in no `do` and no async body, a `break` and a `continue` in a loop with neither between.
    JumpStaysInside,
    /// The entry of a core is async and has no parameters.
    EntryIsAsyncWithoutParameters,
    /// Each core that reaches a Send or a Recv is that end of the channel.
    OnlyItsEndUsesChannel,
    /// The value of a call of a void function is not used, and a `return` gives an int just where its function does.
    ValueFitsFunction,
    /// The size of an array is 1 to 4096.
    ArraySizeIsAllowed,
    /// The cores of a channel differ, its capacity is 1 to 64, and fewer than 64 channels are before it.
    ChannelIsAllowed,
    /// There are 1 to 16 cores.
    NumberOfCoresIsAllowed,
    /// Each `%` of a format begins `%d`, `%c` or `%%`, and the arguments are as many as its `%d` and `%c`.
    FormatFitsArguments,
    /// Fewer than 16 files are before a file, and none of the same path.
    FileIsAllowed,
}

impl Rule {
    /// Its number, 1 to 17.
    pub fn number(self) -> u8
        ensures { result ≡ rule_number self }
    {
        match self {
            Rule::DeclaredOnce => 1,
            Rule::NameIsDeclared => 2,
            Rule::ArgumentsMatchParameters => 3,
            Rule::NameFitsItsPlace => 4,
            Rule::AsyncIsCalledInAsync => 5,
            Rule::StandsInAsyncFunction => 6,
            Rule::AsyncStandsInDo => 7,
            Rule::CancelStandsInItsDo => 8,
            Rule::JumpStaysInside => 9,
            Rule::EntryIsAsyncWithoutParameters => 10,
            Rule::OnlyItsEndUsesChannel => 11,
            Rule::ValueFitsFunction => 12,
            Rule::ArraySizeIsAllowed => 13,
            Rule::ChannelIsAllowed => 14,
            Rule::NumberOfCoresIsAllowed => 15,
            Rule::FormatFitsArguments => 16,
            Rule::FileIsAllowed => 17,
        }
    }
}

/// A rule that a program breaks, and the first byte of the node that breaks it.
#[derive(Clone, Copy, Debug, PartialEq, Eq)]
pub struct BrokenRule {
    pub rule: Rule,
    pub at: u32,
}
