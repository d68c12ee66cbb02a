//! What is known of the items of a program, by their numbers.

ghost use Rattle.std.specs.Prelude.{◌≡◌};
ghost use Rattle.ac_types.specs.Tables.{callee, takes_array, ends_named, width_named};

use ac_base::List;
use ac_names::Meaning;
use ac_reach::Reached;

/// How a function is called.
#[derive(Drop)]
pub struct Signature {
    pub is_async: bool,
    pub gives_int: bool,
    /// Whether each parameter is an array.
    pub params: List<bool>,
}

/// The sending and the receiving core of a channel, where there is one.
#[derive(Clone, Copy, Debug, PartialEq, Eq)]
pub struct Ends {
    pub from: Option<u32>,
    pub to: Option<u32>,
}

/// How the function is called that a name means: its kind, and how many parameters it has.
#[derive(Clone, Copy, Debug, PartialEq, Eq)]
pub struct Callee {
    pub number: u32,
    pub is_async: bool,
    pub gives_int: bool,
    pub params: u64,
}

/// The functions and channels of a program, and which cores reach each function.
#[derive(Drop)]
pub struct Tables {
    pub functions: List<Signature>,
    pub channels: List<Ends>,
    /// How many ints a message of each channel has.
    pub widths: List<u32>,
    pub reached: List<Reached>,
}

impl Tables {
    /// How the function is called that a name means.
    pub fn callee(&self, meaning: Option<Meaning>) -> Option<Callee>
        ensures { result ≡ callee self.now meaning }
    {
        match meaning {
            Some(Meaning::Function(number)) => {
                let place = u64::from(number);
                if place < self.functions.len() {
                    let function = self.functions.get(place);
                    Some(Callee {
                        number,
                        is_async: function.is_async,
                        gives_int: function.gives_int,
                        params: function.params.len(),
                    })
                } else {
                    None
                }
            }
            _ => None,
        }
    }

    /// Whether a name means a function whose parameter of that number is an array.
    pub fn takes_array(&self, meaning: Option<Meaning>, param: u64) -> bool
        ensures { result ≡ takes_array self.now meaning param }
    {
        match meaning {
            Some(Meaning::Function(number)) => {
                let place = u64::from(number);
                if place < self.functions.len() {
                    let params = &self.functions.get(place).params;
                    param < params.len() && *params.get(param)
                } else {
                    false
                }
            }
            _ => false,
        }
    }

    /// The ends of the channel that a name means.
    pub fn ends(&self, meaning: Option<Meaning>) -> Option<Ends>
        ensures { result ≡ ends_named self.now meaning }
    {
        match meaning {
            Some(Meaning::Channel(number)) => {
                let place = u64::from(number);
                if place < self.channels.len() {
                    Some(*self.channels.get(place))
                } else {
                    None
                }
            }
            _ => None,
        }
    }

    /// How many ints a message of the channel has that a name means.
    pub fn width(&self, meaning: Option<Meaning>) -> Option<u32>
        ensures { result ≡ width_named self.now meaning }
    {
        match meaning {
            Some(Meaning::Channel(number)) => {
                let place = u64::from(number);
                if place < self.widths.len() {
                    Some(*self.widths.get(place))
                } else {
                    None
                }
            }
            _ => None,
        }
    }
}
