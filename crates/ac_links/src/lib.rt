//! One link of two parties: the offers made on it and what became of them, and what each side knows.
#![tactic(auto)]

mod events;
mod law;
mod link;
mod offer;
mod payloads;

pub use events::{link_of, number_of};
pub use law::{
    a_party_goes_on, replies_come_in_order, ring_goes_on, sides_at_rest_have_nothing,
    two_views_make_a_link, views_go_on_agreeing,
};
pub use link::Link;
pub use offer::{LinkOffer, Standing};
pub use payloads::Terms;
