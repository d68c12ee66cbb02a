//! The link of an event, and the number of the offer that it is about.

ghost use Rattle.std.specs.Prelude.{◌≡◌};
ghost use Rattle.ac_links.specs.Link.{link_of, number_of};

use ac_base::Event;

/// The link that the event is about.
pub fn link_of(event: &Event) -> u32
    ensures { result ≡ link_of event.now }
{
    match event {
        Event::Offer { link, .. } => *link,
        Event::Withdraw { link, .. } => *link,
        Event::Know { link, .. } => *link,
        Event::Room { link, .. } => *link,
        Event::Got { link, .. } => *link,
        Event::Pass { link, .. } => *link,
        Event::Did { link, .. } => *link,
        Event::Reply { link, .. } => *link,
    }
}

/// The number of the offer that the event is about.
pub fn number_of(event: &Event) -> u64
    ensures { result ≡ number_of event.now }
{
    match event {
        Event::Offer { number, .. } => *number,
        Event::Withdraw { number, .. } => *number,
        Event::Know { number, .. } => *number,
        Event::Room { number, .. } => *number,
        Event::Got { number, .. } => *number,
        Event::Pass { number, .. } => *number,
        Event::Did { number, .. } => *number,
        Event::Reply { number, .. } => *number,
    }
}
