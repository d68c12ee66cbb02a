//! On which links a core sends, and on which it receives.

ghost use Rattle.std.specs.Prelude.{◌≡◌, ◌+◌, ◌<◌, ◌^◌, length};
ghost use Rattle.core_ports.specs.Sides.{channel_side, request_side, side_of};

use stack_code::ChannelEnds;

/// What a core is to a link.
#[derive(Clone, Copy, Debug, PartialEq, Eq)]
pub enum Side {
    /// It sends on it.
    Owner,
    /// It receives on it.
    Peer,
    /// The link is none of its own.
    Neither,
}

fn channel_side(core: u32, ends: &ChannelEnds) -> Side
    ensures { result ≡ channel_side core ends.now }
{
    if ends.from == core {
        Side::Owner
    } else if ends.to == core {
        Side::Peer
    } else {
        Side::Neither
    }
}

fn request_side(channels: usize, core: u32, link: u32) -> Side
    requires { channels < 2 ^ 63 }
    ensures { result ≡ request_side channels core link }
{
    if link as usize == channels + core as usize {
        Side::Owner
    } else {
        Side::Neither
    }
}

/// The side of the core on the link, where the channels, which are the first links, have these ends.
pub fn side_of(channels: &[ChannelEnds], core: u32, link: u32) -> Side
    ensures { result ≡ side_of channels.now core link }
{
    match channels.get(link as usize) {
        Some(ends) => channel_side(core, ends),
        None => request_side(channels.len(), core, link),
    }
}
