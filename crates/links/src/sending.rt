//! Sending datagrams over a link.

ghost use Rattle.std.specs.Prelude.{◌≡◌, ◌++◌, map};
ghost use Rattle.links.specs.Passed.{sent_to};
ghost use Rattle.links.specs.declared.link.Receivers.TheVariants.{ToAll};

use crate::link::Link;
use wire::Datagram;

/// Sends datagrams to every peer, in order.
pub fn send_each<L: Link>(link: &mut L, datagrams: &[Datagram])
    ensures { L.log link.new ≡ L.log link.old ++ sent_to ToAll (map (λ d. d.bytes) datagrams.now) }
{
    for datagram in datagrams {
        link.send(&datagram.bytes);
    }
}
