//! Datagrams that only holders of the match's key and sheet can make, and a link that takes no others.
#![tactic(auto)]

mod carrier;
mod datagram;
mod laws;
mod link;
mod receipts;
mod ring;

pub use carrier::{
    CarriedLog, SEALED_ROOM, SealedBuffer, SealedBytes, SealedCarrier, Tag, TaggedMessage,
};
pub use datagram::{Seal, hmac};
pub use laws::{
    each_peer_has_its_seal, sealed_share_no_bytes, what_is_given_was_brought, what_opens_was_sent,
    worked_tags,
};
pub use link::Sealed;
pub use receipts::{MOST_RECEIPTS, Receipts};
pub use ring::{MOST_PEERS, Opener, Ring, SealedForm, form_for};
