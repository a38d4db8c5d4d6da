//! What a board hands back to a desk if each pair of stations has its own key, over a carrier in memory.

use super::*;
use links::{Link, Receivers, Taken};
use seal::{
    CarriedLog, Receipts, Ring, SEALED_ROOM, Seal, Sealed, SealedBuffer, SealedCarrier, SealedForm,
    TaggedMessage, form_for,
};

const SHEET: [u8; 32] = [9; 32];

/// The datagram that the carrier brings, its length, and the last message that it was handed.
#[derive(Drop)]
struct Mail {
    brings: Cell<SealedBuffer>,
    count: Cell<usize>,
    last: Cell<TaggedMessage>,
}

impl Mail {
    fn new() -> Mail {
        Mail {
            brings: Cell::new([0; SEALED_ROOM]),
            count: Cell::new(0),
            last: Cell::new(TaggedMessage {
                message: [0; 48],
                receipt: None,
                tags: [[0; 16]; 5],
            }),
        }
    }
}

/// A carrier that brings the mail's datagram.
#[derive(Drop)]
struct Carrier<'a> {
    mail: &'a Mail,
    log: CarriedLog,
}

impl SealedCarrier for Carrier<'_> {
    ghost use Rattle.seal.specs.Carried.{carried_of};

    ghost carried = { λ carrier. carried_of carrier.log };

    fn carry(&mut self, message: &TaggedMessage) {
        self.mail.last.set(*message);
        self.log = self.log.sent(Receivers::ToAll, message);
    }

    fn carry_back(&mut self, message: &TaggedMessage) {
        self.mail.last.set(*message);
        self.log = self.log.sent(Receivers::ToOne, message);
    }

    fn carry_to(&mut self, peer: usize, message: &TaggedMessage) {
        self.carry_back(message);
    }

    fn last_peer(&self) -> usize {
        0
    }

    fn bring(&mut self, buffer: &mut SealedBuffer, wait: u64) -> Taken {
        *buffer = self.mail.brings.get();
        let count = self.mail.count.get().min(SEALED_ROOM);
        self.log = self.log.came(buffer, count);
        Taken::Datagram(count)
    }
}

/// The seal of both desks, and the seals of desk A and desk B with a board.
fn of_desks() -> Seal {
    Seal::new(b"the key of both desks", &SHEET)
}

fn of_a(board: u8) -> Seal {
    Seal::new(&[b'a', board], &SHEET)
}

fn of_b() -> Seal {
    Seal::new(b"the key of desk b and board 1", &SHEET)
}

fn ring_of_a(is_of_pairs: bool) -> Ring {
    Ring::new(
        Asker::A,
        [of_desks(), of_a(1), of_a(2), of_a(3), of_a(4)],
        is_of_pairs,
    )
}

/// Returns board 1, over the mail.
fn board<'a>(rt: &impl Abort, alloc: Global, mail: &'a Mail) -> Sealed<Carrier<'a>> {
    let ring = Ring::new(
        Asker::Board,
        [of_a(1), of_b(), of_b(), of_b(), of_b()],
        true,
    );
    let Ok(receipts) = Receipts::of(alloc, &ring) else {
        panic!(rt; "no memory");
    };
    let carrier = Carrier {
        mail,
        log: CarriedLog::Empty,
    };
    Sealed::new(carrier, ring, receipts)
}

/// Brings this datagram to the board, which must take it as wanted.
fn comes(
    rt: &impl Abort,
    board: &mut Sealed<Carrier<'_>>,
    mail: &Mail,
    form: &[u8],
    wanted: Taken,
) {
    let count = form.len().min(SEALED_ROOM);
    let mut bytes = [0; SEALED_ROOM];
    bytes[..count].copy_from_slice(&form[..count]);
    mail.brings.set(bytes);
    mail.count.set(count);
    assert_eq!(rt; board.take(&mut [0; 64], 0), wanted);
}

/// Returns what the board sends back for this message.
fn sent_back(board: &mut Sealed<Carrier<'_>>, mail: &Mail, message: &MessageBytes) -> SealedForm {
    board.reply(message);
    form_for(0, &mail.last.get())
}

fn opens_at_a(form: &[u8]) -> bool {
    ring_of_a(true).opened(form, &mut [0; 64])
}

#[test]
fn a_desks_vote_has_a_receipt_for_boards(rt: HostRuntime) {
    let vote = vote(&rt, DeskId::A, 0, 0, "in 1");
    let tagged = ring_of_a(true).tagged(&vote);
    let alone = of_desks().sealed(&vote);
    assert!(&rt; form_for(0, &tagged).as_slice() == alone.as_slice());
    let form = form_for(2, &tagged);
    assert_eq!(&rt; form.len(), 80);
    assert!(&rt; form.as_slice().starts_with(alone.as_slice()));
    // an ask has no receipt, and neither has a vote if all stations share one key
    let ask = ring_of_a(true).tagged(&ask_at(Asker::A, 0, 0));
    assert_eq!(&rt; form_for(2, &ask).len(), 64);
    assert_eq!(&rt; form_for(2, &ring_of_a(false).tagged(&vote)).len(), 64);
}

#[test]
fn a_board_hands_back_the_desks_tag(rt: HostRuntime) {
    let mail = Mail::new();
    let mut board = board(&rt, rt.alloc(), &mail);
    let vote = vote(&rt, DeskId::A, 0, 0, "in 1");
    // a vote that the board seals itself doesn't open at a desk as the desk's own vote
    assert!(&rt; !opens_at_a(sent_back(&mut board, &mail, &vote).as_slice()));
    let form = form_for(1, &ring_of_a(true).tagged(&vote));
    comes(&rt, &mut board, &mail, form.as_slice(), Taken::Datagram(48));
    let back = sent_back(&mut board, &mail, &vote);
    assert!(&rt; back.as_slice() == of_desks().sealed(&vote).as_slice());
    assert!(&rt; opens_at_a(back.as_slice()));
    // the board has no receipt for another vote of that desk at the same position
    let other = super::vote(&rt, DeskId::A, 0, 0, "in 2");
    assert!(&rt; !opens_at_a(sent_back(&mut board, &mail, &other).as_slice()));
}

#[test]
fn a_receipt_that_was_changed_is_not_kept(rt: HostRuntime) {
    let mail = Mail::new();
    let mut board = board(&rt, rt.alloc(), &mail);
    let vote = vote(&rt, DeskId::A, 0, 0, "in 1");
    let form = form_for(1, &ring_of_a(true).tagged(&vote));
    let mut changed = [0; 80];
    let count = form.len().min(80);
    changed[..count].copy_from_slice(&form.as_slice()[..count]);
    changed[50] ^= 1;
    comes(&rt, &mut board, &mail, &changed[..], Taken::Unopened);
    assert!(&rt; !opens_at_a(sent_back(&mut board, &mail, &vote).as_slice()));
}

#[test]
fn no_seal_of_a_board_opens_an_own_vote(rt: HostRuntime) {
    let vote = vote(&rt, DeskId::A, 0, 0, "in 1");
    for board in 1..5 {
        assert!(&rt; !opens_at_a(of_a(board).sealed(&vote).as_slice()));
    }
    let ask = ask_at(Asker::Board, 0, 0);
    assert!(&rt; opens_at_a(of_a(3).sealed(&ask).as_slice()));
    assert!(&rt; !opens_at_a(of_desks().sealed(&ask).as_slice()));
}
