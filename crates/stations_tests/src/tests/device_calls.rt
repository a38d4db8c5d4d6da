//! How many device calls a desk's calls make, and that a failing one is reported.
ghost use Rattle.std.specs.Prelude.{◌≤◌};

use super::*;

/// Returns the file of a desk that settled a vote and penned a second, with the n-th device call of that pen failing.
fn file_of_two(rt: &impl Abort, alloc: Global, n: u32) -> MemDisk
    requires { 1 ≤ n }
{
    let mut desk = new_desk(rt, alloc);
    let heard = settle(rt, &mut desk, "innings home", "innings home");
    assert!(rt; heard == What::Heard(Heard::Agreed));
    desk.fail_at(n);
    let number = if n < 5 { Some(40) } else { None };
    assert_eq!(rt; refused(rt, &mut desk, "in 1"), number);
    let mut disk = desk.into_disk();
    disk.kill();
    disk
}

// A pen makes four device calls. The vote isn't in the file if one of the first three failed.
#[test]
fn calls_that_fail(rt: HostRuntime) {
    for n in 1..6 {
        let disk = file_of_two(&rt, rt.alloc(), n);
        let desk = made(&rt, open(&rt, rt.alloc(), disk));
        assert_eq!(rt; desk.votes(), if n < 4 { 1 } else { 2 }, "{n}");
    }
}

/// Whether a desk is made on a disk that fails. It may be refused only for the disk.
fn is_made(rt: &impl Abort, answer: Made) -> bool {
    match answer {
        Ok(_) => true,
        Err((refusal, _)) => {
            assert!(rt; refusal.number() == Some(40));
            false
        }
    }
}

// Creating a desk makes three device calls: the length, a write and a sync. Opening one with two votes makes four: a sync,
// the length, the header and a page.
#[test]
fn desks_that_are_not_made(rt: HostRuntime) {
    for n in 1..9 {
        let mut disk = empty_disk(&rt, rt.alloc());
        disk.fail_at(n);
        assert_eq!(rt; is_made(&rt, create(&rt, rt.alloc(), disk)), n > 3, "{n}");
        let mut disk = file_of_two(&rt, rt.alloc(), 5);
        disk.fail_at(n);
        assert_eq!(rt; is_made(&rt, open(&rt, rt.alloc(), disk)), n > 4, "{n}");
    }
}

// An ask for the last of 129 votes at place 0 makes two device calls: it reads both pages of the file.
#[test]
fn an_ask_reads_two_pages(rt: HostRuntime) {
    let ask = Ask {
        from: Asker::B,
        place: 0,
        round: 128,
    };
    let vote = vote_of(DeskId::A, 0, 128, entry(&rt, "void"));
    for n in 1..4 {
        let mut desk = new_desk(&rt, rt.alloc());
        for _ in 0..129 {
            let heard = settle(&rt, &mut desk, "void", "swap");
            assert!(rt; heard == What::Heard(Heard::Differ));
        }
        desk.fail_at(n);
        let received = desk.receive(&bytes_of(7, &Message::Ask(ask)));
        let wanted = if n < 3 {
            (What::Device, None)
        } else {
            (What::Asked, Some(vote))
        };
        assert!(rt; (received.what, received.reply) == wanted, "{n}");
    }
}
