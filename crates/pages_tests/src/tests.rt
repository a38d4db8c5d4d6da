//! Posts whose tags Python's `hmac` computed with the bytes 0 to 15 as the secret.

use agree_core::Position;
use posts::{Post, Posts, Refusal, Stamp, tag_in};

const SECRET: [u8; 16] = [0, 1, 2, 3, 4, 5, 6, 7, 8, 9, 10, 11, 12, 13, 14, 15];

const FOUR: &str = "9f4346e3e01604c366ef0b187f50a9b181ed723c542be68f4b67bf317cfcc38e";

const AGAIN: &str = "70c7209e5671f373c462bbda3b447ae6852432f0306f2aa206c02698bcfdad39";

const QUIT: &str = "22657279d7e9d458238e416f4f9be4337f27304b60f24a42dba79f04ce5cee67";

const EXIT: &str = "d0b719579b3c95af0f24591563132c39d5cab0c6b7d27efd20c37edff6fee796";

const IN_3: &str = "d18d88b99adacf1e5c7bfa01a3a27d5fb679db44c4393fbbf4602c29b71ded92";

const LONGEST: &str = "9a639f78cb130050410453560b36a93520daa795838a3b563da36cfc17862a11";

const ONE: &str = "2377b60ac29a9590dba449c97dfa00aa029419b444d50a6c85f4ac59742898fc";

/// The bytes 16 to 31, the tag of a claim made with them, and the secret as it is handed out.
const TICKET: [u8; 16] = [
    16, 17, 18, 19, 20, 21, 22, 23, 24, 25, 26, 27, 28, 29, 30, 31,
];

const CLAIM: &str = "ef8e0805841dee0cbd1cb63865e2433c6d7b22ecad6ec1ad6233430ef94c8e6c";

const HIDDEN: [u8; 16] = [
    0xc0, 0x71, 0xac, 0x82, 0x80, 0xc1, 0xd6, 0xca, 0x3f, 0xba, 0xe6, 0x42, 0xf4, 0xbc, 0x02, 0xd0,
];

/// The lines of these posts, each one hidden by its tag.
const HIDDEN_FOUR: [u8; 1] = [0x77];

const HIDDEN_ONE: [u8; 1] = [0x8d];

const HIDDEN_LONGEST: [u8; 128] = [
    0x52, 0x42, 0x9d, 0x2d, 0x2a, 0x5d, 0x0a, 0x53, 0xda, 0x60, 0x79, 0x2f, 0x7b, 0x00, 0xc5, 0x4d,
    0x61, 0x25, 0xeb, 0x43, 0x73, 0x9d, 0xe1, 0xa0, 0x1e, 0xe5, 0x6e, 0x90, 0x56, 0x91, 0xb1, 0x84,
    0x34, 0xd6, 0xfe, 0xec, 0x04, 0x64, 0xdf, 0x89, 0x72, 0x3b, 0x4d, 0x85, 0xdc, 0x7f, 0x7c, 0x1e,
    0x05, 0x60, 0x5f, 0x37, 0x18, 0x56, 0x9a, 0x75, 0x49, 0xa1, 0x9b, 0x1e, 0x95, 0x26, 0x36, 0x2f,
    0x37, 0xec, 0x64, 0xb4, 0xc0, 0xdf, 0xb2, 0xf0, 0xca, 0xa6, 0x8a, 0xe6, 0xe4, 0xec, 0xb5, 0x5f,
    0xd9, 0x53, 0x2b, 0x32, 0xbf, 0x03, 0x08, 0xc0, 0xda, 0x78, 0x05, 0x99, 0x3b, 0x6e, 0x13, 0x72,
    0x65, 0xee, 0x04, 0x08, 0x6b, 0x37, 0xeb, 0x96, 0x12, 0x94, 0x1b, 0x36, 0x1c, 0xb5, 0x33, 0xaf,
    0x76, 0xc9, 0x51, 0x56, 0x6e, 0xb3, 0xec, 0xcf, 0x21, 0x12, 0xe7, 0x5b, 0x90, 0xbd, 0x99, 0x9e,
];

/// `4` and a newline, hidden under the number 7: the tag, and two bytes.
const FRAME: [u8; 34] = [
    0x3d, 0x15, 0x37, 0x79, 0x23, 0x4b, 0xee, 0x2a, 0x6b, 0x52, 0x3c, 0x81, 0xcb, 0x4a, 0xbf, 0xea,
    0xac, 0x3c, 0xb5, 0xeb, 0x0b, 0x74, 0x05, 0x88, 0xba, 0xae, 0x85, 0xf3, 0x87, 0x7c, 0xe5, 0x98,
    0xac, 0x4d,
];

const HERE: Position = Position {
    place: 18,
    round: 0,
};

/// Judges a post from here at place 18 in round 0, with this many lines waiting.
fn judged(
    posts: &mut Posts,
    fields: [&str; 3],
    hidden: &[u8],
    waiting: usize,
) -> Result<usize, Refusal> {
    let [at, nonce, tag] = fields;
    let post = Post {
        is_from_here: true,
        stamp: Stamp::read(at, nonce, tag),
        hidden,
    };
    match posts.judge(&post, HERE, waiting) {
        Ok(posted) => Ok(posted.text.len()),
        Err(why) => Err(why),
    }
}

/// Returns the posts of a page that has given this many nonces.
fn given(count: u64) -> Posts {
    let mut posts = Posts::new(SECRET);
    for _ in 0..count {
        let _ = posts.give();
    }
    posts
}

#[test]
fn a_line_is_typed_once(rt: HostRuntime) {
    let mut posts = Posts::new(SECRET);
    let four = ["18.0", "1", FOUR];
    assert_eq!(rt;
        judged(&mut posts, four, &HIDDEN_FOUR, 0),
        Err(Refusal::NotOut)
    );
    assert_eq!(rt; posts.give(), Some(1));
    assert_eq!(rt;
        judged(&mut posts, four, &[HIDDEN_FOUR[0] ^ 2], 0),
        Err(Refusal::WrongTag)
    );
    assert_eq!(rt;
        judged(&mut posts, ["18.1", "1", FOUR], &HIDDEN_FOUR, 0),
        Err(Refusal::WrongTag)
    );
    assert_eq!(rt; judged(&mut posts, four, &HIDDEN_FOUR, 7), Ok(1));
    assert_eq!(rt;
        judged(&mut posts, four, &HIDDEN_FOUR, 0),
        Err(Refusal::NotOut)
    );
    assert_eq!(rt; posts.give(), Some(2));
}

#[test]
fn whoever_has_the_secret_uses_a_nonce_up(rt: HostRuntime) {
    let rows: [(&str, &str, &str, &[u8], usize, Result<usize, Refusal>); 6] = [
        (
            "18.1",
            "2",
            AGAIN,
            &[0x12, 0x30, 0x4d, 0x05, 0xfd],
            0,
            Err(Refusal::Elsewhere),
        ),
        (
            "18.0",
            "3",
            QUIT,
            &[0xb0, 0xe7, 0x41, 0x65],
            0,
            Err(Refusal::Ends),
        ),
        (
            "18.0",
            "4",
            EXIT,
            &[0x94, 0xc4, 0xbd, 0x97, 0x9d],
            0,
            Err(Refusal::Ends),
        ),
        (
            "18.0",
            "5",
            IN_3,
            &[0xf6, 0x01, 0x82, 0xf0],
            8,
            Err(Refusal::Busy),
        ),
        ("18.0", "6", LONGEST, &HIDDEN_LONGEST, 0, Ok(128)),
        ("18.0", "8", ONE, &HIDDEN_ONE, 0, Ok(1)),
    ];
    let mut posts = given(8);
    for row in rows {
        let (at, nonce, tag, hidden, waiting, wanted) = row;
        let fields = [at, nonce, tag];
        assert_eq!(rt;
            judged(&mut posts, fields, hidden, waiting),
            wanted,
            "nonce {nonce}"
        );
        assert_eq!(rt;
            judged(&mut posts, fields, hidden, waiting),
            Err(Refusal::NotOut),
            "nonce {nonce}"
        );
    }
}

#[test]
fn what_is_no_post(rt: HostRuntime) {
    let mut posts = given(1);
    let four = ["18.0", "1", FOUR];
    let ill: [(&str, &[u8]); 4] = [
        (
            "51aa11dd4a14764e6212c8d3eed058dc2b6085c6b9fbd0bda2e92d0cf64db27e",
            &[],
        ),
        (
            "5ccc1a93894ba53e2146b6cadcc7488020820627824ec590e2a72240d5605a75",
            &[0xa0],
        ),
        (
            "4246244c87d543f23616e4a10c2e5a95ee2501c14f75448414d4d0a8776b2fed",
            &[0x41, 0x02],
        ),
        (
            "b3419761ec533afe1a2edb8bb59005ae03facccdef0c15526338561f3961b971",
            &[0xcd, 0xd3, 0x9d],
        ),
    ];
    for (tag, hidden) in ill {
        let mut posts = given(1);
        let fields = ["18.0", "1", tag];
        assert_eq!(rt;
            judged(&mut posts, fields, hidden, 0),
            Err(Refusal::Malformed)
        );
        assert_eq!(rt; judged(&mut posts, fields, hidden, 0), Err(Refusal::NotOut));
    }
    assert_eq!(rt;
        judged(&mut posts, four, [b'4'; 129].as_slice(), 0),
        Err(Refusal::TooLong)
    );
    let foreign = Post {
        is_from_here: false,
        stamp: Stamp::read("18.0", "1", FOUR),
        hidden: &HIDDEN_FOUR,
    };
    assert!(rt; matches!(posts.judge(&foreign, HERE, 0), Err(Refusal::Foreign)));
    assert_eq!(rt; judged(&mut posts, four, &HIDDEN_FOUR, 0), Ok(1));
}

#[test]
fn what_is_no_stamp(rt: HostRuntime) {
    let mut posts = given(1);
    for fields in [
        ["", "1", FOUR],
        ["18", "1", FOUR],
        ["18.", "1", FOUR],
        [".0", "1", FOUR],
        ["18.00", "1", FOUR],
        ["018.0", "1", FOUR],
        ["18.0.0", "1", FOUR],
        ["+18.0", "1", FOUR],
        ["18.-0", "1", FOUR],
        ["18,0", "1", FOUR],
        [" 18.0", "1", FOUR],
        ["4294967296.0", "1", FOUR],
        ["18.0", "", FOUR],
        ["18.0", "01", FOUR],
        ["18.0", "+1", FOUR],
        ["18.0", "1 ", FOUR],
        ["18.0", "one", FOUR],
        ["18.0", "18446744073709551616", FOUR],
        ["18.0", "1", ""],
        ["18.0", "1", "9f"],
        ["18.0", "1", &FOUR[1..]],
    ] {
        let [at, nonce, tag] = fields;
        assert_eq!(rt;
            judged(&mut posts, fields, &HIDDEN_FOUR, 0),
            Err(Refusal::Malformed),
            "{at} {nonce} {tag}"
        );
    }
    assert_eq!(rt;
        judged(&mut posts, ["18.0", "1", FOUR], &HIDDEN_FOUR, 0),
        Ok(1)
    );
}

#[test]
fn the_oldest_nonce_is_forgotten(rt: HostRuntime) {
    let four = ["18.0", "1", FOUR];
    assert_eq!(rt; judged(&mut given(64), four, &HIDDEN_FOUR, 0), Ok(1));
    assert_eq!(rt;
        judged(&mut given(65), four, &HIDDEN_FOUR, 0),
        Err(Refusal::NotOut)
    );
    assert_eq!(rt;
        judged(&mut given(65), ["18.0", "8", ONE], &HIDDEN_ONE, 0),
        Ok(1)
    );
}

/// Returns what is handed out for a tag at this time.
fn handed(posts: &mut Posts, tag: &str, now: u64) -> Option<[u8; 16]> {
    let tag = tag_in(tag)?;
    posts.hand_out(&tag, now)
}

#[test]
fn a_ticket_is_good_once(rt: HostRuntime) {
    let mut posts = given(0);
    assert_eq!(rt; handed(&mut posts, CLAIM, 5), None);
    posts.show(TICKET, 5);
    assert_eq!(rt; handed(&mut posts, FOUR, 5), None);
    assert_eq!(rt; handed(&mut posts, CLAIM, 5), Some(HIDDEN));
    assert_eq!(rt; handed(&mut posts, CLAIM, 5), None);
}

#[test]
fn a_ticket_is_good_for_two_minutes(rt: HostRuntime) {
    let mut posts = given(0);
    posts.show(TICKET, 5);
    assert_eq!(rt; handed(&mut posts, CLAIM, 120_005), None);
    assert_eq!(rt; handed(&mut posts, CLAIM, 120_004), Some(HIDDEN));
    posts.show(TICKET, 7);
    posts.show(SECRET, 8);
    assert_eq!(rt; handed(&mut posts, CLAIM, 9), None);
    posts.show(TICKET, 9);
    posts.renew(SECRET);
    assert_eq!(rt; handed(&mut posts, CLAIM, 10), None);
}

#[test]
fn each_text_is_hidden_under_a_number_of_its_own(rt: HostRuntime) {
    let mut posts = given(0);
    for number in 1..8 {
        let frame = posts.hide(rt.alloc(), b"4\n").expect(&rt, "a frame");
        assert_eq!(rt; frame.number, number);
        if number == 7 {
            assert_eq!(rt; frame.bytes.as_slice(), FRAME.as_slice());
        }
    }
    posts.renew(TICKET);
    assert!(rt; posts.hide(rt.alloc(), b"").expect(&rt, "a frame").number == 8);
}
