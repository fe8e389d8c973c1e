use files::pack::pack;
use files::types::Body;
use files::{body_at, check_file};
use market::types::{Refusal, Side};
use rules::types::Kind;
use std::test::Fail;

// Four bodies of 20, 14, 6 and 3 bytes, at 18, 38, 52 and 58.
const LAWFUL: &[u8; 61] =
    b"\x04\x00\x12\x00\x14\x00\x26\x00\x0e\x00\x34\x00\x06\x00\x3a\x00\x03\x00N ABLE O B 1000 5000Q 3 S 1001 200U 1 10X 1";

// For each byte of those bodies, the first byte of the field that a change of it damages. A space
// that is lost joins two fields.
const FIELDS: [u32; 43] = [
    18, 18, 20, 20, 20, 20, 20, 25, 25, 27, 27, 29, 29, 29, 29, 29, 34, 34, 34, 34, 38, 38, 40, 40,
    42, 42, 44, 44, 44, 44, 44, 49, 49, 49, 52, 52, 54, 54, 56, 56, 58, 58, 60,
];

fn contents(index: u32, place: u32) -> Result<usize, Refusal> {
    Err(Refusal::Contents { index, place })
}

fn body(index: u32, place: u32) -> Result<usize, Refusal> {
    Err(Refusal::Body { index, place })
}

// The answer to the file that is packed of a text.
fn packed(text: &[u8]) -> Result<usize, Refusal> {
    let mut file = [0u8; 256];
    let size = pack(text, &mut file).map_err(|_| Refusal::ShortListing)?;
    check_file(&file[..size])
}

#[test]
fn sizes_and_contents(rt: HostRuntime) {
    assert_eq!(rt; check_file(b""), Err(Refusal::FileSize));
    assert_eq!(rt; check_file(b"\x00"), Err(Refusal::FileSize));
    assert_eq!(rt; check_file(b"\x00\x00"), Ok(0));
    assert_eq!(rt;
        check_file(b"\x01\x02"),
        Err(Refusal::FileSize),
        "513 bodies"
    );
    assert_eq!(rt; check_file(b"\x01\x00\x06\x00\x03"), Err(Refusal::FileSize));
    assert_eq!(rt;
        check_file(b"\x00\x00X"),
        contents(0, 2),
        "a byte behind no bodies"
    );
    assert_eq!(rt; check_file(b"\x01\x00\x07\x00\x03\x00X 1"), contents(0, 2));
    assert_eq!(rt;
        check_file(b"\x01\x00\x06\x00\x04\x00X 1"),
        contents(1, 6),
        "too long"
    );
    assert_eq!(rt;
        check_file(b"\x01\x00\x06\x00\xff\xffX 1"),
        contents(1, 6),
        "no wrap"
    );
    assert_eq!(rt;
        check_file(b"\x01\x00\x06\x00\x03\x00X 1 "),
        contents(1, 6),
        "a byte behind the end"
    );
}

#[test]
fn spaces_and_counts_of_fields(rt: HostRuntime) {
    assert_eq!(rt;
        packed(b"\n"),
        body(0, 6),
        "an empty body lacks its first field"
    );
    assert_eq!(rt; packed(b"X  1"), body(0, 8), "an empty field");
    assert_eq!(rt; packed(b" X 1"), body(0, 6));
    assert_eq!(rt;
        packed(b"X 1 "),
        body(0, 10),
        "a surplus field, an empty one"
    );
    assert_eq!(rt; packed(b"X 1 2"), body(0, 10));
    assert_eq!(rt; packed(b"N A L B 1000 100 1"), body(0, 23));
    assert_eq!(rt;
        packed(b"N A L B 1000"),
        body(0, 18),
        "missing, at the body's end"
    );
    assert_eq!(rt; packed(b"N A L B 1000 "), body(0, 19));
    assert_eq!(rt; packed(b"N A I S 1000 5000"), body(0, 23));
    assert_eq!(rt; packed(b"U 1"), body(0, 9));
}

#[test]
fn numbers_and_labels(rt: HostRuntime) {
    assert_eq!(rt; packed(b"X 0\nX 9999999"), Ok(2));
    assert_eq!(rt; packed(b"X 00"), body(0, 8));
    assert_eq!(rt; packed(b"X 01"), body(0, 8));
    assert_eq!(rt; packed(b"X 10000000"), body(0, 8), "eight digits");
    assert_eq!(rt; packed(b"X -1"), body(0, 8));
    assert_eq!(rt; packed(b"U 1\t2"), body(0, 8), "only a space parts fields");
    assert_eq!(rt; packed(b"N ABCDEFGHIJ12 L B 1 1"), Ok(1));
    assert_eq!(rt;
        packed(b"N ABCDEFGHIJ123 L B 1 1"),
        body(0, 8),
        "a label of 13"
    );
    assert_eq!(rt; packed(b"N a L B 1 1"), body(0, 8));
    assert_eq!(rt;
        packed(b"X 1\nX 01\nZ"),
        body(1, 19),
        "the first of two faults"
    );
}

#[test]
fn letters(rt: HostRuntime) {
    assert_eq!(rt; packed(b"N A I S 1000 5000 2 0 C\nN B D B 1 1"), Ok(2));
    assert_eq!(rt; packed(b"Z 1"), body(0, 6));
    assert_eq!(rt; packed(b"n A L B 1 1"), body(0, 6));
    assert_eq!(rt; packed(b"NN A L B 1 1"), body(0, 6));
    assert_eq!(rt; packed(b"N A Z B 1 1"), body(0, 10));
    assert_eq!(rt; packed(b"N A L Z 1 1"), body(0, 12));
    assert_eq!(rt; packed(b"Q 3 b 1 1"), body(0, 10));
    assert_eq!(rt; packed(b"N A I S 1000 5000 3 0 R"), body(0, 24));
    assert_eq!(rt; packed(b"N A I S 1000 5000 1 0 Z"), body(0, 28));
}

// Cut short anywhere, a file has no room for its contents or only its end is wrong.
#[test]
fn cut_short(rt: HostRuntime) {
    let file = *LAWFUL;
    for size in 0..61usize {
        let answer = check_file(&file[0..size]);
        if size < 18 {
            assert_eq!(rt; answer, Err(Refusal::FileSize));
        } else {
            assert_eq!(rt; answer, contents(4, 18));
        }
    }
    assert_eq!(rt; check_file(&file), Ok(4));
}

// A `?` is wrong wherever it stands.
#[test]
fn one_byte_changed(rt: HostRuntime) {
    for at in 0..61usize {
        let mut file = *LAWFUL;
        file[at] = b'?';
        let answer = check_file(&file);
        if at < 2 {
            assert_eq!(rt; answer, Err(Refusal::FileSize));
        } else if at < 18 {
            // A wrong length shows at the next entry.
            let index = (at as u32) / 4;
            assert_eq!(rt; answer, contents(index, 2 + 4 * index));
        } else {
            let place = FIELDS[at - 18];
            assert_eq!(rt; answer, body(body_of(place), place));
        }
    }
}

fn body_of(place: u32) -> u32 {
    match place {
        0..38 => 0,
        38..52 => 1,
        52..58 => 2,
        _ => 3,
    }
}

// The label of a new order is that part of the file.
#[test]
fn bodies_read_back(rt: HostRuntime) -> Result<(), Fail> {
    let file = *LAWFUL;
    let Some(
        Body::New {
            label,
            side,
            price,
            kind,
            shares,
        },
    ) = body_at(&file, 0)
    else {
        return Err(Fail::new("no new order"));
    };
    assert_eq!(rt; label, &file[20..24]);
    assert_eq!(rt;
        (side, price, kind, shares),
        (Side::Buy, 1000, Kind::Olo, 5000)
    );
    let Some(
        Body::Post {
            market,
            side,
            price,
            shares,
        },
    ) = body_at(&file, 1)
    else {
        return Err(Fail::new("no post"));
    };
    assert_eq!(rt; (market, side, price, shares), (3, Side::Sell, 1001, 200));
    assert!(rt; body_at(&file, 4).is_none());
    Ok(())
}
