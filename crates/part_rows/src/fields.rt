// Numbers, signed numbers and words, and where they break.

use field_reading::{Stop, known_pair, number, signed, word};
use std::test::Fail;

/// What a reader should give: the value, or that it breaks; and how many bytes are left.
type Row = (&'static str, Option<i64>, usize);

// Numbers from 1 to 20.
const NUMBERS: [Row; 9] = [
    ("7", Some(7), 0),
    ("20 ", Some(20), 1),
    ("1\n2", Some(1), 2),
    ("", None, 0),
    ("0", None, 1),
    ("07", None, 2),
    ("+7", None, 2),
    ("21", None, 1),
    ("200", None, 1),
];

// Numbers of size up to 20, either sign.
const SIGNED: [Row; 8] = [
    ("0\n", Some(0), 1),
    ("-1", Some(-1), 0),
    ("-20x", Some(-20), 1),
    ("20", Some(20), 0),
    ("-", None, 0),
    ("-0", None, 1),
    ("00", None, 1),
    ("-21", None, 1),
];

// The words "ab" and then "3 12".
const KNOWN: [Row; 5] = [
    ("ab3 12", Some(0), 0),
    ("ab3 123", Some(0), 1),
    ("abc", None, 1),
    ("ab3  12", None, 3),
    ("ab3 1", None, 0),
];

fn is_read(read: Result<(i64, &[u8]), Stop>, row: Row) -> bool {
    match read {
        Ok((value, rest)) => row.1 == Some(value) && rest.len() == row.2,
        Err(Stop::Broken(left)) => row.1.is_none() && left == row.2,
        Err(Stop::Memory) => false,
    }
}

fn number_is_read(row: Row) -> bool {
    match number(1, 20, row.0.as_bytes()) {
        Ok((value, rest)) => is_read(Ok((i64::from(value), rest)), row),
        Err(stop) => is_read(Err(stop), row),
    }
}

fn known(bytes: &[u8]) -> Result<(i64, &[u8]), Stop> {
    let rest = word(b"ab", bytes)?;
    let rest = known_pair(3, 12, rest)?;
    Ok((0, rest))
}

#[test]
fn numbers(rt: HostRuntime) -> Result<(), Fail> {
    for row in NUMBERS {
        assert!(rt; number_is_read(row));
    }
    Ok(())
}

#[test]
fn signed_numbers(rt: HostRuntime) -> Result<(), Fail> {
    for row in SIGNED {
        assert!(rt; is_read(signed(20, row.0.as_bytes()), row));
    }
    Ok(())
}

#[test]
fn known_words(rt: HostRuntime) -> Result<(), Fail> {
    for row in KNOWN {
        assert!(rt; is_read(known(row.0.as_bytes()), row));
    }
    Ok(())
}
