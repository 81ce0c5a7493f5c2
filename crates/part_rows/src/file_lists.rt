// Lists of files, and where they break.

use file_list::{ListRead, read_list};
use std::alloc::{AllocError, Global};
use std::test::Fail;

/// The bytes; the names of the list that they are; and where they break, where they are none.
type Row = (&'static [u8], &'static [&'static str], u64);

const ROWS: [Row; 12] = [
    (b"a\n", &["a"], 0),
    (b"one.toml\ntwo-b\n", &["one.toml", "two-b"], 0),
    (b"a\na\n", &["a", "a"], 0),
    (b"~!\n", &["~!"], 0),
    (b"", &[], 0),
    (b"a", &[], 1),
    (b"a\nb", &[], 3),
    (b"\n", &[], 0),
    (b"a\n\n", &[], 2),
    (b"-a\n", &[], 0),
    (b"a b\n", &[], 1),
    (b"a\n\xc3\xa4\n", &[], 2),
];

fn is_read(alloc: Global, row: Row) -> Result<bool, AllocError> {
    match read_list(alloc, row.0)? {
        ListRead::Ready(list) => Ok(are_names(list.as_slice(), row.1)),
        ListRead::Broken { offset } => Ok(row.1.is_empty() && offset == row.2),
    }
}

fn are_names(names: &[String], wanted: &[&str]) -> bool {
    if names.len() != wanted.len() {
        return false;
    }
    for i in 0..wanted.len() {
        if names[i].as_str() != wanted[i] {
            return false;
        }
    }
    true
}

#[test]
fn short_lists(rt: HostRuntime) -> Result<(), Fail> {
    for row in ROWS {
        assert!(rt; is_read(rt.alloc(), row)?);
    }
    Ok(())
}

// So many names of so many bytes, a line each.
fn lines_of(alloc: Global, names: usize, bytes: usize) -> Result<Vec<u8>, AllocError> {
    let mut text = Vec::new(alloc);
    for _name in 0..names {
        for _byte in 0..bytes {
            text.push(b'x')?;
        }
        text.push(b'\n')?;
    }
    Ok(text)
}

// How many names there are, or where the bytes break.
fn counted(alloc: Global, names: usize, bytes: usize) -> Result<(usize, u64), AllocError> {
    let text = lines_of(alloc, names, bytes)?;
    match read_list(alloc, text.as_slice())? {
        ListRead::Ready(list) => Ok((list.as_slice().len(), 0)),
        ListRead::Broken { offset } => Ok((0, offset)),
    }
}

#[test]
fn long_lists(rt: HostRuntime) -> Result<(), Fail> {
    let alloc = rt.alloc();
    assert!(rt; counted(alloc, 64, 1)? == (64, 0));
    assert!(rt; counted(alloc, 65, 1)? == (0, 128));
    assert!(rt; counted(alloc, 2, 255)? == (2, 0));
    assert!(rt; counted(alloc, 2, 256)? == (0, 255));
    Ok(())
}
