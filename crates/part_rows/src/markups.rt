// A small document, as bytes.
use markup::{Element, Key, Tag, document};
use std::alloc::{AllocError, Global};
use std::test::Fail;

const SMALL: &[u8] =
    b"<!DOCTYPE html>\n<html><head><meta charset=\"utf-8\">\n</head>\n<p class=\"a &quot;b&quot;\" x1=\"70\">1 &lt; 2 &amp; 3 &gt; 2</p>\n</html>\n";

fn small(alloc: Global) -> Result<Vec<u8>, AllocError> {
    let meta = Element::new(alloc, Tag::Meta).having(Key::Charset, b"utf-8")?;
    let head = Element::new(alloc, Tag::Head).holding(&meta)?;
    let line = Element::new(alloc, Tag::Paragraph)
        .having(Key::Class, b"a \"b\"")?
        .having_number(Key::X1, 70)?
        .saying(b"1 < 2 & 3 > 2")?;
    let root = Element::new(alloc, Tag::Html)
        .holding(&head)?
        .holding(&line)?;
    document(alloc, &root)
}

#[test]
fn words_are_escaped_and_marks_are_closed(rt: HostRuntime) -> Result<(), Fail> {
    let text = small(rt.alloc())?;
    assert!(rt; text.as_slice() == SMALL);
    Ok(())
}
