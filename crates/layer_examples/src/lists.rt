// Bytes and lists.
use crate::checks::{check, check_text};
use base_types::{Bytes, List};
use std::test::Fail;

#[test]
fn bytes_and_lists_grow(rt: HostRuntime) -> Result<(), Fail> {
    let mut bytes = Bytes::copy_of(rt.alloc(), b"one")?;
    bytes.extend(b" two")?;
    check_text(&rt, "bytes", bytes.as_slice(), "one two");
    let mut list = List::new(rt.alloc());
    list.push(7)?;
    list.push(8)?;
    check(&rt, list.as_slice() == [7, 8].as_slice(), "a list");
    Ok(())
}
