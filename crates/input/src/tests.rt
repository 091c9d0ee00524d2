use crate::{read_text, read_up_to};
use std::process::Abort;
use std::test::Fail;

// Of a text of so many bytes, so many are read.
fn reads(rt: &(impl Abort + AllocGlobal), bytes: usize, read: usize) -> Result<(), Fail> {
    let text = Vec::from_elem(rt.alloc(), b'3', bytes)?;
    let text = read_text(rt.alloc(), text.as_slice())?;
    assert_eq!(rt; text.len(), read);
    Ok(())
}

#[test]
fn lengths(rt: HostRuntime) -> Result<(), Fail> {
    reads(&rt, 0, 0)?;
    reads(&rt, 16_384, 16_384)?;
    reads(&rt, 16_385, 16_385)?;
    reads(&rt, 20_000, 16_385)
}

#[test]
fn bytes(rt: HostRuntime) -> Result<(), Fail> {
    let input: &[u8] = b"S 3\n";
    let text = read_text(rt.alloc(), input)?;
    assert!(rt; text.as_slice() == b"S 3\n".as_slice());
    Ok(())
}

#[test]
fn up_to_a_limit(rt: HostRuntime) -> Result<(), Fail> {
    let input: &[u8] = b"S 3\n";
    let bytes = read_up_to(rt.alloc(), input, 2)?;
    assert!(rt; bytes.as_slice() == b"S ".as_slice());
    Ok(())
}
