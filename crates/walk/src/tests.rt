// What the stored run does not meet: a token opened with a number, a probe that is kept, a number that is not there, a text that is refused, and words that are not known where they stand.
use crate::obey;
use std::process::Abort;
use std::test::Fail;

// These words and this text lead to this output.
fn writes(
    rt: &(impl Abort + AllocGlobal),
    line: &str,
    text: &[u8],
    output: &[u8],
) -> Result<(), Fail> {
    let heap = rt.alloc();
    let mut words = Vec::new(heap);
    for word in line.split(' ') {
        words.push(String::from_str(heap, word)?)?;
    }
    let mut out = Vec::new(heap);
    assert!(rt; obey(&mut out, heap, &words, text).is_ok());
    assert!(rt; out.as_slice() == output);
    Ok(())
}

#[test]
fn opened_with_a_number(rt: HostRuntime) -> Result<(), Fail> {
    writes(
        &rt,
        "open 5 forward 39 show",
        b"iter 2 \\x:N.S x 3",
        b"forward 39: granted 39\nshow: step=39 from=4 to=0 m=- i=- s=0 d=*\n",
    )
}

#[test]
fn kept(rt: HostRuntime) -> Result<(), Fail> {
    writes(
        &rt,
        "number probe keep keep",
        b"iter 2 \\x:N.S x 3",
        b"number: none, because of 27\nprobe: taken\nkeep: kept\nkeep: no probe is open\n",
    )
}

#[test]
fn refused(rt: HostRuntime) -> Result<(), Fail> {
    writes(&rt, "sum", b"(3 4)", b"refused=9 place=0\n")
}

#[test]
fn not_known(rt: HostRuntime) -> Result<(), Fail> {
    writes(&rt, "sum turn", b"3", b"not known here: turn\n")?;
    writes(&rt, "sum open 3", b"3", b"not known here: open\n")?;
    writes(&rt, "forward sum", b"3", b"not known here: sum\n")?;
    writes(
        &rt,
        "open 3 forward",
        b"3",
        b"not known here: the end, for a number\n",
    )
}
