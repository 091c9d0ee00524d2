// Texts at and beside each limit, the refusals of each question, and the lines that are printed.
use crate::answer;
use grammar::accept;
use language::counts::Facts;
use language::workspace::Workspace;
use std::alloc::{AllocError, Global};
use std::process::Abort;
use std::test::Fail;
use syntax::refusal::{Fault, Refusal};

// Why a text is refused, if it is.
fn refused(workspace: &mut Workspace, text: &[u8]) -> Option<Refusal> {
    accept(text, workspace).err()
}

// Texts that are refused, with the fault and its place.
const REFUSALS: [(&[u8], Fault, usize); 16] = [
    (b"", Fault::WrongSign, 0),
    (b" \n", Fault::WrongSign, 2),
    (b"(\\x:N.S x S)", Fault::WrongSign, 11),
    (b"007", Fault::WrongSign, 0),
    (b"3 4", Fault::WrongSign, 2),
    (b"1000000001", Fault::LargeNumber, 0),
    (b"x", Fault::Unbound, 0),
    (b"\\x:N.(\\x:N.x x)", Fault::BoundTwice, 7),
    (b"\\x:N.<x,x>", Fault::UsedTwice, 8),
    (b"\\x:N.y", Fault::Unused, 1),
    (b"let <x,x> = <1,2> in x", Fault::Unused, 5),
    (b"(3 4)", Fault::IllTyped, 0),
    (b"let <x,y> = 3 in (x y)", Fault::IllTyped, 0),
    (b"let <x,y> = <1,2> in (x y)", Fault::IllTyped, 21),
    (b"iter 1 \\x:N.<x,1> 3", Fault::IllTyped, 0),
    (b"\\x:N.x", Fault::NoNumber, 0),
];

#[test]
fn refusals(rt: HostRuntime) -> Result<(), Fail> {
    let mut workspace = Workspace::new(rt.alloc())?;
    for (text, fault, place) in REFUSALS {
        assert_eq!(rt;
            refused(&mut workspace, text),
            Some(Refusal { fault, place })
        );
    }
    Ok(())
}

// Writes `part` as often as is said.
fn repeat(text: &mut Vec<u8>, part: &[u8], times: usize) -> Result<(), AllocError> {
    for _ in 0..times {
        text.extend_from_slice(part)?;
    }
    Ok(())
}

// `part` as often as is said, then `last`.
fn run_of(heap: Global, part: &[u8], times: usize, last: &[u8]) -> Result<Vec<u8>, AllocError> {
    let mut text = Vec::new(heap);
    repeat(&mut text, part, times)?;
    text.extend_from_slice(last)?;
    Ok(text)
}

// `\x:T.` and a body, with a pair type that is so many levels deep.
fn tall(heap: Global, levels: usize, body: &[u8]) -> Result<Vec<u8>, AllocError> {
    let mut text = Vec::from_slice(heap, b"\\x:")?;
    repeat(&mut text, b"(N*", levels)?;
    text.push(b'N')?;
    repeat(&mut text, b")", levels)?;
    text.extend_from_slice(body)?;
    Ok(text)
}

// Doubles what stands in the text between three signs.
fn double(text: &mut Vec<u8>, signs: [u8; 3]) -> Result<(), AllocError> {
    let copy = text.clone()?;
    text.clear();
    text.push(signs[0])?;
    text.extend_from_slice(&copy)?;
    text.push(signs[1])?;
    text.extend_from_slice(&copy)?;
    text.push(signs[2])?;
    Ok(())
}

// `leaf` doubled ten times, with this before it and after it.
fn wide(
    heap: Global,
    front: &[u8],
    leaf: u8,
    signs: [u8; 3],
    back: &[u8],
) -> Result<Vec<u8>, AllocError> {
    let mut inner = Vec::from_slice(heap, &[leaf])?;
    for _ in 0..10 {
        double(&mut inner, signs)?;
    }
    let mut text = Vec::from_slice(heap, front)?;
    text.extend_from_slice(&inner)?;
    text.extend_from_slice(back)?;
    Ok(text)
}

// Iterators one inside another, each with a name of its own.
fn iterators(heap: Global, count: u8) -> Result<Vec<u8>, AllocError> {
    let mut text = Vec::new(heap);
    // The number makes the name, and no index.
    for i in 0..count {
        let name = [b'a' + i / 16, b'a' + i % 16];
        text.extend_from_slice(b"iter 1 \\")?;
        text.extend_from_slice(&name)?;
        text.extend_from_slice(b":N.")?;
        text.extend_from_slice(&name)?;
        text.push(b' ')?;
    }
    text.push(b'3')?;
    Ok(text)
}

// A text is answered so; one at a limit passes it, though it may be refused by a later question.
fn answered(
    rt: &impl Abort,
    workspace: &mut Workspace,
    text: &[u8],
    outcome: Option<(Fault, usize)>,
) {
    assert_eq!(rt;
        refused(workspace, text),
        outcome.map(|(fault, place)| Refusal { fault, place })
    );
}

// Texts at a limit and beside it.
#[test]
fn limits(rt: HostRuntime) -> Result<(), Fail> {
    let heap = rt.alloc();
    let mut workspace = Workspace::new(heap)?;
    let w = &mut workspace;
    answered(&rt, w, &run_of(heap, b" ", 16_383, b"3")?, None);
    answered(
        &rt,
        w,
        &run_of(heap, b" ", 16_384, b"3")?,
        Some((Fault::TooLong, 0)),
    );
    answered(
        &rt,
        w,
        &run_of(heap, b"9", 16_384, b"")?,
        Some((Fault::LargeNumber, 0)),
    );
    answered(
        &rt,
        w,
        &run_of(heap, b"0", 9_000, b"1")?,
        Some((Fault::WrongSign, 0)),
    );
    answered(&rt, w, &run_of(heap, b"S", 127, b"3")?, None);
    answered(
        &rt,
        w,
        &run_of(heap, b"S", 128, b"3")?,
        Some((Fault::PassedLimit, 128)),
    );
    answered(&rt, w, &tall(heap, 63, b".x")?, Some((Fault::NoNumber, 0)));
    answered(
        &rt,
        w,
        &tall(heap, 63, b".<x,1>")?,
        Some((Fault::HighType, 0)),
    );
    answered(
        &rt,
        w,
        &tall(heap, 64, b".x")?,
        Some((Fault::PassedLimit, 193)),
    );
    let pairs = *b"<,>";
    answered(
        &rt,
        w,
        &wide(heap, b"S ", b'3', pairs, b"")?,
        Some((Fault::IllTyped, 0)),
    );
    answered(
        &rt,
        w,
        &wide(heap, b"S S ", b'3', pairs, b"")?,
        Some((Fault::PassedLimit, 4086)),
    );
    let products = *b"(*)";
    let whole = wide(heap, b"\\x:", b'N', products, b".\\y:N.<x,y>")?;
    answered(&rt, w, &whole, Some((Fault::NoNumber, 0)));
    let past = wide(heap, b"\\x:", b'N', products, b".\\y:(N*N).<x,y>")?;
    answered(&rt, w, &past, Some((Fault::PassedLimit, 4102)));
    answered(&rt, w, &iterators(heap, 64)?, None);
    answered(
        &rt,
        w,
        &iterators(heap, 65)?,
        Some((Fault::ManyIterators, 0)),
    );
    Ok(())
}

#[test]
fn counts(rt: HostRuntime) -> Result<(), Fail> {
    let mut workspace = Workspace::new(rt.alloc())?;
    let program = accept(b"let <x,y> = <\\z:N.z,7> in (x y)", &mut workspace)?;
    assert_eq!(rt;
        program.facts,
        Facts {
            subterms: 8,
            iterators: 0,
            successors: 0,
            height: 2,
            weight: 11,
        }
    );
    Ok(())
}

// Texts, with the lines that answer them.
const LINES: [(&[u8], &str); 5] = [
    (
        b"3",
        "subterms=1 iterators=0 successors=0 height=0 weight=1",
    ),
    (
        b"let <x,y> = <\\z:N.z,7> in (x y)",
        "subterms=8 iterators=0 successors=0 height=2 weight=11",
    ),
    (
        b"iter 2 \\x:N.S x 3",
        "subterms=6 iterators=1 successors=1 height=1 weight=7",
    ),
    (b"(3 4)", "refused=9 place=0"),
    (b"\\x:N.<x,x>", "refused=7 place=8"),
];

#[test]
fn lines(rt: HostRuntime) -> Result<(), Fail> {
    let heap = rt.alloc();
    let mut workspace = Workspace::new(heap)?;
    for (text, line) in LINES {
        let told = answer(heap, &mut workspace, text)?;
        assert_eq!(rt; told.as_str(), line);
    }
    Ok(())
}
