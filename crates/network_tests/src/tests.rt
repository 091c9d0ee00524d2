// The networks of five programs, written out by hand from the rules: kind, value and links of each node.
use cells::{ABSENT, Cell};
use network::Builder;
use std::process::Abort;
use std::test::Fail;
use syntax::refusal::{Fault, Refusal};

// Stands in memory before building.
const DUST: Cell = Cell {
    kind: 9,
    value: 9,
    links: [9, 9, 9],
};

// The kinds stand as the numbers that cells hold, so that these are tested too.
fn node(kind: u8, value: u32, links: [u32; 3]) -> Cell {
    Cell { kind, value, links }
}

// The cells begin with the network, and the rest of them is as it was.
fn agree(cells: &[Cell], network: &[Cell]) -> bool {
    cells.starts_with(network) && cells.iter().skip(network.len()).all(|cell| *cell == DUST)
}

fn built(rt: &(impl Abort + AllocGlobal), text: &[u8], network: &[Cell]) -> Result<(), Fail> {
    let mut builder = Builder::new(rt.alloc())?;
    let mut cells = [DUST; 24];
    let n = builder.build(text, &mut cells)?;
    assert_eq!(rt; n, network.len());
    assert!(rt; agree(&cells, network));
    assert_eq!(rt; builder.nodes_needed(text)?, n);
    Ok(())
}

#[test]
fn successor(rt: HostRuntime) -> Result<(), Fail> {
    built(
        &rt,
        b"S 3",
        &[
            node(0, 0, [4, ABSENT, ABSENT]),
            node(2, 0, [6, 0, ABSENT]),
            node(1, 3, [3, ABSENT, ABSENT]),
        ],
    )
}

#[test]
fn application(rt: HostRuntime) -> Result<(), Fail> {
    built(
        &rt,
        b"(\\x:N.S x 3)",
        &[
            node(0, 0, [4, ABSENT, ABSENT]),
            node(3, 0, [6, 0, 12]),
            node(3, 0, [3, 10, 9]),
            node(2, 0, [8, 7, ABSENT]),
            node(1, 3, [5, ABSENT, ABSENT]),
        ],
    )
}

#[test]
fn pair_taken_apart(rt: HostRuntime) -> Result<(), Fail> {
    built(
        &rt,
        b"let <x,y> = <\\z:N.z,7> in (x y)",
        &[
            node(0, 0, [16, ABSENT, ABSENT]),
            node(3, 0, [6, 15, 17]),
            node(3, 0, [3, 9, 12]),
            node(3, 0, [7, 11, 10]),
            node(1, 7, [8, ABSENT, ABSENT]),
            node(3, 0, [4, 0, 5]),
        ],
    )
}

#[test]
fn iterator(rt: HostRuntime) -> Result<(), Fail> {
    built(
        &rt,
        b"iter 2 \\x:N.S x 3",
        &[
            node(0, 0, [4, ABSENT, ABSENT]),
            node(4, 0, [15, 0, 7]),
            node(5, 0, [9, 5, 14]),
            node(6, 0, [6, 24, 13]),
            node(3, 0, [18, 11, 8]),
            node(1, 2, [3, ABSENT, ABSENT]),
            node(3, 0, [12, 22, 21]),
            node(2, 0, [20, 19, ABSENT]),
            node(1, 3, [10, ABSENT, ABSENT]),
        ],
    )
}

// The wire of f passes two Transfer nodes, those of y and a one each.
#[test]
fn nested_iterators(rt: HostRuntime) -> Result<(), Fail> {
    built(
        &rt,
        b"((\\f:(N>N).\\a:N.iter 1 \\y:N.iter 2 f y a \\x:N.S x) 5)",
        &[
            node(0, 0, [4, ABSENT, ABSENT]),
            node(3, 0, [7, 0, 66]),
            node(3, 0, [9, 3, 60]),
            node(3, 0, [6, 12, 54]),
            node(3, 0, [10, 16, 57]),
            node(4, 0, [27, 13, 19]),
            node(5, 0, [21, 17, 26]),
            node(6, 0, [18, 58, 25]),
            node(3, 0, [30, 23, 20]),
            node(1, 1, [15, ABSENT, ABSENT]),
            node(3, 0, [24, 34, 51]),
            node(4, 0, [45, 31, 37]),
            node(5, 0, [39, 35, 44]),
            node(6, 0, [36, 52, 43]),
            node(3, 0, [49, 41, 38]),
            node(1, 2, [33, ABSENT, ABSENT]),
            node(7, 2, [55, 42, ABSENT]),
            node(7, 2, [32, 40, ABSENT]),
            node(7, 1, [11, 48, ABSENT]),
            node(7, 1, [14, 22, ABSENT]),
            node(3, 0, [8, 64, 63]),
            node(2, 0, [62, 61, ABSENT]),
            node(1, 5, [5, ABSENT, ABSENT]),
        ],
    )
}

// A refusal writes no cell.
#[test]
fn few_cells(rt: HostRuntime) -> Result<(), Fail> {
    let mut builder = Builder::new(rt.alloc())?;
    let mut cells = [DUST; 2];
    let refusal = Refusal {
        fault: Fault::FewCells,
        place: 0,
    };
    assert_eq!(rt; builder.build(b"S 3", &mut cells), Err(refusal));
    assert_eq!(rt; cells, [DUST; 2]);
    Ok(())
}

#[test]
fn ill_typed(rt: HostRuntime) -> Result<(), Fail> {
    let mut builder = Builder::new(rt.alloc())?;
    let mut cells = [DUST; 2];
    let refusal = Refusal {
        fault: Fault::IllTyped,
        place: 2,
    };
    assert_eq!(rt; builder.build(b"S (3 4)", &mut cells), Err(refusal));
    assert_eq!(rt; cells, [DUST; 2]);
    Ok(())
}
