// Walks of tokens over cells written by hand.
#![tactic(auto)]

#[cfg(test)]
mod tests {
    use cells::{ABSENT, Cell, Kind};
    use machine::{Reason, Walk};
    use token::{DataCell, IterCell, Letter};
    use token_machine::{Token, number, show};

    const FEW: usize = 8;

    fn cell(kind: Kind, value: u32, links: [u32; 3]) -> Cell {
        Cell {
            kind: u8::from(kind),
            value,
            links,
        }
    }

    fn root(link: u32) -> Cell {
        cell(Kind::Root, 0, [link, ABSENT, ABSENT])
    }

    // iter 2 \x:N.S x 3
    fn twice_three() -> [Cell; 9] {
        [
            root(4),
            cell(Kind::Iterator, 0, [15, 0, 7]),
            cell(Kind::LeftCounter, 0, [9, 5, 14]),
            cell(Kind::RightCounter, 0, [6, 24, 13]),
            cell(Kind::Multiplexer, 0, [18, 11, 8]),
            cell(Kind::Number, 2, [3, ABSENT, ABSENT]),
            cell(Kind::Multiplexer, 0, [12, 22, 21]),
            cell(Kind::Successor, 0, [20, 19, ABSENT]),
            cell(Kind::Number, 3, [10, ABSENT, ABSENT]),
        ]
    }

    // Opens a token with the first data cell, goes forward, and says how far it came, with its number. The lent arrays stand in each test
    // that opens one: arrays lent out of a struct get no proof.
    fn walked<const N: usize>(
        cells: [Cell; N],
        first: DataCell,
        memory: usize,
    ) -> (u32, Option<Reason>, Result<u32, Reason>) {
        let mut letters = [Letter::Left; FEW];
        let mut iters = [IterCell::Number(0); FEW];
        let mut datas = [DataCell::Question; FEW];
        let mut shelves = [IterCell::Number(0); 64];
        let n = memory.min(FEW);
        let token = Token::open(
            &cells,
            first,
            &mut letters[..n],
            &mut iters[..n],
            &mut datas[..n],
            &mut shelves,
        );
        let mut walk = Walk::new(token);
        let (granted, reason) = walk.forward(1_000);
        (granted, reason, number(&walk))
    }

    // S 3, with any number in the place of 3
    fn successor_of(n: u32) -> [Cell; 3] {
        [
            root(4),
            cell(Kind::Successor, 0, [6, 0, ABSENT]),
            cell(Kind::Number, n, [3, ABSENT, ABSENT]),
        ]
    }

    // An iterator that hands its number to one node, by its second port; that node's first port is linked to a third node or to itself.
    fn handed_to(node: Cell, last: Cell) -> [Cell; 4] {
        [root(3), cell(Kind::Iterator, 0, [0, ABSENT, 7]), node, last]
    }

    fn transfer(value: u32) -> Cell {
        cell(Kind::Transfer, value, [6, 5, ABSENT])
    }

    #[test]
    fn an_iterator_counts(rt: HostRuntime) {
        let (granted, reason, found) = walked(twice_three(), DataCell::Question, FEW);
        assert_eq!(rt; granted, 39);
        assert_eq!(rt; reason, Some(Reason::Home));
        assert_eq!(rt; found, Ok(5));
        let (granted, reason, found) = walked(twice_three(), DataCell::Number(5), FEW);
        assert_eq!(rt; granted, 39);
        assert_eq!(rt; reason, Some(Reason::Home));
        assert_eq!(rt; found, Err(Reason::NoNumber));
    }

    #[test]
    fn a_walk_goes_back_from_the_middle(rt: HostRuntime) {
        let cells = twice_three();
        let mut letters = [Letter::Left; FEW];
        let mut iters = [IterCell::Number(0); FEW];
        let mut datas = [DataCell::Question; FEW];
        let mut shelves = [IterCell::Number(0); 0];
        let token = Token::open(
            &cells,
            DataCell::Question,
            &mut letters,
            &mut iters,
            &mut datas,
            &mut shelves,
        );
        let mut walk = Walk::new(token);
        assert_eq!(rt; walk.forward(20), (20, None));
        assert_eq!(rt; walk.back(1_000), (20, Some(Reason::Home)));
        let mut line = [0; 35];
        assert_eq!(rt; show(&walk, &mut line), Ok(35));
        assert_eq!(rt; &line[..], &b"step=0 from=0 to=4 m=- i=- s=0 d=*\n"[..]);
    }

    #[test]
    fn lines_show_sums_and_stacks(rt: HostRuntime) {
        let cells = successor_of(3);
        let mut letters = [Letter::Left; FEW];
        let mut iters = [IterCell::Number(0); FEW];
        let mut datas = [DataCell::Question; FEW];
        let mut shelves = [IterCell::Number(0); 0];
        let token = Token::open(
            &cells,
            DataCell::Question,
            &mut letters,
            &mut iters,
            &mut datas,
            &mut shelves,
        );
        let mut walk = Walk::new(token);
        assert_eq!(rt; walk.forward(2), (2, None));
        let mut line = [b'.'; 40];
        assert_eq!(rt; show(&walk, &mut line[..36]), Err(Reason::ShortBuffer));
        assert_eq!(rt; line[0], b'.');
        assert_eq!(rt; show(&walk, &mut line), Ok(37));
        assert_eq!(rt;
            &line[..],
            &b"step=2 from=6 to=3 m=- i=- s=0 d=3,*\n..."[..]
        );
        let mut later = Walk::new(walk.into_machine());
        assert_eq!(rt; later.back(2), (2, None));
        let mut early = [0; 36];
        assert_eq!(rt; show(&later, &mut early), Ok(36));
        assert_eq!(rt; &early[..], &b"step=-2 from=0 to=4 m=- i=- s=0 d=*\n"[..]);
    }

    #[test]
    fn no_number_passes_the_largest(rt: HostRuntime) {
        let most = u32::MAX;
        let (granted, reason, _) = walked(successor_of(most), DataCell::Question, FEW);
        assert_eq!(rt; (granted, reason), (2, Some(Reason::Overflow)));
        let (left, right) = (Kind::LeftCounter, Kind::RightCounter);
        let up = handed_to(
            cell(right, 0, [11, 5, ABSENT]),
            cell(left, 0, [ABSENT, ABSENT, 6]),
        );
        let (granted, reason, _) = walked(up, DataCell::Number(most), FEW);
        assert_eq!(rt; (granted, reason), (2, Some(Reason::Overflow)));
        let up = handed_to(
            cell(left, 0, [11, 5, ABSENT]),
            cell(right, 0, [ABSENT, ABSENT, 6]),
        );
        let (granted, reason, _) = walked(up, DataCell::Number(most), FEW);
        assert_eq!(rt; (granted, reason), (2, Some(Reason::Overflow)));
    }

    #[test]
    fn a_transfer_wants_a_shelf(rt: HostRuntime) {
        let (granted, reason, found) = walked(
            handed_to(transfer(1), root(0)),
            DataCell::Number(9),
            FEW,
        );
        assert_eq!(rt; (granted, reason), (4, Some(Reason::Home)));
        assert_eq!(rt; found, Ok(9));
        let (granted, reason, _) = walked(
            handed_to(transfer(64), root(0)),
            DataCell::Number(9),
            FEW,
        );
        assert_eq!(rt; (granted, reason), (1, Some(Reason::Full)));
        let (granted, reason, _) = walked(
            handed_to(transfer(65), root(0)),
            DataCell::Number(9),
            FEW,
        );
        assert_eq!(rt; (granted, reason), (1, Some(Reason::NoRow)));
        let (granted, reason, _) = walked(
            handed_to(transfer(0), root(0)),
            DataCell::Number(9),
            FEW,
        );
        assert_eq!(rt; (granted, reason), (1, Some(Reason::NoRow)));
    }

    #[test]
    fn any_cells_are_walked(rt: HostRuntime) {
        let nothing: [Cell; 0] = [];
        let (granted, reason, _) = walked(nothing, DataCell::Question, FEW);
        assert_eq!(rt; (granted, reason), (0, Some(Reason::Home)));
        let (granted, reason, found) = walked([root(9)], DataCell::Number(7), FEW);
        assert_eq!(rt; (granted, reason), (0, Some(Reason::Home)));
        assert_eq!(rt; found, Ok(7));
        let mirror = cell(Kind::Multiplexer, 0, [3, 0, ABSENT]);
        let (granted, reason, found) = walked([root(4), mirror], DataCell::Number(7), FEW);
        assert_eq!(rt; (granted, reason), (2, Some(Reason::Home)));
        assert_eq!(rt; found, Ok(7));
        let (granted, reason, _) = walked([root(4), mirror], DataCell::Number(7), 0);
        assert_eq!(rt; (granted, reason), (0, Some(Reason::Full)));
        let (granted, reason, _) = walked([root(5), mirror], DataCell::Number(7), FEW);
        assert_eq!(rt; (granted, reason), (0, Some(Reason::Unlinked)));
        let (granted, reason, _) = walked(
            [
                root(3),
                Cell {
                    kind: 8,
                    value: 0,
                    links: [0, ABSENT, ABSENT],
                },
            ],
            DataCell::Question,
            FEW,
        );
        assert_eq!(rt; (granted, reason), (0, Some(Reason::NoRow)));
    }
}
