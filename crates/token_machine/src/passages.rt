// The table of rows as a step goes through it: by the node's kind, the port of arrival and the tops of the stacks.
ghost use Rattle.std.specs.Prelude.{◌≡◌};
ghost use Rattle.stack.specs.declared.edits.Edit.TheVariants.{Keep};
ghost use Rattle.token.specs.Table.{pair_on, count_of, kept_of};
ghost use Rattle.token_machine.specs.Passages.{passing, one_more, at_number, at_successor, at_multiplexer, at_iterator, at_counter, at_transfer};

use cells::Port;
use machine::Reason;
use stack::Edit;
use token::{DataCell, IterCell, Letter, Side};

// How many shelves there are.
const SHELVES: u32 = 64;

// What one step does to each stack, and to the shelf that the node's value names; and the port by which it leaves.
#[derive(Clone, Copy)]
pub(crate) struct Passage {
    pub(crate) letters: Edit<Letter>,
    pub(crate) iters: Edit<IterCell>,
    pub(crate) datas: Edit<DataCell>,
    pub(crate) shelf: Edit<IterCell>,
    pub(crate) exit: Port,
}

impl Passage {
    // Keeps every stack, and leaves by this port.
    fn by(exit: Port) -> Passage
        ensures { result ≡ passing Keep Keep Keep Keep exit }
    {
        Passage {
            letters: Edit::Keep,
            iters: Edit::Keep,
            datas: Edit::Keep,
            shelf: Edit::Keep,
            exit,
        }
    }
}

// One more, if that is a number. No row that asks for it makes a stack grow, so it is asked before the room is.
fn one_more(a: u32) -> Result<u32, Reason>
    ensures { result ≡ one_more a }
{
    a.checked_add(1).ok_or(Reason::Overflow)
}

// What each kind looks at is matched together, port and tops side by side, so they are parameters and no struct.

pub(crate) fn at_number(value: u32, port: Port, top: Option<DataCell>) -> Result<Passage, Reason>
    ensures { result ≡ at_number value port top }
{
    match (port, top) {
        (Port::First, Some(DataCell::Question)) => {
            Ok(Passage {
                datas: Edit::Replace(DataCell::Number(value)),
                ..Passage::by(Port::First)
            })
        }
        (Port::First, Some(DataCell::Number(a))) if a == value => {
            Ok(Passage {
                datas: Edit::Replace(DataCell::Question),
                ..Passage::by(Port::First)
            })
        }
        _ => Err(Reason::NoRow),
    }
}

pub(crate) fn at_successor(
    port: Port,
    top: Option<DataCell>,
    under: Option<DataCell>,
) -> Result<Passage, Reason>
    ensures { result ≡ at_successor port top under }
{
    match (port, top, under) {
        (Port::Second, Some(DataCell::Question), _) => {
            Ok(Passage {
                datas: Edit::Push(DataCell::Question),
                ..Passage::by(Port::First)
            })
        }
        (Port::Second, Some(DataCell::Number(a)), _) if a > 0 => {
            Ok(Passage {
                datas: Edit::Split(DataCell::Question, DataCell::Number(a - 1)),
                ..Passage::by(Port::First)
            })
        }
        (Port::First, Some(DataCell::Question), Some(DataCell::Question)) => {
            Ok(Passage {
                datas: Edit::Pop,
                ..Passage::by(Port::Second)
            })
        }
        (Port::First, Some(DataCell::Number(a)), Some(DataCell::Question)) => {
            let sum = one_more(a)?;
            Ok(Passage {
                datas: Edit::Join(DataCell::Number(sum)),
                ..Passage::by(Port::Second)
            })
        }
        _ => Err(Reason::NoRow),
    }
}

pub(crate) fn at_multiplexer(port: Port, top: Option<Letter>) -> Result<Passage, Reason>
    ensures { result ≡ at_multiplexer port top }
{
    match (port, top) {
        (Port::Second, _) => Ok(Passage {
            letters: Edit::Push(Letter::Left),
            ..Passage::by(Port::First)
        }),
        (Port::Third, _) => Ok(Passage {
            letters: Edit::Push(Letter::Right),
            ..Passage::by(Port::First)
        }),
        (Port::First, Some(Letter::Left)) => Ok(Passage {
            letters: Edit::Pop,
            ..Passage::by(Port::Second)
        }),
        (Port::First, Some(Letter::Right)) => Ok(Passage {
            letters: Edit::Pop,
            ..Passage::by(Port::Third)
        }),
        (Port::First, None) => Err(Reason::NoRow),
    }
}

pub(crate) fn at_iterator(
    port: Port,
    iter: Option<IterCell>,
    top: Option<DataCell>,
) -> Result<Passage, Reason>
    ensures { result ≡ at_iterator port iter top }
{
    match (port, iter, top) {
        (Port::Second, _, _) => Ok(Passage {
            datas: Edit::Push(DataCell::Question),
            ..Passage::by(Port::First)
        }),
        (Port::First, _, Some(DataCell::Question)) => Ok(Passage {
            datas: Edit::Pop,
            ..Passage::by(Port::Second)
        }),
        (Port::First, _, Some(DataCell::Number(a))) => Ok(Passage {
            iters: Edit::Push(IterCell::Number(a)),
            datas: Edit::Pop,
            ..Passage::by(Port::Third)
        }),
        (Port::Third, Some(IterCell::Number(a)), _) => Ok(Passage {
            iters: Edit::Pop,
            datas: Edit::Push(DataCell::Number(a)),
            ..Passage::by(Port::First)
        }),
        _ => Err(Reason::NoRow),
    }
}

// A pair with its count on this side, and what it keeps on the other. Like `cell` of `syntax` in shape alone.
fn pair_on(side: Side, count: u32, kept: u32) -> IterCell
    ensures { result ≡ pair_on side count kept }
{
    match side {
        Side::Left => IterCell::Pair(count, kept),
        Side::Right => IterCell::Pair(kept, count),
    }
}

// The count of the pair a/b, and what it keeps.
fn parts_on(side: Side, a: u32, b: u32) -> (u32, u32)
    ensures { result ≡ (count_of side a b, kept_of side a b) }
{
    match side {
        Side::Left => (a, b),
        Side::Right => (b, a),
    }
}

pub(crate) fn at_counter(side: Side, port: Port, top: Option<IterCell>) -> Result<Passage, Reason>
    ensures { result ≡ at_counter side port top }
{
    match (port, top) {
        (Port::Second, Some(IterCell::Number(kept))) => {
            Ok(Passage {
                iters: Edit::Replace(pair_on(side, 0, kept)),
                ..Passage::by(Port::First)
            })
        }
        (Port::Third, Some(IterCell::Pair(a, b))) => {
            let (count, kept) = parts_on(side, a, b);
            let sum = one_more(count)?;
            Ok(Passage {
                iters: Edit::Replace(pair_on(side, sum, kept)),
                ..Passage::by(Port::First)
            })
        }
        (Port::First, Some(IterCell::Pair(a, b))) => {
            let (count, kept) = parts_on(side, a, b);
            if count == 0 {
                Ok(Passage {
                    iters: Edit::Replace(IterCell::Number(kept)),
                    ..Passage::by(Port::Second)
                })
            } else {
                Ok(Passage {
                    iters: Edit::Replace(pair_on(side, count - 1, kept)),
                    ..Passage::by(Port::Third)
                })
            }
        }
        _ => Err(Reason::NoRow),
    }
}

pub(crate) fn at_transfer(
    value: u32,
    port: Port,
    top: Option<IterCell>,
    shelved: Option<IterCell>,
) -> Result<Passage, Reason>
    ensures { result ≡ at_transfer value port top shelved }
{
    if !(1..=SHELVES).contains(&value) {
        return Err(Reason::NoRow);
    }
    match (port, top, shelved) {
        (Port::Second, Some(cell), _) => Ok(Passage {
            iters: Edit::Pop,
            shelf: Edit::Push(cell),
            ..Passage::by(Port::First)
        }),
        (Port::First, _, Some(cell)) => Ok(Passage {
            iters: Edit::Push(cell),
            shelf: Edit::Pop,
            ..Passage::by(Port::Second)
        }),
        _ => Err(Reason::NoRow),
    }
}
