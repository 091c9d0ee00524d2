ghost use Rattle.std.specs.Prelude.{◌≡◌, min, ◌^◌, ◌-◌};
ghost use Rattle.cells.specs.Ports.{KindNamed, kind_number, place_of, port_at};

// What a node is. The numbers of the kinds are those that cells hold.
#[derive(Clone, Copy, PartialEq, Eq, Debug)]
pub enum Kind {
    Root = 0,
    Number = 1,
    Successor = 2,
    Multiplexer = 3,
    Iterator = 4,
    LeftCounter = 5,
    RightCounter = 6,
    Transfer = 7,
}

// A number that names no kind.
#[derive(Clone, Copy, PartialEq, Eq, Debug)]
pub struct UnknownKind(pub u8);

impl TryFrom<u8> for Kind {
    type Error = UnknownKind;

    ghost try_from_gives = { KindNamed };

    fn try_from(number: u8) -> Result<Kind, UnknownKind> {
        match number {
            0 => Ok(Kind::Root),
            1 => Ok(Kind::Number),
            2 => Ok(Kind::Successor),
            3 => Ok(Kind::Multiplexer),
            4 => Ok(Kind::Iterator),
            5 => Ok(Kind::LeftCounter),
            6 => Ok(Kind::RightCounter),
            7 => Ok(Kind::Transfer),
            _ => Err(UnknownKind(number)),
        }
    }
}

impl From<Kind> for u8 {
    ghost from_gives = { λ kind number. number ≡ kind_number kind };

    fn from(kind: Kind) -> u8 {
        // `as` is how an enum gives its number.
        kind as u8
    }
}

// One of a node's ports l1, l2, l3.
#[derive(Clone, Copy, PartialEq, Eq, Debug)]
pub enum Port {
    First,
    Second,
    Third,
}

impl Port {
    // Which of its node's ports a port number names. Not `From`: a port is not all that the number says.
    pub fn of(port: u32) -> Port
        ensures { result ≡ place_of port }
    {
        match port % 3 {
            0 => Port::First,
            1 => Port::Second,
            _ => Port::Third,
        }
    }

    // The number of this port of a node, or the largest number there is where that is past it.
    pub fn at(self, node: usize) -> usize
        ensures { result ≡ min (port_at node self) (2 ^ 64 - 1) }
    {
        // `as` is how an enum gives its number.
        node.saturating_mul(3).saturating_add(self as usize)
    }
}

// A node as memory holds it. A cell that a host hands in may hold any numbers, so its kind is a number and its links may be none.
#[derive(Clone, Copy, PartialEq, Eq, Debug)]
pub struct Cell {
    pub kind: u8,
    pub value: u32,
    pub links: [u32; 3],
}
