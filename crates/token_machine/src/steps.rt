ghost use Rattle.std.specs.Prelude.{◌≡◌, ◌/◌, ◌<◌, length};
ghost use Rattle.cells.specs.Ports.{nodes_of, port_at};
ghost use Rattle.token.specs.State.{State, turned, opened, entrance as entrance-of};
ghost use Rattle.token.specs.Next.{next};
ghost use Rattle.token.specs.Distance.{DistanceLaw};
ghost use Rattle.token.specs.Reach.{StaysLinked};
ghost use Rattle.token.proofs.Laws.{token_laws};
ghost use Rattle.token_machine.specs.Passages.{through};
ghost use Rattle.token_machine.specs.Passing.{tops_of, LowTops, Found, Roomy, RoomAsked, WayOut, Moved};
ghost use Rattle.token_machine.specs.Tokens.{state_of, stacks_of, rooms_of, capacities};

use crate::passages::{
    Passage, at_counter, at_iterator, at_multiplexer, at_number, at_successor, at_transfer,
};
use crate::tokens::Token;
use cells::{Cell, Kind, Port, are_linked, cell_of, is_inside, link_of};
use machine::{Machine, Reason};
use stack::{Shelves, Stack};
use token::{DataCell, IterCell, Letter, Side};

// The most cells of lent memory that are used.
const LETTERS: usize = 4096;

const ITERS: usize = 1024;

const DATAS: usize = 4096;

impl<'a> Machine for Token<'a> {
    ghost State = { State };

    ghost state = { state_of };

    ghost next = { next };

    ghost turned = { turned };

    ghost lawful = { token_laws };

    fn step(&mut self) -> Result<(), Reason> {
        if self.to == 0 {
            return Err(Reason::Home);
        }
        if !are_linked(self.cells, self.from, self.to) {
            return Err(Reason::Unlinked);
        }
        let (value, passage) = self.find_passage()?;
        self.ask_room(value, passage)?;
        let (exit, link) = self.find_exit(passage.exit)?;
        self.pass(value, passage)?;
        self.from = exit;
        self.to = link;
        Ok(())
    }

    fn turn(&mut self) {
        std::mem::swap(&mut self.from, &mut self.to);
    }
}

impl<'a> Token<'a> {
    // Opens a token over any cells: from port 0 to the root's link, or to port 0 if that link lies in no cell.
    // Its stacks are empty but for one data cell, which is missing too if there is no data memory.
    pub fn open(
        cells: &'a [Cell],
        first: DataCell,
        letters: &'a mut [Letter],
        iters: &'a mut [IterCell],
        datas: &'a mut [DataCell],
        shelves: &'a mut [IterCell],
    ) -> Token<'a>
        ensures state { state_of result ≡ opened (nodes_of cells.now) (capacities (length letters.old) (length iters.old) (length datas.old) (length shelves.old)) first }
        ensures cells { result.cells.now ≡ cells.now }
        ensures distances { DistanceLaw (nodes_of cells.now) (rooms_of result) }
        ensures linked { StaysLinked (nodes_of cells.now) (rooms_of result) }
    {
        let to = entrance(cells);
        let mut stack = Stack::new(datas, DATAS);
        let _ = stack.push(first);
        Token {
            cells,
            from: 0,
            to,
            letters: Stack::new(letters, LETTERS),
            iters: Stack::new(iters, ITERS),
            datas: stack,
            shelves: Shelves::new(shelves),
        }
    }

    // States that the numbers on the tops, and below them, are of 32 bits, and lets go what it reads.
    // Without it the proof does not close: a token's type says nothing of the cells in lent memory until they are read.
    fn tops_fit(&self, j: u32)
        ensures { LowTops (tops_of j (stacks_of self.now)) }
    {
        let _ = self.iters.top();
        let _ = self.iters.second();
        let _ = self.datas.top();
        let _ = self.datas.second();
        let _ = self.shelves.top(j);
    }

    // What the row does that applies at a node of this kind and value: by the port of arrival and the tops.
    fn pass_through(&self, kind: Kind, value: u32, port: Port) -> Result<Passage, Reason>
        ensures { result ≡ through kind value port (tops_of value (stacks_of self.now)) }
    {
        match kind {
            Kind::Root => Err(Reason::NoRow),
            Kind::Number => at_number(value, port, self.datas.top()),
            Kind::Successor => at_successor(port, self.datas.top(), self.datas.second()),
            Kind::Multiplexer => at_multiplexer(port, self.letters.top()),
            Kind::Iterator => at_iterator(port, self.iters.top(), self.datas.top()),
            Kind::LeftCounter => at_counter(Side::Left, port, self.iters.top()),
            Kind::RightCounter => at_counter(Side::Right, port, self.iters.top()),
            Kind::Transfer => at_transfer(value, port, self.iters.top(), self.shelves.top(value)),
        }
    }

    // The value of the node where the token arrives, and what the row that applies there does.
    // The value stands beside the passage: as a field it is no plainer, since each row would set it and only a transfer's wants it.
    fn find_passage(&self) -> Result<(u32, Passage), Reason>
        ensures { Found (state_of self.now) result }
    {
        if self.to / 3 == 0 {
            return Err(Reason::NoRow);
        }
        let cell = cell_of(self.cells, self.to).ok_or(Reason::NoRow)?;
        let kind = Kind::try_from(cell.kind).map_err(|_| Reason::NoRow)?;
        self.tops_fit(cell.value);
        let passage = self.pass_through(kind, cell.value, Port::of(self.to))?;
        Ok((cell.value, passage))
    }

    // Asks each stack, and shelf j, for the cells that it grows by.
    fn ask_room(&self, j: u32, passage: Passage) -> Result<(), Reason>
        ensures { RoomAsked (rooms_of self.now) (stacks_of self.now) j passage result }
    {
        self.letters.room_for(passage.letters.growth())?;
        self.iters.room_for(passage.iters.growth())?;
        self.datas.room_for(passage.datas.growth())?;
        self.shelves.room_for(j, passage.shelf.growth())
    }

    // The port by which the token leaves the node where it is, and its link, if they are linked to each other.
    fn find_exit(&self, place: Port) -> Result<(u32, u32), Reason>
        requires { self.now.to < 4294967295 }
        ensures { WayOut (nodes_of self.now.cells.now) (port_at (self.now.to / 3) place) result }
    {
        // Below 2^32, since `to` is below 2^32 - 1.
        let exit = place.at((self.to / 3) as usize) as u32;
        let link = link_of(self.cells, exit).ok_or(Reason::Unlinked)?;
        if link_of(self.cells, link) == Some(exit) {
            Ok((exit, link))
        } else {
            Err(Reason::Unlinked)
        }
    }

    // Changes the stacks, and shelf j, which have room for it.
    fn pass(&mut self, j: u32, passage: Passage) -> Result<(), Reason>
        requires { Roomy (rooms_of self.old) (stacks_of self.old) j passage }
        ensures { Moved (state_of self.old) j passage result (state_of self.new) }
    {
        self.letters.edit(passage.letters)?;
        self.iters.edit(passage.iters)?;
        self.datas.edit(passage.datas)?;
        self.shelves.edit(j, passage.shelf)
    }
}

// The root's link, or port 0 if that link lies in no cell.
fn entrance(cells: &[Cell]) -> u32
    ensures { result ≡ entrance-of (nodes_of cells.now) }
{
    link_of(cells, 0)
        .filter(|link| is_inside(cells, *link))
        .unwrap_or(0)
}
