ghost use Rattle.std.specs.Prelude.{◌≡◌};
ghost use Rattle.token.specs.State.{is_home};
ghost use Rattle.token_machine.specs.Tokens.{state_of, stacks_of, is_bare, NumberRead};

use crate::tokens::Token;
use machine::Reason;
use token::DataCell;

impl Token<'_> {
    // Whether the token goes towards port 0 with m, i and the shelves empty.
    fn is_home(&self) -> bool
        ensures { result ≡ is_home (state_of self.now) }
    {
        self.to == 0 && self.is_bare()
    }

    #[tactic(auto, using(crate::proofs::Empty::emptiness))]
    fn is_bare(&self) -> bool
        ensures { result ≡ is_bare (stacks_of self.now) }
    {
        self.letters.is_empty() && self.iters.is_empty() && self.shelves.is_empty()
    }

    // The number that the token brings home: d holds it alone.
    pub fn number(&self) -> Result<u32, Reason>
        ensures { NumberRead (state_of self.now) result }
    {
        if !self.is_home() {
            return Err(Reason::NoNumber);
        }
        match (self.datas.top(), self.datas.second()) {
            (Some(DataCell::Number(n)), None) => Ok(n),
            _ => Err(Reason::NoNumber),
        }
    }
}
