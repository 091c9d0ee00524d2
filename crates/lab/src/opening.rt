ghost use Rattle.grammar.specs.Exactness.{AcceptedExactly, RejectedExactly};
ghost use Rattle.token.specs.State.{turned};
ghost use Rattle.token.specs.Next.{next};
ghost use Rattle.lab.specs.Distances.{TokenReads};
ghost use Rattle.lab.specs.Opening.{Opened};
ghost use Rattle.lab.specs.Whole.{WholeWalks};

use crate::memory::Memory;
use crate::refusals::Refused;
use grammar::texts_accepted_exactly;
use network::Builder;
use token::DataCell;
use token_machine::Token;

// Opens a session: builds the network of the text in the lent cells and opens a token on it, with the question or a
// number; or gives the refusal, with the memory as it was. `Walk::new` of the token is the session's walk.
pub fn open<'a>(
    builder: &mut Builder,
    text: &[u8],
    memory: Memory<'a>,
    first: DataCell,
) -> Result<Token<'a>, Refused<'a>>
    ensures opened { Opened text.now memory.entry first result }
    ensures exact { AcceptedExactly × RejectedExactly }
    ensures whole { WholeWalks next turned TokenReads }
{
    texts_accepted_exactly();
    let Memory {
        cells,
        letters,
        iters,
        shelves,
        datas,
    } = memory;
    match builder.build(text, cells) {
        Ok(_) => Ok(Token::open(cells, first, letters, iters, datas, shelves)),
        Err(refusal) => Err(Refused {
            refusal,
            memory: Memory {
                cells,
                letters,
                iters,
                shelves,
                datas,
            },
        }),
    }
}
