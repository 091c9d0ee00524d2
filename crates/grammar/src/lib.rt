// The theorems above reading and checking: what is accepted is what the grammar spells and the linear typing rules derive.
#![tactic(auto)]

ghost use Rattle.grammar.specs.Reading.{RolesFit, ReadSpelled, SpelledRead, Unambiguous, RefusedRightly};
ghost use Rattle.grammar.specs.Naming.{NamesRight, NamesLeast};
ghost use Rattle.grammar.specs.Dividing.{DividedExactly};
ghost use Rattle.grammar.specs.Exactness.{AcceptedExactly, AcceptedOne, RejectedExactly};
ghost use Rattle.grammar.specs.Examples.{KnownAnswers};
ghost use Rattle.grammar.specs.Verdicts.{Verdict};
ghost use Rattle.grammar.specs.Typings.{InferredDerived, DerivedInferred, DerivedLinear, FirstFault, UniqueTypes, SumsDerived};

use language::program::Program;
use language::workspace::Workspace;
use syntax::refusal::Refusal;

// A text has one division into signs, and that is what is read.
pub fn texts_divided_exactly()
    ensures { DividedExactly }
{}

// Signs are read exactly as the grammar spells terms within the limits, and a refusal stands at the right sign.
pub fn signs_read_exactly()
    ensures roles { RolesFit }
    ensures sound { ReadSpelled }
    ensures complete { SpelledRead }
    ensures unambiguous { Unambiguous }
    ensures refused { RefusedRightly }
{}

// A text has no fault of names exactly when each name is bound once, each occurrence bound and each binder used once;
// else the fault with the smallest place, and of those the smallest number, is reported.
pub fn names_checked_exactly()
    ensures right { NamesRight }
    ensures least { NamesLeast }
{}

// Types are inferred exactly as the linear rules give them, and the first fault is the one reported.
pub fn types_inferred_exactly()
    ensures inferred { InferredDerived }
    ensures derived { DerivedInferred }
    ensures linear { DerivedLinear }
    ensures first { FirstFault }
    ensures unique { UniqueTypes }
    ensures summed { SumsDerived }
{}

// A text is accepted exactly when the grammar spells it, no name is bound twice and the linear rules derive it at N, all within the limits;
// its term and the types of all sub-terms are unique, and a refusal is that of the first question answered with no, at its place.
pub fn texts_accepted_exactly()
    ensures exactly { AcceptedExactly }
    ensures one { AcceptedOne }
    ensures rejected { RejectedExactly }
{}

// Texts with known answers, computed from their bytes on.
pub fn known_answers()
    ensures { KnownAnswers }
{}

// Checks a text: on acceptance it spells one term within the limits, the empty context derives that term at N, and the program stands for it;
// else no term is accepted of it, and the refusal is that of the first question answered with no.
pub fn accept<'a>(text: &[u8], workspace: &'a mut Workspace) -> Result<Program<'a>, Refusal>
    ensures { Verdict text.now result }
{
    workspace.check(text)
}
