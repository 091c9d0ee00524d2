// Types: the cells that hold them.
ghost use Rattle.std.specs.Prelude.{◌≡◌, ◌+◌, ◌-◌, ◌≤◌, length};
ghost use Rattle.syntax.specs.Parse.{type, joint as joints, joined, function_head};
ghost use Rattle.syntax.specs.Steps.{Gives, TypeHeld, HeadHeld, cell_of, signs_in};

use crate::names::{Head, Read, Rest};
use crate::program::TypeCell;
use crate::refusal::Fault;
use crate::signs::Joint;
use crate::tables::Program;

const DEPTH: usize = 64;

const SIGNS: usize = 2048;

impl<'a> Rest<'a> {
    // Reads the sign between the parts of a type, before which `count` type signs stand.
    fn joint(self, count: usize) -> Read<'a, Joint>
        ensures { Gives self.entry.end (λ j k. j ≡ k) (joints self.entry.end count (signs_in self.entry)) result }
    {
        let rest = self.skip();
        let (joint, after) = match rest.bytes {
            [b'>', after @ ..] => (Joint::Arrow, after),
            [b'*', after @ ..] => (Joint::Product, after),
            _ => return Err(rest.refuse(Fault::WrongSign)),
        };
        if count >= SIGNS {
            return Err(rest.refuse(Fault::PassedLimit));
        }
        Ok((joint, rest.with(after)))
    }
}

// Like `pair_on` of `token_machine` in shape alone.
fn cell(joint: Joint, first: usize, second: usize) -> TypeCell
    ensures { result ≡ cell_of joint first second }
{
    match joint {
        Joint::Arrow => TypeCell::Arrow(first, second),
        Joint::Product => TypeCell::Product(first, second),
    }
}

// Reads a type inside `depth` others, of which `open` have passed the sign between their parts. The depth stays while what is left moves
// on, so the two are no struct.
#[cycle(brackets_read_type)]
fn read_type<'a>(
    rest: Rest<'a>,
    depth: usize,
    open: usize,
    program: &mut Program,
) -> Read<'a, usize>
    requires { length program.old.types.items + «open» ≤ 2048 }
    ensures { Gives rest.entry.end (TypeHeld «open» program.old program.new) (type rest.entry.end (64 - depth) (length program.old.types.items + «open») (signs_in rest.entry)) result }
{
    let rest = rest.skip();
    match rest.bytes {
        [b'N', after @ ..] => {
            if depth >= DEPTH || program.types.len() + open >= SIGNS {
                return Err(rest.refuse(Fault::PassedLimit));
            }
            let at = program.put_type(TypeCell::N);
            Ok((at, rest.with(after)))
        }
        [b'(', after @ ..] => {
            if depth >= DEPTH {
                return Err(rest.refuse(Fault::PassedLimit));
            }
            brackets(rest.with(after), depth + 1, open, program)
        }
        _ => Err(rest.refuse(Fault::WrongSign)),
    }
}

// Reads `T>U)` or `T*U)` after a bracket, where the parts are inside `depth` others.
#[cycle(brackets_read_type)]
fn brackets<'a>(rest: Rest<'a>, depth: usize, open: usize, program: &mut Program) -> Read<'a, usize>
    requires { length program.old.types.items + «open» ≤ 2048 }
    ensures { Gives rest.entry.end (TypeHeld «open» program.old program.new) (joined rest.entry.end (type rest.entry.end (64 - depth)) (length program.old.types.items + «open») (signs_in rest.entry)) result }
{
    let (first, rest) = read_type(rest, depth, open, program)?;
    let (joint, rest) = rest.joint(program.types.len() + open)?;
    let (second, rest) = read_type(rest, depth, open + 1, program)?;
    let rest = rest.expect(b')')?;
    Ok((program.put_type(cell(joint, first, second)), rest))
}

// Reads `x:T.` after a backslash.
pub(crate) fn function_head<'a>(rest: Rest<'a>, program: &mut Program) -> Read<'a, Head<'a>>
    requires { length program.old.types.items ≤ 2048 }
    ensures { Gives rest.entry.end (HeadHeld program.old program.new) (function_head rest.entry.end (length program.old.types.items) (signs_in rest.entry)) result }
{
    let (binder, rest) = rest.binder()?;
    let rest = rest.expect(b':')?;
    let (annotation, rest) = read_type(rest, 0, 0, program)?;
    let rest = rest.expect(b'.')?;
    Ok((Head { binder, annotation }, rest))
}
