// Terms: the sub-terms that hold them, and the names that they bind and use.
ghost use Rattle.std.specs.Prelude.{◌+◌, ◌-◌, ◌<◌, ◌≤◌, length};
ghost use Rattle.syntax.specs.Parse.{term as terms};
ghost use Rattle.syntax.specs.Steps.{TermRead, BodyRead, Follows, HasRoom, IsCounted, begun, signed, signs_in};

use crate::names::{First, Read, Rest, Start};
use crate::program::Shape;
use crate::refusal::Fault;
use crate::scope::Scope;
use crate::scoping::Guard;
use crate::tables::Program;
use crate::types::function_head;

const DEPTH: usize = 128;

const SUBTERMS: usize = 2048;

// Reads a term inside `depth` others, and gives the number of its sub-term. Whatever it answers, the names in force are again those that were.
// The program and the names are two borrows here and below, and not one: the guard of a body holds the names alone while the program is written.
#[cycle(after_first_application_body_function_iterator_let_in_pair_successor_term)]
pub(crate) fn term<'a>(
    rest: Rest<'a>,
    depth: usize,
    program: &mut Program,
    scope: &mut Scope,
) -> Read<'a, usize>
    requires { HasRoom depth program.old scope.old }
    ensures { TermRead rest.entry.end depth program.old scope.old program.new scope.new (terms rest.entry.end (128 - depth) (begun depth program.old) (signed program.old) (signs_in rest.entry)) result }
{
    let start = rest.skip();
    let (first, rest) = start.first()?;
    if depth >= DEPTH || program.subterms.len() + depth >= SUBTERMS {
        return Err(start.refuse(Fault::PassedLimit));
    }
    let place = start.place();
    let at = Start { place, depth };
    after_first(first, rest, at, program, scope)
}

// Reads on after the first sign of a sub-term. Where that began stays as it is while what is left moves on, so the two are no struct; and
// what is asked here, as of each construct, is true only until its sub-term is put.
#[cycle(after_first_application_body_function_iterator_let_in_pair_successor_term)]
fn after_first<'a>(
    first: First<'a>,
    rest: Rest<'a>,
    at: Start,
    program: &mut Program,
    scope: &mut Scope,
) -> Read<'a, usize>
    requires { IsCounted at program.old scope.old }
    ensures { Follows first.entry at rest.entry program.old scope.old program.new scope.new result }
{
    match first {
        First::Name(word) => {
            let binder = scope.occur(at.place, word);
            Ok((program.put(at.place, Shape::Variable(binder)), rest))
        }
        First::Number(number) => Ok((program.put(at.place, Shape::Number(number)), rest)),
        First::Successor => successor(rest, at, program, scope),
        First::Function => function(rest, at, program, scope),
        First::Application => application(rest, at, program, scope),
        First::Pair => pair(rest, at, program, scope),
        First::Let => let_in(rest, at, program, scope),
        First::Iterator => iterator(rest, at, program, scope),
    }
}

// Reads `t` after `S`.
#[cycle(after_first_application_body_function_iterator_let_in_pair_successor_term)]
fn successor<'a>(
    rest: Rest<'a>,
    at: Start,
    program: &mut Program,
    scope: &mut Scope,
) -> Read<'a, usize>
    requires { IsCounted at program.old scope.old }
    ensures { Follows First.Successor at rest.entry program.old scope.old program.new scope.new result }
{
    let (body, rest) = term(rest, at.depth + 1, program, scope)?;
    Ok((program.put(at.place, Shape::Successor(body)), rest))
}

// Reads the body of a binder, inside which the names in force from number `before` on are its own. They go out of force at its end, also when a fault cuts it short.
#[cycle(after_first_application_body_function_iterator_let_in_pair_successor_term)]
fn body<'a>(
    rest: Rest<'a>,
    at: Start,
    before: usize,
    program: &mut Program,
    scope: &mut Scope,
) -> Read<'a, usize>
    requires deep { at.depth < 128 }
    requires room { HasRoom (at.depth + 1) program.old scope.old }
    requires own { before ≤ length scope.old.in_force.items }
    ensures { BodyRead rest.entry.end at before rest.entry.bytes.now program.old scope.old program.new scope.new result }
{
    let guard = Guard(scope, before);
    let (body, rest) = term(rest, at.depth + 1, program, &mut *guard.0)?;
    guard.0.settle(before);
    Ok((body, rest))
}

// Reads `x:T.t` after a backslash.
#[cycle(after_first_application_body_function_iterator_let_in_pair_successor_term)]
fn function<'a>(
    rest: Rest<'a>,
    at: Start,
    program: &mut Program,
    scope: &mut Scope,
) -> Read<'a, usize>
    requires { IsCounted at program.old scope.old }
    ensures { Follows First.Function at rest.entry program.old scope.old program.new scope.new result }
{
    let (head, rest) = function_head(rest, program)?;
    let before = scope.in_force.len();
    scope.declare(head.binder);
    scope.enter(head.binder);
    let (body, rest) = body(rest, at, before, program, scope)?;
    let shape = Shape::Function {
        binder: head.binder.place,
        annotation: head.annotation,
        body,
    };
    Ok((program.put(at.place, shape), rest))
}

// Reads `t u)` after a bracket.
#[cycle(after_first_application_body_function_iterator_let_in_pair_successor_term)]
fn application<'a>(
    rest: Rest<'a>,
    at: Start,
    program: &mut Program,
    scope: &mut Scope,
) -> Read<'a, usize>
    requires { IsCounted at program.old scope.old }
    ensures { Follows First.Application at rest.entry program.old scope.old program.new scope.new result }
{
    let (function, rest) = term(rest, at.depth + 1, program, scope)?;
    let (argument, rest) = term(rest, at.depth + 1, program, scope)?;
    let rest = rest.expect(b')')?;
    let shape = Shape::Application(function, argument);
    Ok((program.put(at.place, shape), rest))
}

// Reads `t,u>` after `<`.
#[cycle(after_first_application_body_function_iterator_let_in_pair_successor_term)]
fn pair<'a>(rest: Rest<'a>, at: Start, program: &mut Program, scope: &mut Scope) -> Read<'a, usize>
    requires { IsCounted at program.old scope.old }
    ensures { Follows First.Pair at rest.entry program.old scope.old program.new scope.new result }
{
    let (first, rest) = term(rest, at.depth + 1, program, scope)?;
    let rest = rest.expect(b',')?;
    let (second, rest) = term(rest, at.depth + 1, program, scope)?;
    let rest = rest.expect(b'>')?;
    Ok((program.put(at.place, Shape::Pair(first, second)), rest))
}

// Reads `<x,y> = t in u` after the word `let`.
#[cycle(after_first_application_body_function_iterator_let_in_pair_successor_term)]
fn let_in<'a>(
    rest: Rest<'a>,
    at: Start,
    program: &mut Program,
    scope: &mut Scope,
) -> Read<'a, usize>
    requires { IsCounted at program.old scope.old }
    ensures { Follows First.Let at rest.entry program.old scope.old program.new scope.new result }
{
    let ((first, second), rest) = rest.let_head()?;
    scope.declare(first);
    scope.declare(second);
    let (pair, rest) = term(rest, at.depth + 1, program, scope)?;
    let rest = rest.expect_in()?;
    let before = scope.in_force.len();
    scope.enter(first);
    scope.enter(second);
    let (body, rest) = body(rest, at, before, program, scope)?;
    let shape = Shape::Let {
        first: first.place,
        second: second.place,
        pair,
        body,
    };
    Ok((program.put(at.place, shape), rest))
}

// Reads `t u v` after the word `iter`.
#[cycle(after_first_application_body_function_iterator_let_in_pair_successor_term)]
fn iterator<'a>(
    rest: Rest<'a>,
    at: Start,
    program: &mut Program,
    scope: &mut Scope,
) -> Read<'a, usize>
    requires { IsCounted at program.old scope.old }
    ensures { Follows First.Iterator at rest.entry program.old scope.old program.new scope.new result }
{
    let (count, rest) = term(rest, at.depth + 1, program, scope)?;
    let (step, rest) = term(rest, at.depth + 1, program, scope)?;
    let (base, rest) = term(rest, at.depth + 1, program, scope)?;
    let shape = Shape::Iterator { count, step, base };
    Ok((program.put(at.place, shape), rest))
}
