// The tables of worked programs, worked out by hand: rows, and sets of places.
use crate::atoms::ATOMS;
use crate::automata::Automaton;
use crate::rows::Row;
use reader::{Reason, Step};
use std::alloc::{AllocError, Global};
use std::mem::size_of;
use std::process::Abort;
use std::test::Fail;

const ALL: u32 = 0xffff;

// No place at any atom.
const NONE: [u32; ATOMS] = [0; ATOMS];

// Place 0 at every atom.
const FIRST: [u32; ATOMS] = [1; ATOMS];

// Place 0 where test 0 holds.
const WHERE_0: [u32; ATOMS] = [0, 1, 0, 1, 0, 1, 0, 1, 0, 1, 0, 1, 0, 1, 0, 1];

// Place 1 where test 2 holds, and else place 0 where test 0 holds.
const WHERE_2_OR_0: [u32; ATOMS] = [0, 1, 0, 1, 2, 2, 2, 2, 0, 1, 0, 1, 2, 2, 2, 2];

// while 0 do 1
const LOOP: &[u32] = &[2, 4, 2, 0, 2, 0, 1, 1, 0, 5, 2, 0];

// Guards, and the atoms at which they hold: always, never, each test, both, any, opposite.
const GUARDS: [(&[u32], u32); 9] = [
    (&[0, 0], 0xffff),
    (&[0, 1], 0),
    (&[0, 2, 0], 0xaaaa),
    (&[0, 2, 1], 0xcccc),
    (&[0, 2, 2], 0xf0f0),
    (&[0, 2, 3], 0xff00),
    (&[0, 3, 2, 0, 2, 1], 0x8888),
    (&[0, 4, 2, 0, 2, 1], 0xeeee),
    (&[0, 5, 2, 0], 0x5555),
];

// while 0 do (1; while 2 do 3)
fn nest(heap: Global) -> Result<Vec<u32>, AllocError> {
    let mut words = Vec::new(heap);
    words.extend_from_slice(&[2, 4, 2, 0, 2, 0, 2, 1, 1])?;
    words.extend_from_slice(&[2, 4, 2, 0, 2, 2, 1, 3, 0, 5, 2, 2])?;
    words.extend_from_slice(&[0, 5, 2, 0])?;
    Ok(words)
}

// Steps 0 to 7 and then from 0 again, so many, and then a guard that always holds: all of it again and again.
fn steps(heap: Global, n: u32) -> Result<Vec<u32>, AllocError> {
    let mut words = Vec::new(heap);
    words.push(4)?;
    for step in 0..n {
        words.extend_from_slice(&[2, 1, step % 8])?;
    }
    words.extend_from_slice(&[0, 0])?;
    Ok(words)
}

// The automaton of a program that is all the words.
fn automaton_of(rt: &impl Abort, words: &[u32]) -> Result<Automaton, Fail> {
    let Ok((automaton, rest)) = Automaton::read(words) else {
        return Err(Fail::new("no program"));
    };
    assert_eq!(rt; rest.len(), 0);
    Ok(automaton)
}

// The parts of a row are parameters: to name the fields at each call would be no plainer.
fn row_is(rt: &impl Abort, row: Row, ends: u32, next: &[u32; ATOMS]) {
    assert_eq!(rt; row, Row { ends, next: *next });
}

// A set is passed by value: the checker does not cover a borrow of an element where the struct has a ghost field.
fn set_is(rt: &impl Abort, set: u32, places: u32) {
    assert_eq!(rt; set, places);
}

#[test]
fn size(rt: HostRuntime) {
    assert_eq!(rt; size_of::<Automaton>(), 920);
}

#[test]
fn guards(rt: HostRuntime) -> Result<(), Fail> {
    for (words, atoms) in GUARDS {
        let automaton = automaton_of(&rt, words)?;
        assert_eq!(rt; automaton.tables.end.number, 0);
        row_is(&rt, automaton.tables.rows[0], atoms, &NONE);
    }
    Ok(())
}

#[test]
fn a_loop(rt: HostRuntime) -> Result<(), Fail> {
    let automaton = automaton_of(&rt, LOOP)?;
    assert_eq!(rt; automaton.tables.end.number, 1);
    row_is(&rt, automaton.tables.rows[0], 0x5555, &WHERE_0);
    row_is(&rt, automaton.tables.rows[1], 0x5555, &WHERE_0);
    set_is(&rt, automaton.tables.labelled[1], 1);
    set_is(&rt, automaton.tables.labelled[0], 0);
    Ok(())
}

#[test]
fn a_loop_in_a_loop(rt: HostRuntime) -> Result<(), Fail> {
    let automaton = automaton_of(&rt, &nest(rt.alloc())?)?;
    assert_eq!(rt; automaton.tables.end.number, 2);
    row_is(&rt, automaton.tables.rows[0], 0x0505, &WHERE_2_OR_0);
    row_is(&rt, automaton.tables.rows[1], 0x0505, &WHERE_2_OR_0);
    row_is(&rt, automaton.tables.rows[2], 0x5555, &WHERE_0);
    set_is(&rt, automaton.tables.labelled[1], 1);
    set_is(&rt, automaton.tables.labelled[3], 2);
    Ok(())
}

#[test]
fn never_and_a_step(rt: HostRuntime) -> Result<(), Fail> {
    let first = automaton_of(&rt, &[2, 0, 1, 1, 1])?;
    row_is(&rt, first.tables.rows[0], ALL, &NONE);
    row_is(&rt, first.tables.rows[1], 0, &NONE);
    let last = automaton_of(&rt, &[2, 1, 1, 0, 1])?;
    row_is(&rt, last.tables.rows[0], 0, &NONE);
    row_is(&rt, last.tables.rows[1], 0, &FIRST);
    Ok(())
}

// Past each of twelve places the next may come, and past the last the first.
#[test]
fn twelve_steps(rt: HostRuntime) -> Result<(), Fail> {
    let automaton = automaton_of(&rt, &steps(rt.alloc(), 12)?)?;
    assert_eq!(rt; automaton.tables.end.number, 12);
    for (place, row) in automaton.tables.rows[..11].iter().enumerate() {
        row_is(&rt, *row, 0, &[2u32 << place; ATOMS]);
    }
    row_is(&rt, automaton.tables.rows[11], ALL, &FIRST);
    row_is(&rt, automaton.tables.rows[12], ALL, &FIRST);
    for (step, set) in automaton.tables.labelled.iter().enumerate() {
        let once = 1u32 << step;
        set_is(&rt, *set, if step < 4 { once | once << 8 } else { once });
    }
    Ok(())
}

// Either of two steps: both come first, and past each it may end.
#[test]
fn either(rt: HostRuntime) -> Result<(), Fail> {
    let automaton = automaton_of(&rt, &[3, 1, 6, 1, 6])?;
    row_is(&rt, automaton.tables.rows[0], ALL, &NONE);
    row_is(&rt, automaton.tables.rows[1], ALL, &NONE);
    row_is(&rt, automaton.tables.rows[2], 0, &[3; ATOMS]);
    set_is(&rt, automaton.tables.labelled[6], 3);
    // Again and again: past each both may come, and it may end.
    let again = automaton_of(&rt, &[4, 3, 1, 0, 1, 1])?;
    for row in &again.tables.rows[..3] {
        row_is(&rt, *row, ALL, &[3; ATOMS]);
    }
    Ok(())
}

// A step again and again, and then another: the second may come at once.
#[test]
fn a_part_that_may_do_nothing(rt: HostRuntime) -> Result<(), Fail> {
    let automaton = automaton_of(&rt, &[2, 4, 1, 0, 1, 1])?;
    row_is(&rt, automaton.tables.rows[0], 0, &[3; ATOMS]);
    row_is(&rt, automaton.tables.rows[1], ALL, &NONE);
    row_is(&rt, automaton.tables.rows[2], 0, &[3; ATOMS]);
    Ok(())
}

#[test]
fn sets_of_places(rt: HostRuntime) -> Result<(), Fail> {
    let automaton = automaton_of(&rt, &nest(rt.alloc())?)?;
    let beginning = automaton.beginning();
    assert_eq!(rt; beginning, 4);
    assert_eq!(rt; automaton.accepts(beginning), 0x5555);
    assert_eq!(rt; automaton.next(beginning, 1, Step(1)), 1);
    // Not where test 0 does not hold, and not by another step.
    assert_eq!(rt; automaton.next(beginning, 0, Step(1)), 0);
    assert_eq!(rt; automaton.next(beginning, 1, Step(3)), 0);
    assert_eq!(rt; automaton.next(beginning, 1, Step(9)), 0);
    assert_eq!(rt; automaton.next(1, 4, Step(3)), 2);
    assert_eq!(rt; automaton.accepts(3), 0x0505);
    // From the beginning and place 0: each adds what may come from it.
    assert_eq!(rt; automaton.next(beginning | 1, 5, Step(1)), 1);
    assert_eq!(rt; automaton.next(beginning | 1, 5, Step(3)), 2);
    assert_eq!(rt; automaton.accepts(beginning | 1), 0x5555);
    // A test that is none of the four changes nothing, and no more do bits that are no places.
    assert_eq!(rt; automaton.next(beginning, 17, Step(1)), 1);
    assert_eq!(rt; automaton.accepts(0), 0);
    assert_eq!(rt; automaton.accepts(8), 0);
    Ok(())
}

#[test]
fn words_behind_and_faults(rt: HostRuntime) -> Result<(), Fail> {
    let Ok((automaton, rest)) = Automaton::read(&[1, 7, 9, 9, 9]) else {
        return Err(Fail::new("no program"));
    };
    assert_eq!(rt; automaton.tables.end.number, 1);
    assert_eq!(rt; rest.len(), 3);
    assert_eq!(rt; rest, [9, 9, 9].as_slice());
    let Err(fault) = Automaton::read(&[2, 1, 0, 1, 8, 0]) else {
        return Err(Fail::new("a program"));
    };
    assert_eq!(rt; fault.reason, Reason::OutOfRange);
    assert_eq!(rt; fault.left, 2);
    let Err(fault) = Automaton::read(&steps(rt.alloc(), 13)?) else {
        return Err(Fail::new("thirteen steps"));
    };
    assert_eq!(rt; fault.reason, Reason::TooManySteps);
    Ok(())
}
