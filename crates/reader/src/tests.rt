// Each limit on both sides, and each reason.
use crate::*;
use std::alloc::{AllocError, Global};
use std::process::Abort;
use std::test::Fail;

// The parts of an answer are parameters: to name the fields at each call would be no plainer.
fn reads(rt: &impl Abort, words: &[u32], second: usize, first_steps: u32, second_steps: u32) {
    assert_eq!(rt;
        read_pair(words),
        Ok(Pair {
            second,
            first_steps,
            second_steps,
        })
    );
}

fn refuses(rt: &impl Abort, words: &[u32], reason: Reason, at: usize) {
    assert_eq!(rt; read_pair(words), Err(Refusal { reason, at }));
}

// A sequence of so many steps, and then a guard.
fn steps(heap: Global, n: u32) -> Result<Vec<u32>, AllocError> {
    let mut words = Vec::new(heap);
    for _ in 1..n {
        words.extend_from_slice(&[2, 1, 7])?;
    }
    words.extend_from_slice(&[1, 7, 0, 0])?;
    Ok(words)
}

// A loop in a loop and so on, so deep, and then a guard.
fn loops(heap: Global, depth: u32) -> Result<Vec<u32>, AllocError> {
    let mut words = Vec::new(heap);
    for _ in 0..depth {
        words.push(4)?;
    }
    words.extend_from_slice(&[0, 0, 0, 0])?;
    Ok(words)
}

// A guard by a full tree of tests, ten levels deep: 2,048 words.
fn add_tree(words: &mut Vec<u32>) -> Result<(), AllocError> {
    words.push(0)?;
    for leaf in 0..1024u32 {
        let opened = leaf.trailing_zeros().min(10);
        for _ in 0..opened {
            words.push(3)?;
        }
        words.push(0)?;
    }
    Ok(())
}

const REFUSED: [(&[u32], Reason, usize); 10] = [
    (&[], Reason::Ended, 0),
    (&[0, 0], Reason::Ended, 2),
    (&[0, 0, 1], Reason::Ended, 3),
    (&[0, 0, 0, 3, 2], Reason::Ended, 5),
    (&[0, 0, 0, 0, 0], Reason::LeftOver, 4),
    (&[1, 7, 1, 0, 9, 9], Reason::LeftOver, 4),
    (&[5], Reason::NoCode, 0),
    (&[0, 6], Reason::NoCode, 1),
    (&[0, 2, 4, 1, 7], Reason::OutOfRange, 2),
    (&[0, 2, 3, 1, 8], Reason::OutOfRange, 4),
];

#[test]
fn words_refused(rt: HostRuntime) {
    for (words, reason, at) in REFUSED {
        refuses(&rt, words, reason, at);
    }
}

#[test]
fn words_read(rt: HostRuntime) {
    reads(&rt, &[2, 4, 2, 0, 2, 0, 1, 1, 0, 5, 2, 0, 1, 7], 12, 1, 1);
    reads(&rt, &[0, 2, 3, 1, 7], 3, 0, 1);
}

#[test]
fn at_most_twelve_steps(rt: HostRuntime) -> Result<(), Fail> {
    reads(&rt, &steps(rt.alloc(), 12)?, 35, 12, 0);
    refuses(&rt, &steps(rt.alloc(), 13)?, Reason::TooManySteps, 36);
    Ok(())
}

#[test]
fn at_most_64_deep(rt: HostRuntime) -> Result<(), Fail> {
    reads(&rt, &loops(rt.alloc(), 64)?, 66, 0, 0);
    refuses(&rt, &loops(rt.alloc(), 65)?, Reason::TooDeep, 64);
    Ok(())
}

#[test]
fn at_most_4096_words(rt: HostRuntime) -> Result<(), Fail> {
    let mut words = Vec::new(rt.alloc());
    add_tree(&mut words)?;
    add_tree(&mut words)?;
    reads(&rt, &words, 2048, 0, 0);
    words.push(0)?;
    refuses(&rt, &words, Reason::TooLong, 4096);
    Ok(())
}
