// Lines and what they are read as.
use crate::*;
use std::process::Abort;
use std::test::Fail;

const MOST: usize = 4096;

fn has(rt: &impl Abort, line: &Line<MOST>, numbers: Result<&[u32], Stop>) {
    assert_eq!(rt; line.numbers(), numbers);
}

// What is read of a text and a newline.
fn reads(
    rt: &impl Abort,
    heap: Global,
    text: &str,
    numbers: Result<&[u32], Stop>,
) -> Result<(), Fail> {
    let mut line = Line::<MOST>::new(heap);
    for byte in text.bytes() {
        line.push(byte)?;
    }
    line.push(b'\n')?;
    has(rt, &line, numbers);
    line.clear();
    assert!(rt; line.is_empty());
    Ok(())
}

const READ: [(&str, &[u32]); 5] = [
    ("", &[]),
    ("  \t\r", &[]),
    ("7", &[7]),
    (" 1  2\t4294967295 ", &[1, 2, 4294967295]),
    ("000 0007", &[0, 7]),
];

// Faults and columns, which to name in each line would be no plainer.
const STOPPED: [(&str, Fault, usize); 4] = [
    ("1 x", Fault::NotNumber, 3),
    ("-1", Fault::NotNumber, 1),
    ("12é", Fault::NotNumber, 3),
    ("4294967296 x", Fault::TooLarge, 10),
];

#[test]
fn lines_read(rt: HostRuntime) -> Result<(), Fail> {
    for (text, numbers) in READ {
        reads(&rt, rt.alloc(), text, Ok(numbers))?;
    }
    for (text, fault, column) in STOPPED {
        reads(&rt, rt.alloc(), text, Err(Stop { fault, column }))?;
    }
    Ok(())
}

// A line of a megabyte, most of it blank, is read to its end.
#[test]
fn long_line(rt: HostRuntime) -> Result<(), Fail> {
    let mut line = Line::<MOST>::new(rt.alloc());
    line.push(b'7')?;
    for _ in 0..1_000_000 {
        line.push(b' ')?;
    }
    line.push(b'8')?;
    line.push(b'\n')?;
    has(&rt, &line, Ok(&[7, 8]));
    Ok(())
}

#[test]
fn too_many_numbers(rt: HostRuntime) -> Result<(), Fail> {
    let mut line = Line::<MOST>::new(rt.alloc());
    for _ in 0..MOST {
        line.push(b'0')?;
        line.push(b' ')?;
    }
    assert_eq!(rt; line.numbers().err(), None);
    line.push(b'0')?;
    line.push(b' ')?;
    let stop = Stop {
        fault: Fault::TooMany,
        column: 8194,
    };
    assert_eq!(rt; line.numbers().err(), Some(stop));
    Ok(())
}
