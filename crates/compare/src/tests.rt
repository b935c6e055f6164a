// What the command line asks for.
use crate::options::{Command, Misuse, Source, command_of};
use std::test::Fail;

// In words, since what is expected of a file would hold a `String`, and a constant can't.
fn named(command: Result<Command, Misuse>) -> &'static str {
    match command {
        Ok(Command::Help) => "help",
        Ok(Command::Version) => "version",
        Ok(Command::Words(Source::Stdin)) => "words of standard input",
        Ok(Command::Words(Source::File(_))) => "words of a file",
        Err(Misuse::Nothing) => "nothing",
        Err(Misuse::Unknown(_)) => "unknown",
        Err(Misuse::TooMany(_)) => "too many",
    }
}

const LINES: [(&[&str], &str); 10] = [
    (&["compare"], "nothing"),
    (&["compare", "--help"], "help"),
    (&["compare", "-h"], "help"),
    (&["compare", "--version"], "version"),
    (&["compare", "--words"], "words of standard input"),
    (&["compare", "--words", "-"], "words of standard input"),
    (&["compare", "--words", "FILE"], "words of a file"),
    (&["compare", "--word"], "unknown"),
    (&["compare", "--words", "--help"], "unknown"),
    (&["compare", "--words", "FILE", "FILE"], "too many"),
];

#[test]
fn commands(rt: HostRuntime) -> Result<(), Fail> {
    for (line, command) in LINES {
        let mut args = Vec::new(rt.alloc());
        for arg in line {
            args.push(String::from_str(rt.alloc(), arg)?)?;
        }
        assert_eq!(rt; named(command_of(args.into_iter())), command);
    }
    Ok(())
}
