// compare: says of each line of words whether it is two programs.
#![tactic(auto)]

ghost use Rattle.compare.specs.Messages.{failure_text};

mod answers;
mod filter;
mod options;
#[cfg(test)]
mod tests;

use filter::{Trouble, answer_lines};
use options::{Command, Misuse, Source, command_of};
use std::fs::File;
use std::io::{BufReader, BufWriter, Read};
use std::process::ExitCode;
use std::{env, fmt, io};

const VERSION: &str = "compare 0.1.0\n";

const HELP: &str = "\
compare: are two programs the same, whatever their steps do?

usage: compare --words [FILE]
       compare --help | -h | --version

  --words [FILE]  Each line of FILE (of standard input where there is no FILE, or
                  it is -) is decimal numbers with blanks between them: the words
                  of two programs, one after the other. Each line is answered by a
                  line, 'two programs' or 'no programs: REASON'. In a reason, words
                  are counted from 0, and columns, which are bytes, from 1.

A program as words:                     A test as words:
  0 test          goes on where it        0            always
                  holds                   1            never
  1 number        a step, from 0 to 7     2 number     a test, from 0 to 3
  2 first second  one after the other     3 one other  both of two
  3 one other     either of two           4 one other  any of two
  4 program       again and again         5 test       the opposite

Each program has at most 12 steps and is at most 64 deep; both together have at
most 4096 words. 'while 0 do 1' is 2 4 2 0 2 0 1 1 0 5 2 0.

The status is 0 if every line was answered, and 1 otherwise.
";

// What ended the program early.
#[derive(Drop)]
enum Failure {
    Misused(Misuse),
    Arguments(io::Error),
    Output(io::Error),
    Lines(Source, Trouble),
}

impl fmt::Display for Failure {
    ghost output = { λ f. failure_text f };

    fn fmt<W: fmt::Write>(&self, f: &mut fmt::Formatter<W>) -> fmt::Result {
        match self {
            Failure::Misused(misuse) => write!(f, "{misuse}\nTry 'compare --help'."),
            Failure::Arguments(e) => write!(f, "the arguments: {e}"),
            Failure::Lines(source, Trouble::Input(e)) => write!(f, "{source}: {e}"),
            Failure::Lines(_, Trouble::Output(e)) | Failure::Output(e) => {
                write!(f, "standard output: {e}")
            }
            Failure::Lines(_, Trouble::Memory) => write!(f, "no memory"),
        }
    }
}

fn print(rt: &HostRuntime, text: &str) -> Result<(), Failure> {
    print!(rt; "{text}").map_err(Failure::Output)
}

// Answers the lines of the input.
fn answer<R: Read + Drop>(rt: &HostRuntime, input: R) -> Result<(), Trouble> {
    let mut input = BufReader::new(rt.alloc(), input).map_err(|_| Trouble::Memory)?;
    let mut out = BufWriter::new(rt.alloc(), rt.stdout()).map_err(|_| Trouble::Memory)?;
    answer_lines(&mut input, &mut out, rt.alloc())
}

// Answers the lines of the file of this name.
fn answer_file(rt: &HostRuntime, name: &str) -> Result<(), Trouble> {
    let file = File::open(rt, name).map_err(Trouble::Input)?;
    answer(rt, file)
}

// Answers the lines that come from this source.
fn answer_source(rt: &HostRuntime, source: Source) -> Result<(), Failure> {
    let answered = match &source {
        Source::Stdin => answer(rt, rt.stdin()),
        Source::File(name) => answer_file(rt, name.as_str()),
    };
    answered.map_err(|trouble| Failure::Lines(source, trouble))
}

// Does what is asked for. Three commands that take different things: closures would be no plainer.
fn run(rt: &HostRuntime) -> Result<(), Failure> {
    let args = env::args(rt).map_err(Failure::Arguments)?;
    match command_of(args).map_err(Failure::Misused)? {
        Command::Help => print(rt, HELP),
        Command::Version => print(rt, VERSION),
        Command::Words(source) => answer_source(rt, source),
    }
}

fn main(rt: HostRuntime) -> ExitCode {
    let Err(failure) = run(&rt) else {
        return ExitCode::SUCCESS;
    };
    let _ = eprintln!(rt; "compare: {failure}");
    ExitCode::FAILURE
}
