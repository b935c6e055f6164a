// What the command line asks for.
ghost use Rattle.std.specs.Prelude.{Some, drop, MatchResult};
ghost use Rattle.std.specs.Vec.Iter.{into_iter_items};
ghost use Rattle.compare.specs.Messages.{misuse_text, source_text};
ghost use Rattle.compare.specs.CommandLine.{Asked, NamedSource, NotAsked, Understood};

use std::env::Args;
use std::fmt;

// Where the lines come from. An `Option` of a name would have no text for standard input.
#[derive(Drop)]
pub enum Source {
    Stdin,
    File(String),
}

#[derive(Drop)]
pub enum Command {
    Help,
    Version,
    Words(Source),
}

// Why the command line asks for nothing that can be done.
#[derive(Drop)]
pub enum Misuse {
    Nothing,
    Unknown(String),
    TooMany(String),
}

// The command that the arguments are, the program's own name first.
pub fn command_of(mut args: Args) -> Result<Command, Misuse>
    ensures { Understood (drop 1 (into_iter_items args)) result }
{
    let _ = args.next();
    let Some(option) = args.next() else {
        return Err(Misuse::Nothing);
    };
    let command = command_for(option, &mut args)?;
    match args.next() {
        Some(more) => Err(Misuse::TooMany(more)),
        None => Ok(command),
    }
}

// The command that the option asks for, with what follows it where it takes that.
fn command_for(option: String, args: &mut Args) -> Result<Command, Misuse>
    ensures { MatchResult result (λ c. Asked option (into_iter_items args.old) c (into_iter_items args.new)) (NotAsked option (into_iter_items args.old)) }
{
    match option.as_str() {
        "--help" | "-h" => Ok(Command::Help),
        "--version" => Ok(Command::Version),
        "--words" => match args.next() {
            Some(name) => Ok(Command::Words(Source::try_from(name)?)),
            None => Ok(Command::Words(Source::Stdin)),
        },
        _ => Err(Misuse::Unknown(option)),
    }
}

// The source of this name. What else begins as an option does is not taken for a file.
impl TryFrom<String> for Source {
    type Error = Misuse;

    ghost try_from_gives = { NamedSource };

    fn try_from(name: String) -> Result<Source, Misuse> {
        if name.as_str() == "-" {
            Ok(Source::Stdin)
        } else if name.as_str().starts_with('-') {
            Err(Misuse::Unknown(name))
        } else {
            Ok(Source::File(name))
        }
    }
}

impl fmt::Display for Misuse {
    ghost output = { λ m. Some (misuse_text m) };

    fn fmt<W: fmt::Write>(&self, f: &mut fmt::Formatter<W>) -> fmt::Result {
        match self {
            Misuse::Nothing => write!(f, "nothing is asked for"),
            Misuse::Unknown(option) => write!(f, "not understood: {option}"),
            Misuse::TooMany(more) => write!(f, "one argument too many: {more}"),
        }
    }
}

impl fmt::Display for Source {
    ghost output = { λ s. Some (source_text s) };

    fn fmt<W: fmt::Write>(&self, f: &mut fmt::Formatter<W>) -> fmt::Result {
        match self {
            Source::Stdin => write!(f, "standard input"),
            Source::File(name) => write!(f, "{name}"),
        }
    }
}
