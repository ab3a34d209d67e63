// What a command fails with, and how that is printed.
use crate::notation::Notation;
use der::refusal::Refusal;
use std::alloc::{AllocError, AllocFailed};
use std::{fmt, io};

// Written out and not derived by `thiserror`, which asks every field to be `Debug`.
#[derive(Drop)]
pub enum Problem {
    // The command line is not understood.
    Misused(&'static str),
    UnknownCommand(String),
    // The only file is refused.
    Refused(Refusal),
    OfFile { path: String, fault: Fault },
    // Printing failed, or memory ran out.
    Io(io::Error),
}

// What is wrong with a file that is named with it.
#[derive(Drop)]
pub enum Fault {
    Unreadable(io::Error),
    Refused(Refusal),
}

impl Problem {
    // A refusal is an answer and goes to standard output, all else to standard error.
    pub fn print(&self, rt: &HostRuntime) -> io::Result<()> {
        match self {
            Problem::Refused(_)
            | Problem::OfFile {
                fault: Fault::Refused(_),
                ..
            } => println!(rt; "{self}"),
            _ => eprintln!(rt; "rosuklam: {self}"),
        }
    }
}

impl fmt::Display for Problem {
    fn fmt<W: fmt::Write>(&self, f: &mut fmt::Formatter<W>) -> fmt::Result {
        match self {
            Problem::Misused(what) => write!(f, "{what}; try 'rosuklam --help'"),
            Problem::UnknownCommand(name) => write!(
                f,
                "unknown command '{name}'; try 'rosuklam --help'"
            ),
            Problem::Refused(refusal) => write!(f, "{}", Notation(refusal)),
            Problem::OfFile { path, fault } => match fault {
                Fault::Unreadable(error) => write!(f, "cannot read {path}: {error}"),
                Fault::Refused(refusal) => write!(f, "{path}: {}", Notation(refusal)),
            },
            Problem::Io(error) => write!(f, "{error}"),
        }
    }
}

impl From<Refusal> for Problem {
    fn from(refusal: Refusal) -> Problem {
        Problem::Refused(refusal)
    }
}

impl From<io::Error> for Problem {
    fn from(error: io::Error) -> Problem {
        Problem::Io(error)
    }
}

impl From<AllocError> for Problem {
    fn from(error: AllocError) -> Problem {
        Problem::Io(io::Error::from(error))
    }
}

impl<T: Drop> From<AllocFailed<T>> for Problem {
    fn from(failed: AllocFailed<T>) -> Problem {
        Problem::from(AllocError::from(failed))
    }
}
