// What can go wrong in a session, as it is told on standard error.
use std::alloc::{AllocError, Global};
use std::io;
use thiserror::Error;

// What is wrong with a line.
#[derive(Clone, Copy, Debug, Error)]
pub enum Flaw {
    #[error("cannot read")]
    Unreadable,
    #[error("unit must come first")]
    NotUnit,
    #[error("a second unit")]
    SecondUnit,
    #[error("mask after other calls")]
    LateMask,
    #[error("two masks are laid already")]
    ThirdMask,
    #[error("cannot read the file")]
    NoFile,
    #[error("cannot write the file")]
    NotWritten,
    #[error("out of memory")]
    Memory(#[from(alloc)] AllocError),
}

// A line of a session as errors name it.
#[derive(Clone, Copy)]
pub struct Line<'a> {
    pub number: usize,
    pub text: &'a str,
}

#[derive(Debug, Drop, Error)]
pub enum Fault {
    #[error("out of memory")]
    Memory(#[from(alloc)] AllocError),
    #[error(transparent)]
    Io(#[from] io::Error),
    #[error("line {number}: {flaw}: {text}")]
    Line {
        number: usize,
        flaw: Flaw,
        text: String,
    },
}

impl Line<'_> {
    pub fn fault(self, heap: Global, flaw: Flaw) -> Fault {
        match String::from_str(heap, self.text) {
            Ok(text) => Fault::Line {
                number: self.number,
                flaw,
                text,
            },
            Err(error) => Fault::Memory(error),
        }
    }
}
