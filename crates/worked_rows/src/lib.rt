//! Rows of worked calls as lines: what was asked, and what was answered.
#![tactic(auto)]

use std::fmt::{self, Display, Formatter, Write};
use std::io;

/// Prints a row: what was asked in words, and the answer.
///
/// # Errors
///
/// Where standard output fails.
pub fn row<T: Display + Copy>(rt: &impl Print, asked: &str, answer: T) -> io::Result<()> {
    println!(rt; "{asked}: {answer}")
}

/// Prints several rows whose answers are of one type.
///
/// # Errors
///
/// Where standard output fails.
pub fn rows<T: Display + Copy>(rt: &impl Print, answers: &[(&str, T)]) -> io::Result<()> {
    for (asked, answer) in answers {
        row(rt, asked, *answer)?;
    }
    Ok(())
}

/// An answer that may be none.
#[derive(Clone, Copy)]
pub struct Maybe<T>(pub Option<T>);

impl<T: Display> Display for Maybe<T> {
    fn fmt<W: Write>(&self, f: &mut Formatter<W>) -> fmt::Result {
        match &self.0 {
            Some(answer) => answer.fmt(f),
            None => f.write_str("none"),
        }
    }
}

/// A list of answers, with a space between two.
#[derive(Clone, Copy)]
pub struct Several<'a, T>(pub &'a [T]);

impl<'a, T: Display> Display for Several<'a, T> {
    fn fmt<W: Write>(&self, f: &mut Formatter<W>) -> fmt::Result {
        if self.0.is_empty() {
            return f.write_str("nothing");
        }
        let mut is_first = true;
        for answer in self.0 {
            if !is_first {
                f.write_str(" ")?;
            }
            is_first = false;
            answer.fmt(f)?;
        }
        Ok(())
    }
}
