// A list as it is told: its values in brackets, of which more than four equal ones in a row are told once, with their count.

use std::fmt::{self, Display, Formatter};

#[derive(Clone, Copy, Debug)]
pub(crate) struct List<'a, T>(pub(crate) &'a [T]);

// A word is told in decimal, a byte in document 01's hexadecimal.
pub(crate) trait Value: PartialEq {
    fn tell<W: fmt::Write>(&self, f: &mut Formatter<W>) -> fmt::Result;
}

impl Value for u64 {
    fn tell<W: fmt::Write>(&self, f: &mut Formatter<W>) -> fmt::Result {
        write!(f, "{self}")
    }
}

impl Value for u8 {
    fn tell<W: fmt::Write>(&self, f: &mut Formatter<W>) -> fmt::Result {
        write!(f, "{self:02X}")
    }
}

impl<T: Value> Display for List<'_, T> {
    fn fmt<W: fmt::Write>(&self, f: &mut Formatter<W>) -> fmt::Result {
        write!(f, "[")?;
        for (i, run) in self.0.chunk_by(|a, b| a == b).enumerate() {
            if i > 0 {
                write!(f, " ")?;
            }
            tell_run(f, run)?;
        }
        write!(f, "]")
    }
}

// Equal values in a row.
fn tell_run<T: Value, W: fmt::Write>(f: &mut Formatter<W>, run: &[T]) -> fmt::Result {
    if let [value, _, _, _, _, ..] = run {
        value.tell(f)?;
        return write!(f, " x{}", run.len());
    }
    for (i, value) in run.iter().enumerate() {
        if i > 0 {
            write!(f, " ")?;
        }
        value.tell(f)?;
    }
    Ok(())
}
