// Text of which a terminal takes nothing for an order.

use std::fmt;
use std::fmt::{Display, Formatter};

/// A text whose control characters are printed as escapes, as `\u{1b}`.
#[derive(Clone, Copy, Drop)]
pub struct Escaped<'a> {
    pub text: &'a str,
}

impl Display for Escaped<'_> {
    fn fmt<W: fmt::Write>(&self, f: &mut Formatter<W>) -> fmt::Result {
        for letter in self.text.chars() {
            if letter.is_control() {
                let number = letter as u32;
                write!(f, "\\u{{{number:x}}}")?;
            } else {
                f.write_char(letter)?;
            }
        }
        Ok(())
    }
}
