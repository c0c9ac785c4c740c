//! A refusal for people.

use refusals::Refusal;
use std::fmt;

/// Shows a refusal with its number.
#[derive(Clone, Copy)]
pub struct Refused(pub Refusal);

impl fmt::Display for Refused {
    fn fmt<W: fmt::Write>(&self, f: &mut fmt::Formatter<W>) -> fmt::Result {
        let refusal = self.0;
        let number = refusal.number();
        write!(f, "refused {number}: {refusal}")
    }
}
