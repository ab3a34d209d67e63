// The details of a part.
ghost use Rattle.std.specs.Prelude.{◌≡◌, Decides};
ghost use Rattle.parts.specs.Details.{read_details, details_of};

use crate::bounded::Revision;
use der::refusal::{Reason, Refusal};

// The revision, missing where its length is 0, and whether the part can be replaced, where that is known.
#[derive(Clone, Copy, PartialEq, Eq)]
pub struct Details {
    pub revision: Revision,
    pub replaceable: Option<bool>,
}

impl Details {
    // Details of a revision and a number: 0 for a missing replaceable, 1 for no, 2 for yes. The first faulty field is
    // refused, at its number from 0; so what says whether the part can be replaced comes as a number, which may say
    // nothing.
    pub fn new(revision: &[u8], replaceable: u8) -> Result<Details, Refusal>
        ensures { read_details result ≡ details_of revision.now replaceable }
    {
        let revision = Revision::new(revision).ok_or(Reason::TextSize.at(0))?;
        let replaceable = match replaceable {
            0 => None,
            1 => Some(false),
            2 => Some(true),
            _ => return Err(Reason::BadContent.at(1)),
        };
        Ok(Details {
            revision,
            replaceable,
        })
    }

    // Whether two parts have the same details. Beside `==`, since a derived one has no clause
    // that says so at the call; a trait for this and for heads would need a law, whose proof would have to stand in specs/.
    pub fn same(&self, other: &Details) -> bool
        ensures { Decides result (self.now ≡ other.now) }
    {
        self == other
    }
}
