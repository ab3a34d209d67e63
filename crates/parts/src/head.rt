// The head of a certified inventory.
ghost use Rattle.std.specs.Prelude.{◌≡◌, Decides};

use crate::bounded::{Name, Serial};

// The issuer and the serial of the certificate that an inventory has been brought to.
#[derive(Clone, Copy, PartialEq, Eq)]
pub struct Head {
    pub issuer: Name,
    pub serial: Serial,
}

impl Head {
    // Whether two heads are the same: issuer and serial. Beside `==`, since a derived one has no clause that says so.
    pub fn same(&self, other: &Head) -> bool
        ensures { Decides result (self.now ≡ other.now) }
    {
        self == other
    }
}
