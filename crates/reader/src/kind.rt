// The kinds of certificate.
ghost use Rattle.std.specs.Prelude.{◌≡◌};
ghost use Rattle.reader.specs.Kinds.{other};

// The two kinds of certificate. They have one form, and differ in the identifier of their type, in how many components
// they list, and in whether a component has a status.
#[derive(Clone, Copy, PartialEq, Eq)]
pub enum Kind {
    Platform,
    Delta,
}

impl Kind {
    // The other one.
    pub fn other(self) -> Kind
        ensures { result ≡ other self }
    {
        match self {
            Kind::Platform => Kind::Delta,
            Kind::Delta => Kind::Platform,
        }
    }
}
