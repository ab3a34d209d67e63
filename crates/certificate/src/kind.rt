// The kinds of certificate as types, so that what a program holds says of which kind it is.
ghost use Rattle.std.specs.Prelude.{◌≡◌};
ghost use Rattle.reader.specs.declared.kind.Kind.{Kind};
ghost use Rattle.reader.specs.declared.kind.Kind.TheVariants as is;

use reader::kind::Kind;

// A type that stands for a kind.
pub trait OfKind {
    ghost kind: { Kind };

    fn kind() -> Kind
        ensures { result ≡ kind };
}

// Platform certificates.
#[derive(Clone, Copy)]
pub struct Platform {}

impl OfKind for Platform {
    ghost kind = { is.Platform };

    fn kind() -> Kind {
        Kind::Platform
    }
}

// Delta certificates.
#[derive(Clone, Copy)]
pub struct Delta {}

impl OfKind for Delta {
    ghost kind = { is.Delta };

    fn kind() -> Kind {
        Kind::Delta
    }
}
