// The key of a part.
ghost use Rattle.std.specs.Prelude.{◌≡◌, length};

pub mod calls;

use crate::bounded::Text;

// The registry that a component's class comes from, with its number in keys.
#[derive(Clone, Copy, PartialEq, Eq, PartialOrd, Ord)]
pub enum Registry {
    Tcg = 1,
    Dmtf = 2,
    Pcie = 3,
    Storage = 4,
}

// No registry has the number.
#[derive(Clone, Copy, Debug, PartialEq, Eq)]
pub struct UnknownRegistry;

// Registry, class value, maker, model and serial text: keys are ordered by these in turn.
#[derive(Clone, Copy, PartialEq, Eq, PartialOrd, Ord)]
pub struct Key {
    registry: Registry,
    class: [u8; 4],
    maker: Text,
    model: Text,
    serial: Text,
    ghost four: { length class ≡ 4 },
}

// The fields of a key that stand in lent bytes; whether they are those of a key is open, so the registry is a number here.
#[derive(Clone, Copy, PartialEq, Eq, PartialOrd, Ord)]
pub struct LentKey<'a> {
    pub registry: u8,
    pub class: &'a [u8],
    pub maker: &'a [u8],
    pub model: &'a [u8],
    pub serial: &'a [u8],
}
