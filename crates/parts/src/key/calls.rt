// Making, reading and comparing keys.
ghost use Rattle.std.specs.Prelude.{◌≡◌};
ghost use Rattle.std.specs.Result.{result_ok};
ghost use Rattle.parts.specs.Bytewise.{lexed};
ghost use Rattle.parts.specs.Keys.{registry_of, number_of, fields_of, lent_fields, in_turn, said, read, key_of, order};

use crate::bounded::Text;
use crate::key::{Key, LentKey, Registry, UnknownRegistry};
use der::refusal::{Reason, Refusal};
use std::cmp::Ordering;

impl TryFrom<u8> for Registry {
    type Error = UnknownRegistry;

    ghost try_from_gives = { λ number answer. result_ok answer ≡ registry_of number };

    fn try_from(number: u8) -> Result<Registry, UnknownRegistry> {
        match number {
            1 => Ok(Registry::Tcg),
            2 => Ok(Registry::Dmtf),
            3 => Ok(Registry::Pcie),
            4 => Ok(Registry::Storage),
            _ => Err(UnknownRegistry),
        }
    }
}

impl From<Registry> for u8 {
    ghost from_gives = { λ registry number. number ≡ number_of registry };

    fn from(registry: Registry) -> u8 {
        registry as u8
    }
}

// Byte by byte, a proper beginning first. The library's order, with a clause of its own that other contracts cite.
pub fn bytewise(a: &[u8], b: &[u8]) -> Ordering
    ensures { result ≡ lexed a.now b.now }
{
    a.cmp(&b)
}

impl Key {
    // The key with these fields. The first faulty one is refused, at its number from 0; so the registry comes as a number,
    // which may be none.
    pub fn new(
        registry: u8,
        class: [u8; 4],
        maker: &[u8],
        model: &[u8],
        serial: &[u8],
    ) -> Result<Key, Refusal>
        ensures { read result ≡ key_of (said registry class maker.now model.now serial.now) }
    {
        let registry = Registry::try_from(registry).map_err(|_| Reason::BadContent.at(0))?;
        let maker = Text::new(maker).ok_or(Reason::TextSize.at(2))?;
        let model = Text::new(model).ok_or(Reason::TextSize.at(3))?;
        let serial = Text::new(serial).ok_or(Reason::TextSize.at(4))?;
        Ok(Key {
            registry,
            class,
            maker,
            model,
            serial,
        })
    }

    // The registry that its class comes from.
    pub fn registry(&self) -> Registry
        ensures { result ≡ self.now.registry }
    {
        self.registry
    }

    // The fields, lent.
    pub fn fields(&self) -> LentKey<'_>
        ensures { lent_fields result ≡ fields_of self.now }
    {
        LentKey {
            registry: u8::from(self.registry),
            class: &self.class,
            maker: self.maker.held(),
            model: self.model.held(),
            serial: self.serial.held(),
        }
    }

    // Against a key that stands in lent bytes.
    pub fn against(&self, other: LentKey<'_>) -> Ordering
        ensures { result ≡ in_turn (fields_of self.now) (lent_fields other.entry) }
    {
        self.fields().compare_lent(other)
    }

    // The order of keys. Beside `cmp`, since a derived one has no clause in terms of the definition.
    pub fn compare(&self, other: &Key) -> Ordering
        ensures { result ≡ order self.now other.now }
    {
        self.cmp(other)
    }
}

impl LentKey<'_> {
    // By the fields in turn: each is compared only where the ones before it are equal. Beside `cmp`, as above.
    pub fn compare_lent(self, other: LentKey<'_>) -> Ordering
        ensures { result ≡ in_turn (lent_fields self.entry) (lent_fields other.entry) }
    {
        self.cmp(&other)
    }
}
