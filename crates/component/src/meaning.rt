// What the places of a component mean: its key, details and status.
ghost use Rattle.std.specs.Prelude.{◌≡◌};
ghost use Rattle.parts.specs.Bounds.{content as held};
ghost use Rattle.parts.specs.Keys.{lent_fields};
ghost use Rattle.parts.proofs.Built.{bounded_or, four_or, none, text};
ghost use Rattle.std.specs.Option.{option_map};
ghost use Rattle.der.specs.Contents.{boolean_of};
ghost use Rattle.reader.specs.Readers.{cut};
ghost use Rattle.component.specs.Meaning.{fields_in, key_in, meant, or_empty, details_in, status_of, status_in};

use crate::places::{ComponentPlaces, KeyPlaces};
use crate::registry::registry_named;
use der::content::boolean_of;
use model::part::Status;
use parts::bounded::Revision;
use parts::details::Details;
use parts::key::{Key, LentKey, Registry};

// A text of a key. Bytes that are none count as one byte 0, so every span has an answer.
fn text_of(given: &[u8]) -> &[u8]
    ensures { result.now ≡ held (text given.now) }
{
    match given.len() {
        1..=64 => given,
        _ => &[0],
    }
}

// A class value. Bytes that are none count as zeros.
fn class_of(given: &[u8]) -> [u8; 4]
    ensures { result ≡ four_or given.now }
{
    <[u8; 4]>::try_from(given).unwrap_or([0; 4])
}

fn no_revision() -> Revision
    ensures { result ≡ none }
{
    let Some(revision) = Revision::new(&[]) else {
        unreachable()
    };
    revision
}

// The status that a content stands for.
fn status_named(content: &[u8]) -> Option<Status>
    ensures { result ≡ status_of content.now }
{
    match content {
        [0] => Some(Status::Added),
        [1] => Some(Status::Modified),
        [2] => Some(Status::Removed),
        _ => None,
    }
}

// A key where it stands: its file, and where its fields are in it.
#[derive(Clone, Copy)]
pub struct PlacedKey<'a> {
    pub file: &'a [u8],
    pub places: KeyPlaces,
}

impl<'a> PlacedKey<'a> {
    // Its fields, lent.
    pub fn lent(&self) -> LentKey<'a>
        ensures { lent_fields result ≡ fields_in self.now.file.now self.now.places }
    {
        let places = self.places;
        let registry = registry_named(places.registry.of(self.file)).unwrap_or(Registry::Tcg);
        LentKey {
            registry: u8::from(registry),
            class: places.class.of(self.file),
            maker: places.maker.of(self.file),
            model: places.model.of(self.file),
            serial: places.serial.of(self.file),
        }
    }

    // As a value.
    pub fn key(&self) -> Key
        ensures { result ≡ key_in self.now.file.now self.now.places }
    {
        let lent = self.lent();
        let class = class_of(lent.class);
        let maker = text_of(lent.maker);
        let model = text_of(lent.model);
        let serial = text_of(lent.serial);
        let Ok(key) = Key::new(lent.registry, class, maker, model, serial) else {
            unreachable()
        };
        key
    }
}

// A component where it stands: its file, and where its fields are in it. Apart from a key, since both have a method `key`.
#[derive(Clone, Copy)]
pub struct PlacedComponent<'a> {
    pub file: &'a [u8],
    pub places: ComponentPlaces,
}

impl PlacedComponent<'_> {
    // Its key.
    pub fn key(&self) -> Key
        ensures { result ≡ key_in self.now.file.now self.now.places.key }
    {
        let key = PlacedKey {
            file: self.file,
            places: self.places.key,
        };
        key.key()
    }

    // Its revision, which is empty where no field stands, and where the bytes are too many.
    fn revision(&self) -> Revision
        ensures { result ≡ bounded_or none (or_empty (option_map (cut self.now.file.now) self.now.places.revision)) }
    {
        let content: &[u8] = self.places.revision.map_or(&[], |span| span.of(self.file));
        Revision::new(content).unwrap_or(no_revision())
    }

    // Its details.
    pub fn details(&self) -> Details
        ensures { result ≡ details_in self.now.file.now self.now.places }
    {
        Details {
            revision: self.revision(),
            replaceable: self
                .places
                .replaceable
                .and_then(|span| boolean_of(span.of(self.file))),
        }
    }

    // Its status, where one stands.
    pub fn status(&self) -> Option<Status>
        ensures { result ≡ status_in self.now.file.now self.now.places }
    {
        self.places
            .status
            .and_then(|span| status_named(span.of(self.file)))
    }
}
