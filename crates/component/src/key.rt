// Reading keys, and telling them apart where they stand.
ghost use Rattle.std.specs.Prelude.{◌≡◌};
ghost use Rattle.reader.specs.Readers.{Reads};
ghost use Rattle.component.specs.Readings.{class_at, key_at, same_key, is_new};

use crate::places::{ComponentPlaces, KeyPlaces};
use crate::registry::registry_named;
use der::cursor::Cursor;
use der::refusal::{Reason, Refusal};
use der::tag::SEQUENCE;
use reader::leaf::Leaf;
use reader::span::Span;

// The class: where the registry's identifier and the class value stand.
fn read_class(cursor: &mut Cursor<'_>) -> Result<(Span, Span), Refusal>
    ensures { Reads class_at cursor.old cursor.new result }
{
    let mut content = cursor.enter(SEQUENCE)?;
    let from = content.at;
    let registry = Leaf::Identifier.read(&mut content)?;
    if registry_named(registry.of(content.file)).is_none() {
        return Err(Reason::BadContent.at(from));
    }
    let class = Leaf::Class.read(&mut content)?;
    content.close()?;
    Ok((registry, class))
}

// The key of a component.
pub fn read_key(cursor: &mut Cursor<'_>) -> Result<KeyPlaces, Refusal>
    ensures { Reads key_at cursor.old cursor.new result }
{
    let (registry, class) = read_class(cursor)?;
    let maker = Leaf::Text.read(cursor)?;
    let model = Leaf::Text.read(cursor)?;
    let serial = Leaf::SerialText.read(cursor)?;
    Ok(KeyPlaces {
        registry,
        class,
        maker,
        model,
        serial,
    })
}

// Whether two keys are equal. The serial text comes first: it tells most keys apart. No derive, since places differ where
// keys are equal.
pub fn same_key(file: &[u8], a: &KeyPlaces, b: &KeyPlaces) -> bool
    ensures { result ≡ same_key file.now a.now b.now }
{
    a.serial.of(file) == b.serial.of(file)
        && a.model.of(file) == b.model.of(file)
        && a.maker.of(file) == b.maker.of(file)
        && a.class.of(file) == b.class.of(file)
        && a.registry.of(file) == b.registry.of(file)
}

// Whether no component before has this key; all stand in one file.
pub fn is_new(file: &[u8], seen: &[ComponentPlaces], key: &KeyPlaces) -> bool
    ensures { result ≡ is_new seen.now file.now key.now }
{
    seen.iter()
        .all(|earlier| !same_key(file, &earlier.key, key))
}
