// Reading components.
ghost use Rattle.std.specs.Prelude.{◌≡◌, is_some};
ghost use Rattle.reader.specs.Readers.{Reads, Advances, read};
ghost use Rattle.component.specs.Readings.{late_at, fields_at, last_status, is_asked, component_at, places_behind};

use crate::key::{is_new, read_key};
use crate::places::{ComponentPlaces, KeyPlaces};
use der::cursor::Cursor;
use der::refusal::{Reason, Refusal};
use der::tag::SEQUENCE;
use reader::entries::EntryReader;
use reader::kind::Kind;
use reader::leaf::Leaf;
use reader::span::Span;

// The optional fields from the addresses on: where the status stands, which is the last.
#[tactic(auto, unfolding(crate::specs::Readings::late_at))]
fn read_status(cursor: &mut Cursor<'_>) -> Result<Option<Span>, Refusal>
    ensures { Reads (read last_status late_at) cursor.old cursor.new result }
{
    Leaf::Opaque(0xa4).read_optional(cursor)?;
    Leaf::Opaque(0xa5).read_optional(cursor)?;
    Leaf::Opaque(0xa6).read_optional(cursor)?;
    Leaf::Status.read_optional(cursor)
}

// The optional fields of a component whose key is read.
fn read_fields(cursor: &mut Cursor<'_>, key: KeyPlaces) -> Result<ComponentPlaces, Refusal>
    ensures { Reads (read (places_behind key) fields_at) cursor.old cursor.new result }
{
    let revision = Leaf::Revision.read_optional(cursor)?;
    Leaf::Opaque(0x82).read_optional(cursor)?;
    let replaceable = Leaf::Replaceable.read_optional(cursor)?;
    let status = read_status(cursor)?;
    Ok(ComponentPlaces {
        key,
        revision,
        replaceable,
        status,
    })
}

// Whether a component has a status where its kind asks for one, and none where not.
fn is_asked(kind: Kind, status: Option<Span>) -> bool
    ensures { result ≡ is_asked kind (is_some status) }
{
    match kind {
        Kind::Platform => status.is_none(),
        Kind::Delta => status.is_some(),
    }
}

// The component that begins here, behind those that were read. The cursor then stands behind it.
pub fn read_component(
    cursor: &mut Cursor<'_>,
    kind: Kind,
    seen: &[ComponentPlaces],
) -> Result<ComponentPlaces, Refusal>
    ensures is { Reads (component_at kind seen.now) cursor.old cursor.new result }
    ensures forward { Advances cursor.old cursor.new result }
{
    let at = cursor.at;
    let mut content = cursor.enter(SEQUENCE)?;
    let key = read_key(&mut content)?;
    if !is_new(content.file, seen, &key) {
        return Err(Reason::Repeated.at(at));
    }
    let component = read_fields(&mut content, key)?;
    content.close()?;
    if !is_asked(kind, component.status) {
        return Err(Reason::Status.at(at));
    }
    Ok(component)
}

// Reads the components of a certificate of a kind. Apart from the other reader of a kind, since what they read differs.
#[derive(Clone, Copy)]
pub struct ComponentReader {
    pub kind: Kind,
}

impl EntryReader for ComponentReader {
    type Entry = ComponentPlaces;

    ghost reads = { λ r. component_at r.kind };

    fn read(
        &self,
        seen: &[ComponentPlaces],
        cursor: &mut Cursor<'_>,
    ) -> Result<ComponentPlaces, Refusal> {
        read_component(cursor, self.kind, seen)
    }
}
