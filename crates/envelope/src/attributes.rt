// The attributes of a certificate.
ghost use Rattle.reader.specs.Readers.{Reads, cut};
ghost use Rattle.envelope.specs.Readings.{kind_at, type_at, value_at, attribute_at, attributes_at};

use crate::entry::{EntryPlaces, read_new_identifier, read_required, value_in};
use crate::identifiers::{
    CREDENTIAL_SPECIFICATION, CREDENTIAL_TYPE, PLATFORM_CONFIGURATION, type_of,
};
use der::cursor::Cursor;
use der::refusal::{Reason, Refusal};
use der::tag::{SEQUENCE, SET};
use reader::entries::EntryReader;
use reader::kind::Kind;
use reader::leaf::{Leaf, pass_over};
use reader::span::Span;

// The identifier of the wanted kind of certificate.
fn read_kind(cursor: &mut Cursor<'_>, kind: Kind) -> Result<Span, Refusal>
    ensures { Reads (kind_at kind) cursor.old cursor.new result }
{
    let at = cursor.at;
    let identifier = Leaf::Identifier.read(cursor)?;
    let own = identifier.says(cursor.file, &type_of(kind));
    if !own && !identifier.says(cursor.file, &type_of(kind.other())) {
        return Err(Reason::BadContent.at(at));
    }
    if !own {
        return Err(Reason::OtherKind.at(at));
    }
    Ok(identifier)
}

// The element that says which kind of certificate this is.
fn read_type(cursor: &mut Cursor<'_>, kind: Kind) -> Result<Span, Refusal>
    ensures { Reads (type_at kind) cursor.old cursor.new result }
{
    let from = cursor.at;
    let mut inner = cursor.enter(SEQUENCE)?;
    read_kind(&mut inner, kind)?;
    inner.close()?;
    Ok(Span {
        from,
        to: inner.end,
    })
}

// The element of an attribute: the type is read, any other is passed over.
fn read_value(cursor: &mut Cursor<'_>, kind: Kind, identifier: Span) -> Result<Span, Refusal>
    ensures { Reads (value_at kind (cut cursor.old.file.now identifier)) cursor.old cursor.new result }
{
    if identifier.says(cursor.file, &CREDENTIAL_TYPE) {
        return read_type(cursor, kind);
    }
    pass_over(cursor)
}

// The attributes of one kind of certificate. Apart from the other reader of a kind, since what they read differs.
#[derive(Clone, Copy)]
pub(crate) struct AttributeReader {
    pub kind: Kind,
}

impl EntryReader for AttributeReader {
    type Entry = EntryPlaces;

    ghost reads = { λ x. attribute_at x.kind };

    fn read(&self, seen: &[EntryPlaces], cursor: &mut Cursor<'_>) -> Result<EntryPlaces, Refusal> {
        let at = cursor.at;
        let mut inner = cursor.enter(SEQUENCE)?;
        let identifier = read_new_identifier(&mut inner, seen, at)?;
        let mut values = inner.enter(SET)?;
        let value = read_value(&mut values, self.kind, identifier)?;
        values.close()?;
        inner.close()?;
        Ok(EntryPlaces { identifier, value })
    }
}

// The attributes: where the configuration's element stands.
pub(crate) fn read_attributes(cursor: &mut Cursor<'_>, kind: Kind) -> Result<Span, Refusal>
    ensures { Reads (attributes_at kind) cursor.old cursor.new result }
{
    let attributes = read_required(
        &AttributeReader { kind },
        cursor,
        &CREDENTIAL_TYPE,
        &CREDENTIAL_SPECIFICATION,
        &PLATFORM_CONFIGURATION,
    )?;
    let configuration = value_in(cursor.file, attributes.as_slice(), &PLATFORM_CONFIGURATION);
    Ok(configuration.unwrap_or_default())
}
