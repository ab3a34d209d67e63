// Entries of attributes and extensions.
ghost use Rattle.std.specs.Prelude.{◌≡◌};
ghost use Rattle.reader.specs.Readers.{Reads, entries_of};
ghost use Rattle.envelope.specs.Readings.{value_in, new_identifier_at, required_at};

use arrayvec::ArrayVec;
use der::cursor::Cursor;
use der::refusal::{Reason, Refusal};
use der::tag::SEQUENCE;
use reader::entries::{EntryReader, read_list};
use reader::leaf::Leaf;
use reader::span::Span;

// The most attributes of a certificate, and the most extensions.
const MOST_ENTRIES: usize = 16;

// Where the identifier stands, and where its value does as a whole.
#[derive(Clone, Copy, Default)]
pub struct EntryPlaces {
    pub identifier: Span,
    pub value: Span,
}

// The value of the first entry with this identifier, or none; all stand in one file.
pub(crate) fn value_in(file: &[u8], entries: &[EntryPlaces], identifier: &[u8]) -> Option<Span>
    ensures { result ≡ value_in file.now identifier.now entries.now }
{
    entries
        .iter()
        .find(|entry| entry.identifier.says(file, identifier))
        .map(|entry| entry.value)
}

// An identifier that no entry before has, else refused at the entry.
pub(crate) fn read_new_identifier(
    cursor: &mut Cursor<'_>,
    seen: &[EntryPlaces],
    entry: usize,
) -> Result<Span, Refusal>
    ensures { Reads (new_identifier_at entry seen.now) cursor.old cursor.new result }
{
    let identifier = Leaf::Identifier.read(cursor)?;
    if value_in(cursor.file, seen, identifier.of(cursor.file)).is_some() {
        return Err(Reason::Repeated.at(entry));
    }
    Ok(identifier)
}

// A list of entries with the three that are required.
pub(crate) fn read_required<R: EntryReader<Entry = EntryPlaces>>(
    reader: &R,
    cursor: &mut Cursor<'_>,
    first: &[u8],
    second: &[u8],
    third: &[u8],
) -> Result<ArrayVec<EntryPlaces, MOST_ENTRIES>, Refusal>
    ensures { Reads (required_at first.now second.now third.now (R.EntryReader.reads reader.now)) cursor.old cursor.new (entries_of result) }
{
    let file = cursor.file;
    let at = cursor.at;
    let entries = read_list(reader, cursor, SEQUENCE)?;
    let there = entries.as_slice();
    if value_in(file, there, first).is_none()
        || value_in(file, there, second).is_none()
        || value_in(file, there, third).is_none()
    {
        return Err(Reason::EntryMissing.at(at));
    }
    Ok(entries)
}
