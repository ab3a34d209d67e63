// The extensions of a certificate.
ghost use Rattle.reader.specs.Readers.{Reads};
ghost use Rattle.envelope.specs.Readings.{extension_at, extensions_at};

use crate::entry::{EntryPlaces, read_new_identifier, read_required};
use crate::identifiers::{AUTHORITY_KEY_IDENTIFIER, CERTIFICATE_POLICIES, SUBJECT_ALT_NAME};
use der::cursor::Cursor;
use der::refusal::{Reason, Refusal};
use der::tag::SEQUENCE;
use reader::entries::EntryReader;
use reader::leaf::Leaf;

// Extensions of which only the policies may be critical.
#[derive(Clone, Copy)]
pub(crate) struct ExtensionReader {}

impl EntryReader for ExtensionReader {
    type Entry = EntryPlaces;

    ghost reads = { λ _. extension_at };

    fn read(&self, seen: &[EntryPlaces], cursor: &mut Cursor<'_>) -> Result<EntryPlaces, Refusal> {
        let at = cursor.at;
        let mut inner = cursor.enter(SEQUENCE)?;
        let identifier = read_new_identifier(&mut inner, seen, at)?;
        let critical = Leaf::Critical.read_optional(&mut inner)?;
        let value = Leaf::Opaque(0x04).read(&mut inner)?;
        inner.close()?;
        if critical.is_some() && !identifier.says(inner.file, &CERTIFICATE_POLICIES) {
            return Err(Reason::CriticalMark.at(at));
        }
        Ok(EntryPlaces { identifier, value })
    }
}

// The extensions; nothing of them is kept.
pub(crate) fn read_extensions(cursor: &mut Cursor<'_>) -> Result<(), Refusal>
    ensures { Reads extensions_at cursor.old cursor.new result }
{
    read_required(
        &ExtensionReader {},
        cursor,
        &SUBJECT_ALT_NAME,
        &CERTIFICATE_POLICIES,
        &AUTHORITY_KEY_IDENTIFIER,
    )?;
    Ok(())
}
