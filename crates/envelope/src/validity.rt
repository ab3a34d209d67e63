// The time in which a certificate is valid.
ghost use Rattle.reader.specs.Readers.{Reads};
ghost use Rattle.envelope.specs.Readings.{validity_at};

use der::cursor::Cursor;
use der::refusal::{Reason, Refusal};
use der::tag::SEQUENCE;
use parts::key::calls::bytewise;
use reader::leaf::Leaf;
use reader::span::Span;

// Where the first and the last moment stand.
#[derive(Clone, Copy)]
pub struct ValidityPlaces {
    pub first: Span,
    pub last: Span,
}

pub(crate) fn read_validity(cursor: &mut Cursor<'_>) -> Result<ValidityPlaces, Refusal>
    ensures { Reads validity_at cursor.old cursor.new result }
{
    let mut inner = cursor.enter(SEQUENCE)?;
    let first = Leaf::Time.read(&mut inner)?;
    let last = Leaf::Time.read(&mut inner)?;
    if bytewise(first.of(inner.file), last.of(inner.file)).is_gt() {
        return Err(Reason::BadContent.at(first.to));
    }
    inner.close()?;
    Ok(ValidityPlaces { first, last })
}
