// Names, and references to a certificate by its issuer and serial.
ghost use Rattle.reader.specs.Readers.{Reads};
ghost use Rattle.envelope.specs.Readings.{named_at, issuer_at, holder_at};

use der::cursor::Cursor;
use der::refusal::Refusal;
use der::tag::SEQUENCE;
use reader::leaf::Leaf;
use reader::span::Span;

// A reference to a certificate: where the name of its issuer and its serial stand. A head of parts has
// the same fields as values with bounds of their own, so the two share no struct.
#[derive(Clone, Copy)]
pub struct ReferencePlaces {
    pub issuer: Span,
    pub serial: Span,
}

// A SEQUENCE of one name.
fn read_named(cursor: &mut Cursor<'_>) -> Result<Span, Refusal>
    ensures { Reads named_at cursor.old cursor.new result }
{
    let mut inner = cursor.enter(SEQUENCE)?;
    let name = Leaf::Name.read(&mut inner)?;
    inner.close()?;
    Ok(name)
}

// The issuer of a certificate.
pub(crate) fn read_issuer(cursor: &mut Cursor<'_>) -> Result<Span, Refusal>
    ensures { Reads issuer_at cursor.old cursor.new result }
{
    let mut inner = cursor.enter(0xa0)?;
    let name = read_named(&mut inner)?;
    inner.close()?;
    Ok(name)
}

// The holder of a certificate: a reference to another one.
pub(crate) fn read_holder(cursor: &mut Cursor<'_>) -> Result<ReferencePlaces, Refusal>
    ensures { Reads holder_at cursor.old cursor.new result }
{
    let mut outer = cursor.enter(SEQUENCE)?;
    let mut inner = outer.enter(0xa0)?;
    let issuer = read_named(&mut inner)?;
    let serial = Leaf::Serial.read(&mut inner)?;
    inner.close()?;
    outer.close()?;
    Ok(ReferencePlaces { issuer, serial })
}
