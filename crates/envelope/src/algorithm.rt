// The algorithm of a signature.
ghost use Rattle.reader.specs.Readers.{Reads};
ghost use Rattle.envelope.specs.Readings.{algorithm_at};

use der::cursor::Cursor;
use der::refusal::Refusal;
use der::tag::SEQUENCE;
use reader::leaf::{Leaf, pass_over_any};
use reader::span::Span;

// An identifier and at most one element passed over: where the whole stands.
pub(crate) fn read_algorithm(cursor: &mut Cursor<'_>) -> Result<Span, Refusal>
    ensures { Reads algorithm_at cursor.old cursor.new result }
{
    let from = cursor.at;
    let mut inner = cursor.enter(SEQUENCE)?;
    Leaf::Identifier.read(&mut inner)?;
    pass_over_any(&mut inner)?;
    inner.close()?;
    Ok(Span {
        from,
        to: inner.end,
    })
}
