// The envelope: the signed part, the algorithm again, and the signature.
ghost use Rattle.reader.specs.Readers.{Reads};
ghost use Rattle.envelope.specs.Readings.{envelope_at};

use crate::algorithm::read_algorithm;
use crate::signed::{SignedPlaces, read_signed};
use der::cursor::Cursor;
use der::refusal::{Reason, Refusal};
use der::tag::SEQUENCE;
use reader::kind::Kind;
use reader::leaf::Leaf;
use reader::span::Span;

// Where the signed part stands as a whole, where its fields do, and where the content of the signature does.
#[derive(Clone, Copy)]
pub struct EnvelopePlaces {
    pub signed: Span,
    pub fields: SignedPlaces,
    pub signature: Span,
}

// The envelope of a certificate of a kind. The cursor then stands behind it.
pub fn read_envelope(cursor: &mut Cursor<'_>, kind: Kind) -> Result<EnvelopePlaces, Refusal>
    ensures { Reads (envelope_at kind) cursor.old cursor.new result }
{
    let mut inner = cursor.enter(SEQUENCE)?;
    let from = inner.at;
    let fields = read_signed(&mut inner, kind)?;
    let signed = Span { from, to: inner.at };
    let algorithm = read_algorithm(&mut inner)?;
    if !fields.algorithm.says(inner.file, algorithm.of(inner.file)) {
        return Err(Reason::AlgorithmsDiffer.at(algorithm.from));
    }
    let signature = Leaf::Signature.read(&mut inner)?;
    inner.close()?;
    Ok(EnvelopePlaces {
        signed,
        fields,
        signature,
    })
}
