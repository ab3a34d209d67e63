// The signed part of a certificate.
ghost use Rattle.reader.specs.Readers.{Reads};
ghost use Rattle.envelope.specs.Readings.{signed_at};

use crate::algorithm::read_algorithm;
use crate::attributes::read_attributes;
use crate::extensions::read_extensions;
use crate::names::{ReferencePlaces, read_holder, read_issuer};
use crate::validity::{ValidityPlaces, read_validity};
use der::cursor::Cursor;
use der::refusal::Refusal;
use der::tag::SEQUENCE;
use reader::kind::Kind;
use reader::leaf::Leaf;
use reader::span::Span;

// Where the fields of the signed part stand; of the configuration the whole element.
#[derive(Clone, Copy)]
pub struct SignedPlaces {
    pub holder: ReferencePlaces,
    pub issuer: Span,
    pub algorithm: Span,
    pub serial: Span,
    pub validity: ValidityPlaces,
    pub configuration: Span,
}

#[tactic(auto, unfolding(crate::specs::Readings::signed_at))]
pub(crate) fn read_signed(cursor: &mut Cursor<'_>, kind: Kind) -> Result<SignedPlaces, Refusal>
    ensures { Reads (signed_at kind) cursor.old cursor.new result }
{
    let mut inner = cursor.enter(SEQUENCE)?;
    Leaf::Version.read(&mut inner)?;
    let holder = read_holder(&mut inner)?;
    let issuer = read_issuer(&mut inner)?;
    let algorithm = read_algorithm(&mut inner)?;
    let serial = Leaf::Serial.read(&mut inner)?;
    let validity = read_validity(&mut inner)?;
    let configuration = read_attributes(&mut inner, kind)?;
    read_extensions(&mut inner)?;
    inner.close()?;
    Ok(SignedPlaces {
        holder,
        issuer,
        algorithm,
        serial,
        validity,
        configuration,
    })
}
