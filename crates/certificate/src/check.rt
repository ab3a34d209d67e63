// The check of a certificate.
ghost use Rattle.std.specs.Prelude.{◌≡◌};
ghost use Rattle.certificate.specs.Checks.{envelope_of, components_of, checked};
ghost use Rattle.certificate.specs.Profile.{OneKind};
ghost use Rattle.certificate.specs.Readings.{Told};

use crate::kind::OfKind;
use crate::places::Places;
use component::configuration::read_configuration;
use component::places::Components;
use der::cursor::Cursor;
use der::refusal::{Reason, Refusal};
use envelope::envelope::{EnvelopePlaces, read_envelope};
use reader::kind::Kind;

// The most bytes of a certificate's file.
const MOST_BYTES: usize = 32768;

// Whether a file is a certificate of a kind, and where its parts stand.
pub fn check<K: OfKind>(file: &[u8]) -> Result<Places, Refusal>
    ensures is { result ≡ checked K.kind file.now }
    ensures told { Told K.kind file.now result }
    ensures one { OneKind file.now }
{
    check_kind(file, K::kind())
}

#[tactic(auto, unfolding(crate::specs::Checks::checked))]
fn check_kind(file: &[u8], kind: Kind) -> Result<Places, Refusal>
    ensures { result ≡ checked kind file.now }
{
    let envelope = check_envelope(file, kind)?;
    let components = check_components(file, kind, envelope)?;
    Ok(Places {
        envelope,
        components,
    })
}

// The envelope, with nothing behind it.
fn check_envelope(file: &[u8], kind: Kind) -> Result<EnvelopePlaces, Refusal>
    ensures { result ≡ envelope_of kind file.now }
{
    if file.len() > MOST_BYTES {
        return Err(Reason::FileTooLong.at(0));
    }
    let mut cursor = Cursor::new(file);
    let envelope = read_envelope(&mut cursor, kind)?;
    cursor.close()?;
    Ok(envelope)
}

// The components, which are read last, in the file that the envelope was read of.
fn check_components(
    file: &[u8],
    kind: Kind,
    envelope: EnvelopePlaces,
) -> Result<Components, Refusal>
    ensures { result ≡ components_of kind file.now envelope }
{
    let place = envelope.fields.configuration;
    let mut cursor = Cursor {
        file,
        at: place.from,
        end: place.to,
    };
    read_configuration(&mut cursor, kind)
}
