// A certificate in lent bytes.
ghost use Rattle.std.specs.Prelude.{◌≡◌};
ghost use Rattle.certificate.specs.Readings.{reading, nth_of};

use crate::line::{Line, Lines, lines_of};
use crate::places::Places;
use component::list::listed;
use component::meaning::PlacedComponent;
use reader::kind::Kind;

// The file and where its parts stand. Its parts are handed out as parts of the file, each by a call of its own: one
// that took the place would be no plainer where it is called.
#[derive(Clone, Copy)]
pub struct LentCertificate<'a> {
    pub(crate) file: &'a [u8],
    pub(crate) kind: Kind,
    pub(crate) places: Places,
}

impl<'a> LentCertificate<'a> {
    // The signed part as a whole: what the signature is over.
    pub fn signed(&self) -> &'a [u8]
        ensures { result.now ≡ (reading self.now).signed }
    {
        self.places.envelope.signed.of(self.file)
    }

    // The signature, without the byte in front of it that counts unused bits.
    pub fn signature(&self) -> &'a [u8]
        ensures { result.now ≡ (reading self.now).signature }
    {
        let content = self.places.envelope.signature.of(self.file);
        let front = content.len().min(1);
        &content[front..content.len()]
    }

    // The name of the issuer.
    pub fn issuer(&self) -> &'a [u8]
        ensures { result.now ≡ (reading self.now).issuer }
    {
        self.places.envelope.fields.issuer.of(self.file)
    }

    // The content of the serial.
    pub fn serial(&self) -> &'a [u8]
        ensures { result.now ≡ (reading self.now).serial }
    {
        self.places.envelope.fields.serial.of(self.file)
    }

    // The name of the holder's issuer.
    pub fn holder_issuer(&self) -> &'a [u8]
        ensures { result.now ≡ (reading self.now).holder.issuer }
    {
        self.places.envelope.fields.holder.issuer.of(self.file)
    }

    // The content of the holder's serial.
    pub fn holder_serial(&self) -> &'a [u8]
        ensures { result.now ≡ (reading self.now).holder.serial }
    {
        self.places.envelope.fields.holder.serial.of(self.file)
    }

    // The first moment at which the certificate is valid.
    pub fn valid_from(&self) -> &'a [u8]
        ensures { result.now ≡ (reading self.now).validity.first }
    {
        self.places.envelope.fields.validity.first.of(self.file)
    }

    // The last moment at which it is.
    pub fn valid_until(&self) -> &'a [u8]
        ensures { result.now ≡ (reading self.now).validity.last }
    {
        self.places.envelope.fields.validity.last.of(self.file)
    }

    // The components, in the order of the file.
    pub fn components(&self) -> Lines<'a>
        ensures { result ≡ (reading self.now).components }
    {
        lines_of(self.file, self.places.components.list, self.kind)
    }

    // The component with a number from 0, in that order, or none. Those before it are only passed over.
    pub fn component(&self, number: usize) -> Option<Line>
        ensures { result ≡ nth_of number (reading self.now).components }
    {
        let list = self.places.components.list;
        let places = listed(self.file, list, self.kind).nth(number)?;
        Some(Line::from(PlacedComponent {
            file: self.file,
            places,
        }))
    }
}
