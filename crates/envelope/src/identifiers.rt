// The content bytes of the object identifiers that are looked for.
ghost use Rattle.std.specs.Prelude.{◌≡◌};
ghost use Rattle.envelope.specs.Identifiers.{type_of};

use reader::kind::Kind;

// 2.23.133.2.25
pub(crate) const CREDENTIAL_TYPE: [u8; 5] = [0x67, 0x81, 0x05, 0x02, 0x19];

// 2.23.133.2.23
pub(crate) const CREDENTIAL_SPECIFICATION: [u8; 5] = [0x67, 0x81, 0x05, 0x02, 0x17];

// 2.23.133.5.1.7.2
pub(crate) const PLATFORM_CONFIGURATION: [u8; 7] = [0x67, 0x81, 0x05, 0x05, 0x01, 0x07, 0x02];

// 2.23.133.8.2
pub(crate) const PLATFORM_TYPE: [u8; 5] = [0x67, 0x81, 0x05, 0x08, 0x02];

// 2.23.133.8.5
pub(crate) const DELTA_TYPE: [u8; 5] = [0x67, 0x81, 0x05, 0x08, 0x05];

// 2.5.29.17
pub(crate) const SUBJECT_ALT_NAME: [u8; 3] = [0x55, 0x1d, 0x11];

// 2.5.29.32
pub(crate) const CERTIFICATE_POLICIES: [u8; 3] = [0x55, 0x1d, 0x20];

// 2.5.29.35
pub(crate) const AUTHORITY_KEY_IDENTIFIER: [u8; 3] = [0x55, 0x1d, 0x23];

// The type of a kind of certificate.
pub(crate) fn type_of(kind: Kind) -> [u8; 5]
    ensures { result ≡ type_of kind }
{
    match kind {
        Kind::Platform => PLATFORM_TYPE,
        Kind::Delta => DELTA_TYPE,
    }
}
