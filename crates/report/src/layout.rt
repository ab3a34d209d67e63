// Where things stand in a probe report: three sizes of two bytes each, then keys, then details.
ghost use Rattle.std.specs.Prelude.{◌≡◌, ◌+◌, ◌<◌, length};
ghost use Rattle.report.specs.Layout.{two_at};

pub(crate) const SIZES: usize = 6;

pub(crate) const MOST_REPORTED: usize = 240;

pub(crate) const KEY_SIZE: usize = 200;

pub(crate) const DETAILS_SIZE: usize = 66;

// In a key, behind registry and class value.
pub(crate) const MAKER: usize = 5;

pub(crate) const MODEL: usize = 70;

pub(crate) const SERIAL: usize = 135;

// In details, behind the revision.
pub(crate) const REPLACEABLE: usize = 65;

// A text field is a length byte, the text, and zeros up to its size.
pub(crate) const TEXT_FIELD: usize = 65;

pub(crate) const MOST_TEXT: u8 = 64;

// A size: two bytes, high byte first, of any file.
pub(crate) fn two_at(file: &[u8], at: usize) -> usize
    requires { at + 1 < length file.now }
    ensures { result ≡ two_at file.now at }
{
    usize::from(u16::from_be_bytes([file[at], file[at + 1]]))
}
