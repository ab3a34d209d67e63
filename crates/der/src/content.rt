// The rules of contents.
ghost use Rattle.std.specs.Prelude.{◌≡◌, Decides};
ghost use Rattle.der.specs.Contents.{Integer, is_integer, Serial, is_serial, Boolean, boolean_of, Identifier, is_identifier};

// The most content bytes of a serial.
const MOST_SERIAL_BYTES: usize = 20;

// Whether bytes are the content of an INTEGER: not empty, and the first nine bits not all equal.
pub fn is_integer(content: &[u8]) -> bool
    ensures is { result ≡ is_integer content.now }
    ensures means { Decides result (Integer content.now) }
{
    match content {
        [] => false,
        [_] => true,
        [0x00, second, ..] => *second >= 0x80,
        [0xff, second, ..] => *second < 0x80,
        _ => true,
    }
}

// Whether bytes are a serial: the content of a positive INTEGER, and not too long.
pub fn is_serial(content: &[u8]) -> bool
    ensures is { result ≡ is_serial content.now }
    ensures means { Decides result (Serial content.now) }
{
    is_integer(content)
        && content.len() <= MOST_SERIAL_BYTES
        && content[0] < 0x80
        && (content.len() > 1 || content[0] > 0)
}

// The truth value of a BOOLEAN's content, or none where it is no such content.
pub fn boolean_of(content: &[u8]) -> Option<bool>
    ensures is { result ≡ boolean_of content.now }
    ensures means { Boolean content.now result }
{
    match content {
        [0xff] => Some(true),
        [0x00] => Some(false),
        _ => None,
    }
}

// Whether bytes are the content of an OBJECT IDENTIFIER.
pub fn is_identifier(content: &[u8]) -> bool
    ensures is { result ≡ is_identifier content.now }
    ensures means { Decides result (Identifier content.now) }
{
    if content.is_empty() {
        return false;
    }
    let mut last = 0u8;
    for byte in content {
        if *byte == 0x80 && last < 0x80 {
            return false;
        }
        last = *byte;
    }
    last < 0x80
}

// Whether an identifier that was read is the one wanted: the content bytes are the same. One call of the library's `==`, of
// which no clause says at the call what it decides.
pub fn same_identifier(content: &[u8], wanted: &[u8]) -> bool
    ensures { Decides result (content.now ≡ wanted.now) }
{
    content == wanted
}
