// How keys, details and parts are written.
use model::part::Part;
use parts::details::Details;
use parts::key::{Key, Registry};
use std::fmt;

// A value as the program writes it.
#[derive(Clone, Copy)]
pub struct Notation<'a, T>(pub &'a T);

// REGISTRY:CLASS:MAKER:MODEL:SERIAL
impl fmt::Display for Notation<'_, Key> {
    fn fmt<W: fmt::Write>(&self, f: &mut fmt::Formatter<W>) -> fmt::Result {
        let registry = match self.0.registry() {
            Registry::Tcg => "tcg",
            Registry::Dmtf => "dmtf",
            Registry::Pcie => "pcie",
            Registry::Storage => "storage",
        };
        let fields = self.0.fields();
        let class = Hex(fields.class);
        let maker = Escaped(fields.maker);
        let model = Escaped(fields.model);
        let serial = Escaped(fields.serial);
        write!(f, "{registry}:{class}:{maker}:{model}:{serial}")
    }
}

// revision=TEXT replaceable=yes|no|-
impl fmt::Display for Notation<'_, Details> {
    fn fmt<W: fmt::Write>(&self, f: &mut fmt::Formatter<W>) -> fmt::Result {
        let revision = Escaped(self.0.revision.held());
        let replaceable = match self.0.replaceable {
            None => "-",
            Some(true) => "yes",
            Some(false) => "no",
        };
        write!(f, "revision={revision} replaceable={replaceable}")
    }
}

// The details of what is found, or none.
impl fmt::Display for Notation<'_, Option<Details>> {
    fn fmt<W: fmt::Write>(&self, f: &mut fmt::Formatter<W>) -> fmt::Result {
        match *self.0 {
            Some(details) => write!(f, "{}", Notation(&details)),
            None => write!(f, "none"),
        }
    }
}

// The key, a space, the details.
impl fmt::Display for Notation<'_, Part<Key, Details>> {
    fn fmt<W: fmt::Write>(&self, f: &mut fmt::Formatter<W>) -> fmt::Result {
        write!(f, "{} {}", Notation(&self.0.key), Notation(&self.0.details))
    }
}

// Written here: of the kit's `hex`, capital letters come only as a string of their own.
#[derive(Clone, Copy)]
struct Hex<'a>(&'a [u8]);

impl fmt::Display for Hex<'_> {
    fn fmt<W: fmt::Write>(&self, f: &mut fmt::Formatter<W>) -> fmt::Result {
        for byte in self.0 {
            write_hex(f, *byte)?;
        }
        Ok(())
    }
}

const DIGITS: [&str; 16] = [
    "0", "1", "2", "3", "4", "5", "6", "7", "8", "9", "A", "B", "C", "D", "E", "F",
];

// A byte's two digits. By a table: the format `{:02X}` takes twice as long, and texts may be nothing but such bytes.
fn write_hex<W: fmt::Write>(f: &mut fmt::Formatter<W>, byte: u8) -> fmt::Result {
    f.write_str(DIGITS[usize::from(byte / 16)])?;
    f.write_str(DIGITS[usize::from(byte % 16)])
}

// Letters, digits, '.', '_' and '-' as they are, any other byte as %XX.
#[derive(Clone, Copy)]
struct Escaped<'a>(&'a [u8]);

impl fmt::Display for Escaped<'_> {
    fn fmt<W: fmt::Write>(&self, f: &mut fmt::Formatter<W>) -> fmt::Result {
        for byte in self.0 {
            match *byte {
                b'0'..=b'9' | b'A'..=b'Z' | b'a'..=b'z' | b'.' | b'_' | b'-' => write!(
                    f,
                    "{}",
                    char::from(*byte)
                )?,
                byte => {
                    f.write_str("%")?;
                    write_hex(f, byte)?;
                }
            }
        }
        Ok(())
    }
}
