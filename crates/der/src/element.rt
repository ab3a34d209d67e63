// One element of a file, by itself.
ghost use Rattle.der.specs.Encoding.{Reads, Tells, LengthForms};

use crate::cursor::Cursor;
use crate::refusal::Refusal;

// An element: its tag, which is any byte, and its content as a part of the file.
#[derive(Clone, Copy)]
pub struct Element<'a> {
    pub tag: u8,
    pub content: &'a [u8],
}

// The element at `place` of the file, whatever its tag; the place is what is asked, so no cursor. Reading is inverse to
// encoding: `tells` says so.
pub fn read_element<'a>(file: &'a [u8], place: usize) -> Result<Element<'a>, Refusal>
    ensures reads { Reads file.now place result }
    ensures tells { Tells file.now place result }
    ensures lengths { LengthForms }
{
    element_of(file, place)
}

fn element_of<'a>(file: &'a [u8], place: usize) -> Result<Element<'a>, Refusal>
    ensures { Reads file.now place result }
{
    let mut cursor = Cursor {
        at: place,
        ..Cursor::new(file)
    };
    let (tag, content) = cursor.element()?;
    Ok(Element {
        tag,
        content: &file[content.at..content.end],
    })
}
