// A cursor over the elements that an element holds.
ghost use Rattle.std.specs.Prelude.{◌≡◌, ◌+◌, ◌<◌, ◌≤◌, length, IfOk, OnErr};
ghost use Rattle.der.specs.Elements.{end_within, fitting, length_at, element_at, tagged_at, ended, ElementPlaced, ContentPlaced};
ghost use Rattle.der.specs.Cursors.{tag_at, content_of, element_of, Enters, Stays};

use crate::number::number_of;
use crate::refusal::{Reason, Refusal};

// The most bytes that a length may take behind its first one.
const MOST_LENGTH_BYTES: usize = 2;

// A file, the place reached in it, and where the element ends that is being read. One that is said to end behind the file
// ends with the file.
#[derive(Clone, Copy)]
pub struct Cursor<'a> {
    pub file: &'a [u8],
    pub at: usize,
    pub end: usize,
}

impl<'a> Cursor<'a> {
    // At the front of a file.
    pub fn new(file: &'a [u8]) -> Cursor<'a>
        ensures file { result.file.now ≡ file.now }
        ensures front { result.at ≡ 0 }
        ensures end { result.end ≡ length file.now }
    {
        Cursor {
            file,
            at: 0,
            end: file.len(),
        }
    }

    // The tag of the element that begins here, or none where nothing is left.
    pub fn tag(&self) -> Option<u8>
        ensures { result ≡ tag_at self.now.file.now self.now.at self.now.end }
    {
        if self.at >= self.end.min(self.file.len()) {
            return None;
        }
        Some(self.file[self.at])
    }

    // The same cursor, with an end that lies within the file.
    fn within_file(&self) -> Cursor<'a>
        ensures file { result.file.now ≡ self.now.file.now }
        ensures at { result.at ≡ self.now.at }
        ensures end { result.end ≡ end_within self.now.file.now self.now.end }
    {
        Cursor {
            end: self.end.min(self.file.len()),
            ..*self
        }
    }

    // The content of the size given from a place on, if it ends within the element around.
    fn fitting(&self, from: usize, size: usize) -> Result<Cursor<'a>, Refusal>
        requires { from ≤ self.now.end }
        ensures is { content_of result ≡ fitting self.now.at self.now.end from size }
        ensures file { IfOk result (λ c. c.file.now ≡ self.now.file.now) }
    {
        if self.end - from < size {
            return Err(Reason::CutShort.at(self.at));
        }
        Ok(Cursor {
            file: self.file,
            at: from,
            end: from + size,
        })
    }

    // The content of the element whose tag stands here.
    fn content(&self) -> Result<Cursor<'a>, Refusal>
        requires { (self.now.at < self.now.end) × (self.now.end ≤ length self.now.file.now) }
        ensures is { content_of result ≡ length_at self.now.file.now self.now.at self.now.end }
        ensures placed { ContentPlaced self.now.file.now self.now.at self.now.end (content_of result) }
        ensures file { IfOk result (λ c. c.file.now ≡ self.now.file.now) }
    {
        if self.at + 1 >= self.end {
            return Err(Reason::CutShort.at(self.at));
        }
        let first = usize::from(self.file[self.at + 1]);
        let from = self.at + 2;
        if first < 0x80 {
            return self.fitting(from, first);
        }
        if first == 0x80 || first > 0x80 + MOST_LENGTH_BYTES {
            return Err(Reason::LengthForm.at(self.at));
        }
        let count = first - 0x80;
        if self.end - from < count {
            return Err(Reason::CutShort.at(self.at));
        }
        let size = number_of(&self.file[from..from + count]);
        if self.file[from] == 0 || size < 0x80 {
            return Err(Reason::LengthForm.at(self.at));
        }
        self.fitting(from + count, size)
    }

    // The element that begins here, whatever its tag: its tag, and a cursor over its content. This cursor then stands
    // behind it; where the element is refused it has not moved.
    #[tactic(auto, unfolding(crate::specs::Elements::element_at))]
    pub fn element(&mut self) -> Result<(u8, Cursor<'a>), Refusal>
        ensures is { element_of result ≡ element_at self.old.file.now self.old.at self.old.end }
        ensures placed { ElementPlaced self.old.file.now self.old.at self.old.end (element_of result) }
        ensures enters { IfOk result (λ p. Enters self.old self.new p.1) }
        ensures stays { Stays self.old self.new }
        ensures err { OnErr result (self.new.at ≡ self.old.at) }
    {
        let around = self.within_file();
        let Some(tag) = around.tag() else {
            return Err(Reason::WrongTag.at(self.at));
        };
        if tag % 32 == 31 {
            return Err(Reason::WrongTag.at(self.at));
        }
        let content = around.content()?;
        self.at = content.end;
        Ok((tag, content))
    }

    // A cursor over the content of the element that begins here, whose tag must be the one wanted, which is any byte. This
    // cursor then stands
    // behind it; where the element is refused it has not moved.
    #[tactic(auto, unfolding(crate::specs::Elements::tagged_at))]
    pub fn enter(&mut self, wanted: u8) -> Result<Cursor<'a>, Refusal>
        ensures is { content_of result ≡ tagged_at self.old.file.now self.old.at self.old.end wanted }
        ensures placed { ContentPlaced self.old.file.now self.old.at self.old.end (content_of result) }
        ensures enters { IfOk result (λ c. Enters self.old self.new c) }
        ensures stays { Stays self.old self.new }
        ensures err { OnErr result (self.new.at ≡ self.old.at) }
    {
        let around = self.within_file();
        if around.tag() != Some(wanted) {
            return Err(Reason::WrongTag.at(self.at));
        }
        let content = around.content()?;
        self.at = content.end;
        Ok(content)
    }

    // Nothing is left of the element.
    pub fn close(&self) -> Result<(), Refusal>
        ensures { result ≡ ended self.now.at self.now.end }
    {
        if self.at < self.end {
            return Err(Reason::BytesLeft.at(self.at));
        }
        Ok(())
    }
}
