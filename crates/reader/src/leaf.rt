// Elements that hold no others: each kind with its tag and the rule of its content.
ghost use Rattle.std.specs.Prelude.{◌≡◌};
ghost use Rattle.reader.specs.Readers.{Reads, Advances, perhaps, unless_ended};
ghost use Rattle.reader.specs.Leaves.{tag_of, is_kept, reason_of, leaf_at, passed_at};

use crate::span::Span;
use der::content::{boolean_of, is_identifier, is_serial};
use der::cursor::Cursor;
use der::refusal::{Reason, Refusal};
use der::time::is_time;

// One enum and no type for each kind, since the profile names a kind by its value.
#[derive(Clone, Copy)]
pub enum Leaf {
    // The version of a certificate: INTEGER 1.
    Version,
    // A directoryName.
    Name,
    Serial,
    Identifier,
    Time,
    // The mark of a critical extension: BOOLEAN true.
    Critical,
    // An element with this tag that is not looked into; a tag is any byte.
    Opaque(u8),
    // A BIT STRING of whole bytes, at least one.
    Signature,
    // The class value of a component.
    Class,
    // A component's maker or model.
    Text,
    SerialText,
    Revision,
    Replaceable,
    Status,
}

impl Leaf {
    pub fn tag(self) -> u8
        ensures { result ≡ tag_of self }
    {
        match self {
            Leaf::Version | Leaf::Serial => 0x02,
            Leaf::Name => 0xa4,
            Leaf::Identifier => 0x06,
            Leaf::Time => 0x18,
            Leaf::Critical => 0x01,
            Leaf::Opaque(tag) => tag,
            Leaf::Class => 0x04,
            Leaf::Signature => 0x03,
            Leaf::Text => 0x0c,
            Leaf::SerialText => 0x80,
            Leaf::Revision => 0x81,
            Leaf::Replaceable => 0x83,
            Leaf::Status => 0x87,
        }
    }

    // Whether bytes keep the rule of this kind's content.
    pub fn keeps(self, content: &[u8]) -> bool
        ensures { result ≡ is_kept self content.now }
    {
        match self {
            Leaf::Version => content.len() == 1 && content[0] == 1,
            Leaf::Name => !content.is_empty() && content.len() <= 128,
            Leaf::Serial => is_serial(content),
            Leaf::Identifier => is_identifier(content),
            Leaf::Time => is_time(content),
            Leaf::Critical => content.len() == 1 && content[0] == 0xff,
            Leaf::Opaque(_) => true,
            Leaf::Signature => content.len() >= 2 && content[0] == 0,
            Leaf::Class => content.len() == 4,
            Leaf::Text | Leaf::SerialText | Leaf::Revision => {
                !content.is_empty() && content.len() <= 64
            }
            Leaf::Replaceable => boolean_of(content).is_some(),
            Leaf::Status => content.len() == 1 && content[0] <= 2,
        }
    }

    // Why a content that breaks the rule is refused.
    pub fn reason(self) -> Reason
        ensures { result ≡ reason_of self }
    {
        match self {
            Leaf::Name | Leaf::Text | Leaf::SerialText | Leaf::Revision => Reason::TextSize,
            _ => Reason::BadContent,
        }
    }

    // The element of this kind: where its content stands. The cursor then stands behind it.
    #[tactic(auto, unfolding(crate::specs::Leaves::leaf_at))]
    pub fn read(self, cursor: &mut Cursor<'_>) -> Result<Span, Refusal>
        ensures is { Reads (leaf_at self) cursor.old cursor.new result }
        ensures forward { Advances cursor.old cursor.new result }
    {
        let at = cursor.at;
        let content = cursor.enter(self.tag())?;
        if !self.keeps(&content.file[content.at..content.end]) {
            return Err(self.reason().at(at));
        }
        Ok(Span {
            from: content.at,
            to: content.end,
        })
    }

    // An element of this kind that may be missing: there where its tag stands.
    pub fn read_optional(self, cursor: &mut Cursor<'_>) -> Result<Option<Span>, Refusal>
        ensures { Reads (perhaps (tag_of self) (leaf_at self)) cursor.old cursor.new result }
    {
        if cursor.tag() != Some(self.tag()) {
            return Ok(None);
        }
        Ok(Some(self.read(cursor)?))
    }
}

// An element passed over: where it stands as a whole.
#[tactic(auto, unfolding(crate::specs::Leaves::passed_at))]
pub fn pass_over(cursor: &mut Cursor<'_>) -> Result<Span, Refusal>
    ensures is { Reads passed_at cursor.old cursor.new result }
    ensures forward { Advances cursor.old cursor.new result }
{
    let from = cursor.at;
    let (_, content) = cursor.element()?;
    Ok(Span {
        from,
        to: content.end,
    })
}

// One more element passed over, where anything is left.
pub fn pass_over_any(cursor: &mut Cursor<'_>) -> Result<Option<Span>, Refusal>
    ensures { Reads (unless_ended passed_at) cursor.old cursor.new result }
{
    if cursor.at >= cursor.end {
        return Ok(None);
    }
    Ok(Some(pass_over(cursor)?))
}
