// Reading the configuration of a certificate.
ghost use Rattle.std.specs.Prelude.{◌≡◌};
ghost use Rattle.reader.specs.Readers.{Reads, read};
ghost use Rattle.component.specs.Syntax.{most};
ghost use Rattle.component.specs.Readings.{components_at, behind_at, configuration_at, counted};

use crate::component::ComponentReader;
use crate::places::Components;
use der::cursor::Cursor;
use der::refusal::{Reason, Refusal};
use der::tag::SEQUENCE;
use reader::entries::read_entries;
use reader::kind::Kind;
use reader::leaf::Leaf;
use reader::span::Span;

const MOST_OF_PLATFORM: usize = 128;

const MOST_OF_DELTA: usize = 16;

// The most components of a certificate of a kind.
pub fn most_of(kind: Kind) -> usize
    ensures { result ≡ most kind }
{
    match kind {
        Kind::Platform => MOST_OF_PLATFORM,
        Kind::Delta => MOST_OF_DELTA,
    }
}

// The component list. The places of the components are needed only for the search for a key that stands twice.
#[tactic(auto, unfolding(crate::specs::Readings::components_at))]
fn read_components(cursor: &mut Cursor<'_>, kind: Kind) -> Result<Components, Refusal>
    ensures { Reads (read counted (components_at kind)) cursor.old cursor.new result }
{
    let at = cursor.at;
    let content = cursor.enter(0xa0)?;
    if content.at >= content.end {
        return Err(Reason::ListSize.at(at));
    }
    let reader = ComponentReader { kind };
    let count = match kind {
        Kind::Platform => read_entries::<_, MOST_OF_PLATFORM>(&reader, content, at)?.len(),
        Kind::Delta => read_entries::<_, MOST_OF_DELTA>(&reader, content, at)?.len(),
    };
    let list = Span {
        from: content.at,
        to: content.end,
    };
    Ok(Components { list, count })
}

// Passes over what may stand behind the list.
fn pass_behind(cursor: &mut Cursor<'_>) -> Result<(), Refusal>
    ensures { Reads (read (λ _. tt) behind_at) cursor.old cursor.new result }
{
    Leaf::Opaque(0xa1).read_optional(cursor)?;
    Leaf::Opaque(0xa2).read_optional(cursor)?;
    Leaf::Opaque(0xa3).read_optional(cursor)?;
    Ok(())
}

// The configuration that begins here: its components. The cursor then stands behind it.
pub fn read_configuration(cursor: &mut Cursor<'_>, kind: Kind) -> Result<Components, Refusal>
    ensures { Reads (read counted (configuration_at kind)) cursor.old cursor.new result }
{
    let mut content = cursor.enter(SEQUENCE)?;
    let components = read_components(&mut content, kind)?;
    pass_behind(&mut content)?;
    content.close()?;
    Ok(components)
}
