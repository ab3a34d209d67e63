// The components of a list that was checked, one after the other.
ghost use Rattle.std.specs.Prelude.{◌≡◌};
ghost use Rattle.std.specs.Iterator.{YieldsFirst, item_count};
ghost use Rattle.component.specs.Syntax.{most};
ghost use Rattle.component.specs.Readings.{components_from};

use crate::component::read_component;
use crate::configuration::most_of;
use crate::places::ComponentPlaces;
use der::cursor::Cursor;
use reader::kind::Kind;
use reader::span::Span;
use std::marker::Model;

// What is left of a list, with no search for a key that stands twice.
#[derive(Drop)]
pub struct ListedComponents<'a> {
    cursor: Cursor<'a>,
    kind: Kind,
    left: usize,
}

impl<'a> Model for ListedComponents<'a> {
    ghost use Rattle.std.specs.Prelude.{List};
    ghost use Rattle.component.specs.declared.places.ComponentPlaces.{ComponentPlaces};
    ghost use Rattle.component.specs.Readings.{components_from};

    ghost Value = { List ComponentPlaces };

    ghost view = { λ l. components_from l.kind l.left l.cursor.file.now l.cursor.at l.cursor.end };
}

// The first of what is left, each time; then none.
impl<'a> Iterator for ListedComponents<'a> {
    type Item = ComponentPlaces;

    ghost next_gives = { YieldsFirst (λ l. l) };

    ghost remaining = { item_count (λ l. l) };

    fn next(&mut self) -> Option<ComponentPlaces> {
        if self.left == 0 || self.cursor.at >= self.cursor.end {
            return None;
        }
        let Ok(component) = read_component(&mut self.cursor, self.kind, &[]) else {
            self.left = 0;
            return None;
        };
        self.left -= 1;
        Some(component)
    }
}

// The components of a list whose content stands at a place of a file, which begins a reading and so is no cursor, in
// order, as many as a certificate of the kind may have. Where one is refused, there are no more.
pub fn listed<'a>(file: &'a [u8], list: Span, kind: Kind) -> ListedComponents<'a>
    ensures { result ≡ components_from kind (most kind) file.now list.from list.to }
{
    ListedComponents {
        cursor: Cursor {
            file,
            at: list.from,
            end: list.to,
        },
        kind,
        left: most_of(kind),
    }
}
