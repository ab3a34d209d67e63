// What is read of the components of a certificate.
ghost use Rattle.std.specs.Prelude.{◌≡◌, map};
ghost use Rattle.std.specs.Iterator.{YieldsFirst, item_count};
ghost use Rattle.component.specs.Syntax.{most};
ghost use Rattle.component.specs.Readings.{components_from};
ghost use Rattle.certificate.specs.Readings.{line_in};

use component::list::{ListedComponents, listed};
use component::meaning::PlacedComponent;
use model::part::Status;
use parts::details::Details;
use parts::key::Key;
use reader::kind::Kind;
use reader::span::Span;
use std::marker::Model;

// A component of a certificate's list. Only a delta's has a status, so it is no change of the model, which always has one.
#[derive(Clone, Copy)]
pub struct Line {
    pub key: Key,
    pub details: Details,
    pub status: Option<Status>,
}

impl From<PlacedComponent<'_>> for Line {
    ghost from_gives = { λ component line. line ≡ line_in component.file.now component.places };

    fn from(component: PlacedComponent<'_>) -> Line {
        Line {
            key: component.key(),
            details: component.details(),
            status: component.status(),
        }
    }
}

// The components of a list that was checked, one after the other.
#[derive(Drop)]
pub struct Lines<'a> {
    file: &'a [u8],
    places: ListedComponents<'a>,
}

impl<'a> Model for Lines<'a> {
    ghost use Rattle.std.specs.Prelude.{List, map};
    ghost use Rattle.certificate.specs.declared.line.Line.{Line};
    ghost use Rattle.certificate.specs.Readings.{line_in};

    ghost Value = { List Line };

    ghost view = { λ l. map (line_in l.file.now) l.places };
}

// The first of what is left, each time; then none.
impl<'a> Iterator for Lines<'a> {
    type Item = Line;

    ghost next_gives = { YieldsFirst (λ l. l) };

    ghost remaining = { item_count (λ l. l) };

    fn next(&mut self) -> Option<Line> {
        let component = PlacedComponent {
            file: self.file,
            places: self.places.next()?,
        };
        Some(Line::from(component))
    }
}

// The components of a list whose content stands at a place of a file, which begins a reading and so is no cursor, in
// order, as many as a certificate of the kind may have.
pub(crate) fn lines_of<'a>(file: &'a [u8], list: Span, kind: Kind) -> Lines<'a>
    ensures { result ≡ map (line_in file.now) (components_from kind (most kind) file.now list.from list.to) }
{
    Lines {
        file,
        places: listed(file, list, kind),
    }
}
