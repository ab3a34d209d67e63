// The bottom of a pile: the inventory that a vouched platform certificate certifies, over its lent file.
ghost use Rattle.std.specs.Prelude.{◌≡◌, ◌≤◌, map, length};
ghost use Rattle.reader.specs.declared.kind.Kind.TheVariants.{Platform};
ghost use Rattle.reader.specs.Leaves.{Sized};
ghost use Rattle.std.specs.Option.{option_map};
ghost use Rattle.model.specs.Parts.{most_parts};
ghost use Rattle.model.specs.Gathered.{over_only, nearer};
ghost use Rattle.model.proofs.Gathers.{gathered_rising};
ghost use Rattle.parts.specs.Keys.{order};
ghost use Rattle.parts.proofs.Lawful.{order_lawful};
ghost use Rattle.component.specs.Syntax.{most};
ghost use Rattle.certificate.specs.Readings.{reading, reading_at, Reads};
ghost use Rattle.certificate.specs.Bottoms.{part_of, parts_of, HeadOf};

use crate::lent::LentCertificate;
use crate::line::{Lines, lines_of};
use crate::places::Places;
use crate::read::VouchedPlatform;
use model::part::Part;
use parts::bounded::{Name, Serial};
use parts::details::Details;
use parts::head::Head;
use parts::inventory::{Certified, Inventory};
use parts::key::Key;
use reader::kind::Kind;

// The components of a platform certificate, with its own issuer and serial as the head.
#[derive(Clone, Copy)]
pub struct Bottom<'a> {
    file: &'a [u8],
    places: Places,
    head: Head,
    ghost counted: { places.components.count ≡ length (parts_of (reading_at Platform file.now places).components) },
    ghost small: { length (parts_of (reading_at Platform file.now places).components) ≤ most_parts },
}

// A part, where its key is above the one given.
fn over_only(above: Option<&Key>, part: Part<Key, Details>) -> Option<Part<Key, Details>>
    ensures { result ≡ over_only order (option_map (λ x. x.now) above.entry) part }
{
    match above {
        Some(key) if !key.compare(&part.key).is_lt() => None,
        _ => Some(part),
    }
}

// The one with the smaller key.
fn nearer_of(
    first: Option<Part<Key, Details>>,
    second: Option<Part<Key, Details>>,
) -> Option<Part<Key, Details>>
    ensures { result ≡ nearer order first second }
{
    let (Some(p), Some(q)) = (first, second) else {
        return first.or(second);
    };
    if p.key.compare(&q.key).is_gt() {
        return second;
    }
    first
}

// The head that a certificate names: its own issuer and serial.
fn head_of(certificate: &LentCertificate<'_>) -> Head
    requires issuer { Sized 1 128 (reading certificate.now).issuer }
    requires serial { Sized 1 20 (reading certificate.now).serial }
    ensures { HeadOf (reading certificate.now) result }
{
    let Some(issuer) = Name::new(certificate.issuer()) else {
        unreachable()
    };
    let Some(serial) = Serial::new(certificate.serial()) else {
        unreachable()
    };
    Head { issuer, serial }
}

impl<'a> Bottom<'a> {
    // The bottom that a vouched platform certificate makes, over the same file.
    pub fn make(platform: VouchedPlatform<'a>) -> Bottom<'a>
        ensures file { result.file.now ≡ platform.entry.read.file.now }
        ensures head { HeadOf (reading_at Platform result.file.now result.places) result.head }
        ensures few { length (parts_of (reading_at Platform result.file.now result.places).components) ≤ most Platform }
        ensures reads { Reads Platform result.file.now result.places }
    {
        let certificate = platform.certificate();
        Bottom {
            file: certificate.file,
            places: certificate.places,
            head: head_of(&certificate),
        }
    }

    // The components as those of a kind, in the order of the file.
    fn lines(&self, kind: Kind) -> Lines<'a>
        ensures { result ≡ (reading_at kind self.now.file.now self.now.places).components }
    {
        lines_of(self.file, self.places.components.list, kind)
    }
}

impl Inventory for Bottom<'_> {
    ghost parts = { λ x. parts_of (reading_at Platform x.file.now x.places).components };

    ghost bounded = { λ x. Unit {0} };

    ghost rising = { λ x. gathered_rising order order_lawful (map part_of (reading_at Platform x.file.now x.places).components) };

    ghost few = { λ x h. x.small };

    fn find(&self, key: &Key) -> Option<Details> {
        let mut lines = self.lines(Kind::Platform);
        let line = lines.find(|line| key.compare(&line.key).is_eq())?;
        Some(line.details)
    }

    fn next(&self, above: Option<&Key>) -> Option<Part<Key, Details>> {
        let mut nearest = None;
        for line in self.lines(Kind::Platform) {
            let part = Part {
                key: line.key,
                details: line.details,
            };
            nearest = nearer_of(nearest, over_only(above, part));
        }
        nearest
    }

    fn count(&self) -> usize {
        self.places.components.count
    }
}

impl Certified for Bottom<'_> {
    ghost named = { λ x. x.head };

    fn head(&self) -> Head {
        self.head
    }
}
