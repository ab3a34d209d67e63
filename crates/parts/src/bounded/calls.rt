// Making and reading bounded byte strings.
ghost use Rattle.std.specs.Prelude.{◌≡◌, ◌≤◌, length, Decides, refl};
ghost use Rattle.std.specs.Option.{option_map};
ghost use Rattle.std.specs.Cmp.{partial_equiv_from_equiv, nat_eq_equiv, on_equiv, on_po};
ghost use Rattle.std.specs.Cmp.Lexicographic.{lists_equiv, slice_cmp, on_texts, texts_ties, texts_po};
ghost use Rattle.std.specs.Ordering.{on, nat_cmp, as_partial_cmp};
ghost use Rattle.parts.specs.Bounds.{content, bounded_of, hold_same};

use crate::bounded::Bounded;
use std::cmp::Ordering;

impl<const LEAST: usize, const MOST: usize> Bounded<LEAST, MOST> {
    // The bytes given, or none where they are too few or too many.
    pub fn new(given: &[u8]) -> Option<Bounded<LEAST, MOST>>
        ensures { option_map content result ≡ bounded_of LEAST MOST given.now }
    {
        if given.len() < LEAST || given.len() > MOST {
            return None;
        }
        Some(Bounded::of(given))
    }

    fn of(given: &[u8]) -> Bounded<LEAST, MOST>
        requires { (LEAST ≤ length given.now) × (length given.now ≤ MOST) }
        ensures { content result ≡ given.now }
    {
        let mut bytes = [0u8; MOST];
        let len = given.len();
        bytes[..len].copy_from_slice(given);
        Bounded { len, bytes }
    }

    // The bytes that it holds.
    pub fn held(&self) -> &[u8]
        ensures { result.now ≡ content self.now }
    {
        &self.bytes[..self.len]
    }
}

// Two are equal where they hold the same bytes, and then they are the same. Written out, since a derive has no clause to
// say so; tried as one, `search` found no proof of `matches_eq` below.
impl<const LEAST: usize, const MOST: usize> PartialEq for Bounded<LEAST, MOST> {
    ghost eq = { hold_same };

    ghost laws = { partial_equiv_from_equiv (on_equiv content (lists_equiv nat_eq_equiv)) };

    fn eq(&self, other: &Bounded<LEAST, MOST>) -> bool
        ensures tested { result ≡ hold_same self.now other.now }
        ensures same { Decides result (self.now ≡ other.now) }
    {
        self.held() == other.held()
    }
}

impl<const LEAST: usize, const MOST: usize> Eq for Bounded<LEAST, MOST> {
    ghost laws = { on_equiv content (lists_equiv nat_eq_equiv) };
}

// In the order of what they hold: zeros behind the content alone would not put a proper beginning first.
impl<const LEAST: usize, const MOST: usize> PartialOrd for Bounded<LEAST, MOST> {
    ghost partial_cmp = { as_partial_cmp (on content (slice_cmp nat_cmp)) };

    ghost laws = { on_po content texts_po };

    fn partial_cmp(&self, other: &Bounded<LEAST, MOST>) -> Option<Ordering> {
        Some(self.cmp(other))
    }
}

impl<const LEAST: usize, const MOST: usize> Ord for Bounded<LEAST, MOST> {
    ghost cmp = { on content (slice_cmp nat_cmp) };

    ghost total = { on_texts content };

    ghost matches_partial_cmp = { λ s t. refl };

    ghost matches_eq = { λ s t. texts_ties (content s) (content t) };

    fn cmp(&self, other: &Bounded<LEAST, MOST>) -> Ordering {
        self.held().cmp(&other.held())
    }
}
