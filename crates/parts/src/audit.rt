// Two inventories compared.
ghost use Rattle.std.specs.Prelude.{◌≡◌, List, Some, None, slice_get};
ghost use Rattle.std.specs.Iterator.{Drains, at_most};
ghost use Rattle.model.specs.Audits.{Auditing, Agreeing, Differing, Comparison, compared, Comparing, most_answers};
ghost use Rattle.parts.specs.declared.key.Key.{Key};
ghost use Rattle.parts.specs.declared.details.Details.{Details};
ghost use Rattle.parts.specs.Keys.{order};

use crate::inventory::Inventory;
use crate::key::Key;
use crate::walk::walk_above;
use std::cmp::Ordering;
use std::marker::Model;

// Two inventories, and the key last answered: the differences above it are still to be answered.
#[derive(Drop)]
pub struct Audits<'a, A: Inventory, B: Inventory> {
    a: &'a A,
    b: &'a B,
    passed: Option<Key>,
}

impl<'a, A: Inventory, B: Inventory> Model for Audits<'a, A, B> {
    ghost Value = { Comparison Key Details };

    ghost view = { λ d. compared (A.Inventory.parts d.a.now) (B.Inventory.parts d.b.now) d.passed };

    ghost invariant = { λ d. (A.Inventory.bounded d.a.now) × (B.Inventory.bounded d.b.now) };
}

impl<'a, A: Inventory, B: Inventory> Iterator for Audits<'a, A, B> {
    type Item = Key;

    ghost next_gives = { Comparing order };

    ghost remaining = { λ d. at_most (most_answers order d) };

    fn next(&mut self) -> Option<Key> {
        let key = audit_from(self.a, self.b, self.passed)?;
        self.passed = Some(key);
        Some(key)
    }
}

// The smallest key whose answers to find differ, or none where all agree; the two then have the same parts.
pub fn audit<A: Inventory, B: Inventory>(a: &A, b: &B) -> Option<Key>
    requires { (A.Inventory.bounded a.now) × (B.Inventory.bounded b.now) }
    ensures audits { Auditing order (A.Inventory.parts a.now) (B.Inventory.parts b.now) None result }
    ensures agrees { Agreeing order (A.Inventory.parts a.now) (B.Inventory.parts b.now) result }
{
    audit_from(a, b, None)
}

// The smallest such key above a given one, so that all of them can be listed.
pub fn audit_above<A: Inventory, B: Inventory>(a: &A, b: &B, above: &Key) -> Option<Key>
    requires { (A.Inventory.bounded a.now) × (B.Inventory.bounded b.now) }
    ensures { Auditing order (A.Inventory.parts a.now) (B.Inventory.parts b.now) (Some above.now) result }
{
    audit_from(a, b, Some(*above))
}

// All keys whose answers to find differ, rising: each is what an audit above the one before answers. There is none
// exactly where the two have the same parts.
pub fn differences<'a, A: Inventory, B: Inventory>(a: &'a A, b: &'a B) -> Audits<'a, A, B>
    requires { (A.Inventory.bounded a.now) × (B.Inventory.bounded b.now) }
    ensures begun { result ≡ compared (A.Inventory.parts a.now) (B.Inventory.parts b.now) None }
    ensures listed { (keys : List Key) → Drains (Comparing order) result keys → Differing order (A.Inventory.parts a.now) (B.Inventory.parts b.now) None keys }
    ensures agrees { (keys : List Key) → Drains (Comparing order) result keys → Agreeing order (A.Inventory.parts a.now) (B.Inventory.parts b.now) (slice_get keys 0) }
{
    Audits { a, b, passed: None }
}

// Walks both side by side from a key on, as long as they show the same. No `zip`, which ends where the shorter does. Keys
// are compared once: `!=` and then `min` would do it twice.
fn audit_from<A: Inventory, B: Inventory>(a: &A, b: &B, from: Option<Key>) -> Option<Key>
    requires { (A.Inventory.bounded a.now) × (B.Inventory.bounded b.now) }
    ensures { Auditing order (A.Inventory.parts a.now) (B.Inventory.parts b.now) from result }
{
    let mut left = walk_above(a, from);
    let mut right = walk_above(b, from);
    loop {
        match (left.next(), right.next()) {
            (None, None) => return None,
            (Some(p), None) => return Some(p.key),
            (None, Some(q)) => return Some(q.key),
            (Some(p), Some(q)) => match p.key.compare(&q.key) {
                Ordering::Less => return Some(p.key),
                Ordering::Greater => return Some(q.key),
                Ordering::Equal => {
                    if !p.details.same(&q.details) {
                        return Some(p.key);
                    }
                }
            },
        }
    }
}
