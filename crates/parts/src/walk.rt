// The parts of an inventory, one after the other.
ghost use Rattle.std.specs.Prelude.{◌≡◌, List};
ghost use Rattle.std.specs.Iterator.{AlwaysYields, YieldsFirst, item_count};
ghost use Rattle.model.specs.declared.part.Part.{Part};
ghost use Rattle.model.specs.Parts.{beyond};
ghost use Rattle.parts.specs.declared.key.Key.{Key};
ghost use Rattle.parts.specs.declared.details.Details.{Details};
ghost use Rattle.parts.specs.Keys.{order};

use crate::details::Details;
use crate::inventory::Inventory;
use crate::key::Key;
use model::part::Part;
use std::marker::Model;

// The parts that a walk has still to show: those above the key last passed.
#[derive(Drop)]
pub struct Parts<'a, I: Inventory> {
    inventory: &'a I,
    passed: Option<Key>,
}

impl<'a, I: Inventory> Model for Parts<'a, I> {
    ghost Value = { List (Part Key Details) };

    ghost view = { λ w. beyond order w.passed (I.Inventory.parts w.inventory.now) };

    ghost invariant = { λ w. I.Inventory.bounded w.inventory.now };
}

// The first of what is left, each time; then none.
impl<'a, I: Inventory> Iterator for Parts<'a, I> {
    type Item = Part<Key, Details>;

    ghost next_gives = { YieldsFirst (λ w. w) };

    ghost remaining = { item_count (λ w. w) };

    fn next(&mut self) -> Option<Part<Key, Details>> {
        let part = self.inventory.next(self.passed.as_ref())?;
        self.passed = Some(part.key);
        Some(part)
    }
}

// Shows each part once, rising by key, and nothing else; then it ends.
pub fn walk<I: Inventory>(inventory: &I) -> Parts<'_, I>
    requires { I.Inventory.bounded inventory.now }
    ensures begun { result ≡ I.Inventory.parts inventory.now }
    ensures shown { AlwaysYields (YieldsFirst (λ w. w)) (λ part. part) result (I.Inventory.parts inventory.now) }
{
    walk_above(inventory, None)
}

// The same of the parts above a key, or of all where none is given.
pub fn walk_above<I: Inventory>(inventory: &I, passed: Option<Key>) -> Parts<'_, I>
    requires { I.Inventory.bounded inventory.now }
    ensures { result ≡ beyond order passed (I.Inventory.parts inventory.now) }
{
    Parts { inventory, passed }
}
