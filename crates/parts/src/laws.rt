// The order of keys is lawful, and with it all that the model says of parts; and what `==` tells.
ghost use Rattle.std.specs.Prelude.{◌≡◌, Decides};
ghost use Rattle.model.specs.Orders.{Lawful};
ghost use Rattle.model.specs.Laws.{PartLaws};
ghost use Rattle.parts.specs.declared.key.Key.{Key};
ghost use Rattle.parts.specs.declared.details.Details.{Details};
ghost use Rattle.parts.specs.Bytewise.{ByteOrder};
ghost use Rattle.parts.specs.Keys.{order};
ghost use Rattle.parts.specs.Equality.{EqualIsSame};

use crate::key::Key;

// Any two keys compare; turned round, the opposite; only the same key is equal; transitive. Texts go byte by byte. It
// is the order that `cmp` and the operators give.
pub fn keys_lawful()
    ensures lawful { Lawful order }
    ensures bytes { ByteOrder }
    ensures parts { PartLaws Key Details order }
    ensures compared { (k j : Key) → ⟦<Key as Ord>⟧.cmp k j ≡ order k j }
{}

// Byte strings, details, heads and keys are equal exactly where they are the same.
pub fn equal_is_same()
    ensures told { EqualIsSame }
    ensures keys { (k j : Key) → Decides (⟦<Key as PartialEq>⟧.eq k j) (k ≡ j) }
{}
