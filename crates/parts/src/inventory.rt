// What an inventory answers, and what a certified one answers besides.
ghost use Rattle.std.specs.Prelude.{◌≡◌, ◌≤◌, List, length, None};
ghost use Rattle.std.specs.Option.{option_map};
ghost use Rattle.model.specs.declared.part.Part.{Part};
ghost use Rattle.model.specs.Parts.{Rising, Finding, Showing, Counting, most_parts};
ghost use Rattle.parts.specs.declared.key.Key.{Key};
ghost use Rattle.parts.specs.declared.details.Details.{Details};
ghost use Rattle.parts.specs.declared.head.Head.{Head};
ghost use Rattle.parts.specs.Keys.{order};

use crate::details::Details;
use crate::head::Head;
use crate::key::Key;
use model::part::Part;

// An inventory means a list of parts that rises by key. Its questions change nothing and never refuse; they ask that
// the inventory is bounded, which whatever makes or changes one promises.
pub trait Inventory {
    // The parts that it means.
    ghost parts: { Self → List (Part Key Details) };

    // It has no more parts than an inventory may have.
    ghost bounded: { Self → Type 0 };

    ghost rising: { (x : Self) → Rising order (parts x) };

    ghost few: { (x : Self) → bounded x → length (parts x) ≤ most_parts };

    // The details of the part with this key, or none.
    fn find(&self, key: &Key) -> Option<Details>
        requires { bounded self.now }
        ensures { Finding order (parts self.now) key.now result };

    // The part with the smallest key above the one given, or the smallest of all where none is given, or none.
    fn next(&self, above: Option<&Key>) -> Option<Part<Key, Details>>
        requires { bounded self.now }
        ensures { Showing order (parts self.now) (option_map (λ x. x.now) above.entry) result };

    // The number of parts.
    fn count(&self) -> usize
        requires { bounded self.now }
        ensures { Counting (parts self.now) result };
}

// A certified inventory also names its head: the issuer and serial of the certificate it has been brought to.
pub trait Certified: Inventory {
    // The issuer and serial that it names.
    ghost named: { Self → Head };

    fn head(&self) -> Head
        ensures { result ≡ named self.now };
}

// The part with the smallest key of all, or none: a walk begins with it.
pub fn first<I: Inventory>(inventory: &I) -> Option<Part<Key, Details>>
    requires { I.Inventory.bounded inventory.now }
    ensures { Showing order (I.Inventory.parts inventory.now) None result }
{
    inventory.next(None)
}
