// Byte strings whose length is bounded, held by value.
ghost use Rattle.std.specs.Prelude.{◌≡◌, ◌-◌, ◌≤◌, length, drop, replicate};

pub mod calls;

// At least LEAST and at most MOST bytes. Behind the content there are zeros, so that equal contents are equal values.
// An array and no vector, since keys and details are copied, and the library allocates nothing.
#[derive(Clone, Copy)]
pub struct Bounded<const LEAST: usize, const MOST: usize> {
    len: usize,
    bytes: [u8; MOST],
    ghost full: { length bytes ≡ MOST },
    ghost least: { LEAST ≤ len },
    ghost within: { len ≤ MOST },
    ghost padded: { drop len bytes ≡ replicate (MOST - len) 0 },
}

// A text of a key: maker, model or serial text.
pub type Text = Bounded<1, 64>;

// A revision; a missing one has length 0, and is no `Option`, since this is its form in the details of a part.
pub type Revision = Bounded<0, 64>;

// A name: who issued a certificate.
pub type Name = Bounded<1, 128>;

// The content of a certificate's serial.
pub type Serial = Bounded<1, 20>;
