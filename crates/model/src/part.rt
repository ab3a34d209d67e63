// Parts, changes of parts, and what a layer remembers of a key; generic in the key and in the details.

#[derive(Clone, Copy, PartialEq, Eq)]
pub struct Part<K, D> {
    pub key: K,
    pub details: D,
}

// What a change does with its key.
#[derive(Clone, Copy)]
pub enum Status {
    Added,
    Modified,
    Removed,
}

// A change: of a removal the details mean nothing.
#[derive(Clone, Copy)]
pub struct Change<K, D> {
    pub key: K,
    pub details: D,
    pub status: Status,
}

// A key that a layer remembers, with its latest state: fitted with details, or removed.
#[derive(Clone, Copy)]
pub struct Memory<K, D> {
    pub key: K,
    pub state: Option<D>,
}
