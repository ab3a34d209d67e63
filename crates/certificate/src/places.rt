// What a check found.
use component::places::Components;
use envelope::envelope::EnvelopePlaces;

// Where the parts of a certificate stand in its file. Only a check makes this, and a making takes it for the same file.
#[derive(Clone, Copy)]
pub struct Places {
    pub(crate) envelope: EnvelopePlaces,
    pub(crate) components: Components,
}
