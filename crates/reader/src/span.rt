// Where something stands in a file.
ghost use Rattle.std.specs.Prelude.{◌≡◌};
ghost use Rattle.reader.specs.Readers.{cut, same};

use der::content::same_identifier;

// From one place up to another. Several are looked at in one file, so the file comes once beside them.
#[derive(Clone, Copy, Default)]
pub struct Span {
    pub from: usize,
    pub to: usize,
}

impl Span {
    // These bytes of the file. What would lie behind the file is left out, so every span has an answer.
    pub fn of<'a>(&self, file: &'a [u8]) -> &'a [u8]
        ensures { result.now ≡ cut file.now self.now }
    {
        let to = self.to.min(file.len());
        let from = self.from.min(to);
        &file[from..to]
    }

    // Whether these bytes of the file are the ones wanted.
    pub fn says(&self, file: &[u8], wanted: &[u8]) -> bool
        ensures { result ≡ same (cut file.now self.now) wanted.now }
    {
        same_identifier(self.of(file), wanted)
    }
}
