// How answers are written: in other words and letters than the other program's.
use der::refusal::Refusal;
use model::part::Part;
use parts::details::Details;
use parts::key::Key;
use std::fmt;

// A value as it stands in the lines that are compared.
#[derive(Clone, Copy)]
pub struct Line<'a, T>(pub &'a T);

impl fmt::Display for Line<'_, Refusal> {
    fn fmt<W: fmt::Write>(&self, f: &mut fmt::Formatter<W>) -> fmt::Result {
        let Refusal { reason, place } = *self.0;
        write!(f, "refused {} at {place}", u8::from(reason))
    }
}

// The key, then the revision or -, then whether the part can be replaced.
impl fmt::Display for Line<'_, Part<Key, Details>> {
    fn fmt<W: fmt::Write>(&self, f: &mut fmt::Formatter<W>) -> fmt::Result {
        let Part { key, details } = self.0;
        let replaceable = match details.replaceable {
            None => "-",
            Some(false) => "no",
            Some(true) => "yes",
        };
        let revision = details.revision.held();
        let missing = if revision.is_empty() { "-" } else { "" };
        write!(f, "{} {missing}{} {replaceable}", Line(key), Hex(revision))
    }
}

impl fmt::Display for Line<'_, Key> {
    fn fmt<W: fmt::Write>(&self, f: &mut fmt::Formatter<W>) -> fmt::Result {
        let fields = self.0.fields();
        let class = Hex(fields.class);
        let maker = Hex(fields.maker);
        let model = Hex(fields.model);
        let serial = Hex(fields.serial);
        write!(f, "{} {class} {maker} {model} {serial}", fields.registry)
    }
}

#[derive(Clone, Copy)]
struct Hex<'a>(&'a [u8]);

impl fmt::Display for Hex<'_> {
    fn fmt<W: fmt::Write>(&self, f: &mut fmt::Formatter<W>) -> fmt::Result {
        for byte in self.0 {
            write!(f, "{byte:02x}")?;
        }
        Ok(())
    }
}
