// Lists of entries.
ghost use Rattle.std.specs.Prelude.{◌≡◌, ◌≤◌, List, [], length, IfOk};
ghost use Rattle.reader.specs.Readers.{Reader, Reads, Advances, entries_at, filled, entries_of, list_at};

use arrayvec::ArrayVec;
use der::cursor::Cursor;
use der::refusal::{Reason, Refusal};

// How the entries of a list are read: each with those before it at hand, since no label may stand twice.
pub trait EntryReader {
    type Entry: Copy;

    ghost reads: { Self → List Self.Entry → Reader Self.Entry };

    fn read(&self, seen: &[Self::Entry], cursor: &mut Cursor<'_>) -> Result<Self::Entry, Refusal>
        ensures is { Reads (reads self.now seen.now) cursor.old cursor.new result }
        ensures forward { Advances cursor.old cursor.new result };
}

// The entries up to the end of the element that a cursor reads, put into the space given, and how many they are. More than
// there is space for are refused at the list. A loop, since each is read with those before it at hand; a space and a count,
// since it takes whatever room a caller has.
pub fn fill_entries<R: EntryReader>(
    reader: &R,
    mut cursor: Cursor<'_>,
    list: usize,
    space: &mut [R::Entry],
) -> Result<usize, Refusal>
    ensures is { filled result space.new ≡ entries_at (R.EntryReader.reads reader.now) list (length space.old) [] cursor.entry.file.now cursor.entry.at cursor.entry.end }
    ensures room { IfOk result (λ n. n ≤ length space.new) }
{
    let mut count = 0;
    while cursor.at < cursor.end {
        if count == space.len() {
            return Err(Reason::ListSize.at(list));
        }
        space[count] = reader.read(&space[..count], &mut cursor)?;
        count += 1;
    }
    Ok(count)
}

// The list that begins here, read into the space given: how many entries it has. It has at least one. The cursor then
// stands behind it.
pub fn fill_list<R: EntryReader>(
    reader: &R,
    cursor: &mut Cursor<'_>,
    tag: u8,
    space: &mut [R::Entry],
) -> Result<usize, Refusal>
    ensures is { Reads (list_at tag (length space.old) (R.EntryReader.reads reader.now)) cursor.old cursor.new (filled result space.new) }
    ensures room { IfOk result (λ n. n ≤ length space.new) }
{
    let at = cursor.at;
    let content = cursor.enter(tag)?;
    if content.at >= content.end {
        return Err(Reason::ListSize.at(at));
    }
    fill_entries(reader, content, at, space)
}

// The entries up to the end of the element that a cursor reads, at most `MOST`.
pub fn read_entries<R: EntryReader, const MOST: usize>(
    reader: &R,
    cursor: Cursor<'_>,
    list: usize,
) -> Result<ArrayVec<R::Entry, MOST>, Refusal>
where
    R::Entry: Default,
    ensures { entries_of result ≡ entries_at (R.EntryReader.reads reader.now) list MOST [] cursor.entry.file.now cursor.entry.at cursor.entry.end }
{
    let mut space = [R::Entry::default(); MOST];
    let count = fill_entries(reader, cursor, list, &mut space)?;
    let mut entries = ArrayVec::from(space);
    entries.truncate(count);
    Ok(entries)
}

// The list that begins here, with at least one entry and at most `MOST`. The cursor then stands behind it. Apart from the
// call above, since they differ in the call that fills, and a closure for it would be no plainer.
pub fn read_list<R: EntryReader, const MOST: usize>(
    reader: &R,
    cursor: &mut Cursor<'_>,
    tag: u8,
) -> Result<ArrayVec<R::Entry, MOST>, Refusal>
where
    R::Entry: Default,
    ensures { Reads (list_at tag MOST (R.EntryReader.reads reader.now)) cursor.old cursor.new (entries_of result) }
{
    let mut space = [R::Entry::default(); MOST];
    let count = fill_list(reader, cursor, tag, &mut space)?;
    let mut entries = ArrayVec::from(space);
    entries.truncate(count);
    Ok(entries)
}
