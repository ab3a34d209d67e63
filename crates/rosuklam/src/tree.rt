// The tree of a file's elements.
use crate::problem::Problem;
use der::cursor::Cursor;

// The bit of a tag that says that the content is made of elements.
const CONSTRUCTED: u8 = 0x20;

// Prints the elements of the file, each before those that it holds, up to the first that is refused.
pub fn print_tree(rt: &HostRuntime, file: &[u8]) -> Result<(), Problem> {
    // The ends of the file and of the elements that the place stands in, the innermost last. A recursion instead would
    // take a frame of the stack for each level, and a file can have some sixteen thousand of them.
    let mut ends = vec![in rt.alloc(); file.len()]?;
    let mut at = 0;
    while let Some(end) = ends.last().copied() {
        let mut cursor = Cursor { file, at, end };
        let (tag, content) = cursor.element()?;
        println!(rt;
            "{:1$}{at} {tag:02X} {2}",
            "",
            2 * (ends.len() - 1),
            content.end - content.at
        )?;
        if tag & CONSTRUCTED == 0 {
            at = content.end;
        } else {
            ends.push(content.end)?;
            at = content.at;
        }
        ends.retain(|end| *end > at);
    }
    Ok(())
}
