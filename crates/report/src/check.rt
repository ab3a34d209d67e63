// The check of a probe report.
ghost use Rattle.std.specs.Prelude.{◌≡◌, true, Ok, Err};
ghost use Rattle.std.specs.Option.{option_map_or};
ghost use Rattle.std.specs.Ordering.{is_lt};
ghost use Rattle.std.specs.Result.{MatchResult};
ghost use Rattle.parts.specs.Keys.{in_turn};
ghost use Rattle.report.specs.Layout.{fields_at};
ghost use Rattle.report.specs.Format.{Told};
ghost use Rattle.report.specs.Checks.{keys_from, details_from, sizes_of, checked};

use crate::fields::CheckedKey;
use crate::layout::{DETAILS_SIZE, KEY_SIZE, MOST_REPORTED, SIZES, two_at};
use crate::tables::Tables;
use der::refusal::{Reason, Refusal};

// Whether the bytes are a probe report.
pub fn check_report(file: &[u8]) -> Result<(), Refusal>
    ensures is { result ≡ checked file.now }
    ensures told { Told file.now result }
{
    check_parts(file)
}

fn check_parts(file: &[u8]) -> Result<(), Refusal>
    ensures { result ≡ checked file.now }
{
    let tables = check_sizes(file)?;
    check_keys(&tables)?;
    check_details(&tables)
}

// The tables, where the three sizes are right and the file is as long as they say.
fn check_sizes(file: &[u8]) -> Result<Tables<'_>, Refusal>
    ensures { MatchResult result (λ t. (t.file.now ≡ file.now) × (sizes_of file.now ≡ Ok t.count)) (λ e. sizes_of file.now ≡ Err e) }
{
    if file.len() < 2 {
        return Err(Reason::CutShort.at(0));
    }
    let count = two_at(file, 0);
    if count > MOST_REPORTED {
        return Err(Reason::ListSize.at(0));
    }
    if file.len() < 4 {
        return Err(Reason::CutShort.at(2));
    }
    if two_at(file, 2) != KEY_SIZE {
        return Err(Reason::BadContent.at(2));
    }
    if file.len() < SIZES {
        return Err(Reason::CutShort.at(4));
    }
    if two_at(file, 4) != DETAILS_SIZE {
        return Err(Reason::BadContent.at(4));
    }
    let size = SIZES + (KEY_SIZE + DETAILS_SIZE) * count;
    if file.len() < size {
        return Err(Reason::CutShort.at(file.len()));
    }
    if file.len() > size {
        return Err(Reason::BytesLeft.at(size));
    }
    Ok(Tables { file, count })
}

// The fields of each key, and that it is above the one before. A loop, since a chain would keep that one as a state of
// its closure, which is no plainer. What is kept is where it stands: its fields are looked at only as far as needed.
fn check_keys(tables: &Tables<'_>) -> Result<(), Refusal>
    ensures { result ≡ keys_from tables.now.file.now 0 tables.now.count }
{
    let mut before: Option<CheckedKey<'_>> = None;
    for i in 0..tables.count {
        let record = tables.key(i);
        let key = record.check()?;
        if !rises(before, key) {
            return Err(Reason::Repeated.at(record.at));
        }
        before = Some(key);
    }
    Ok(())
}

// Whether a key is above the one before, if there is one.
fn rises(before: Option<CheckedKey<'_>>, key: CheckedKey<'_>) -> bool
    ensures { result ≡ option_map_or (λ k. is_lt (in_turn (fields_at k.found.file.now k.found.at) (fields_at key.entry.found.file.now key.entry.found.at))) before.entry true }
{
    match before {
        None => true,
        Some(last) => last.lent().compare_lent(key.lent()).is_lt(),
    }
}

// A loop, since a chain would have to drop what each check answers, which is no plainer.
#[tactic(auto, using(crate::proofs::Steps::details_stop, crate::proofs::Steps::details_more))]
fn check_details(tables: &Tables<'_>) -> Result<(), Refusal>
    ensures { result ≡ details_from tables.now.file.now tables.now.count 0 tables.now.count }
{
    for i in 0..tables.count {
        tables.details(i).check()?;
    }
    Ok(())
}
