// A probe report as an inventory, over the lent bytes.
ghost use Rattle.std.specs.Prelude.{◌≡◌, ◌<◌, ◌≤◌, true, length, is_ok, Ok, Err, None, Some};
ghost use Rattle.std.specs.Option.{IfSome, option_map_or};
ghost use Rattle.std.specs.List.{find, range_with_len};
ghost use Rattle.std.specs.Ordering.{is_eq, is_lt};
ghost use Rattle.std.specs.Result.{IfOk, MatchResult};
ghost use Rattle.model.specs.Parts.{most_parts};
ghost use Rattle.model.specs.Rises.{rises};
ghost use Rattle.parts.specs.Keys.{order};
ghost use Rattle.report.specs.Layout.{key_place, two_at};
ghost use Rattle.report.specs.Checks.{checked};
ghost use Rattle.report.specs.Meaning.{part_at, parts_in};
ghost use Rattle.report.specs.Format.{Reports, TheReport};
ghost use Rattle.model.proofs.Rises.{rises_told};

use crate::check::check_report;
use crate::fields::{CheckedDetails, CheckedKey};
use crate::layout::two_at;
use crate::tables::Tables;
use der::refusal::Refusal;
use model::part::Part;
use parts::details::Details;
use parts::inventory::Inventory;
use parts::key::Key;
use std::cmp::Ordering;

// A file that the check accepts. Its methods that look at one part take the part's number, below the number of keys: as
// one struct with the report it was tried, and the proof did not close (`grind` at the closures of the two searches).
#[derive(Clone, Copy)]
pub struct Report<'a> {
    file: &'a [u8],
    keys: usize,
    ghost ok: { is_ok (checked file.now) ≡ true },
    ghost counted: { keys ≡ two_at file.now 0 },
    ghost up: { rises order (parts_in file.now) ≡ true },
    ghost small: { length (parts_in file.now) ≤ most_parts },
}

impl<'a> Report<'a> {
    // The report that a file is, or why it is none.
    pub fn read(file: &'a [u8]) -> Result<Report<'a>, Refusal>
        ensures accepts { MatchResult result (λ r. checked file.now ≡ Ok tt) (λ e. checked file.now ≡ Err e) }
        ensures told { MatchResult result (λ r. TheReport file.now) (λ e. (ps : _) → Reports file.now ps → ⊥) }
        ensures means { IfOk result (λ r. (r.file.now ≡ file.now) × Reports file.now (parts_in r.file.now)) }
    {
        check_report(file)?;
        Ok(Report::make(file))
    }

    // The report in a file that the check accepted.
    pub fn make(file: &'a [u8]) -> Report<'a>
        requires { checked file.now ≡ Ok tt }
        ensures same { result.file.now ≡ file.now }
        ensures means { Reports file.now (parts_in result.file.now) }
    {
        Report {
            file,
            keys: two_at(file, 0),
        }
    }

    fn tables(&self) -> Tables<'a>
        ensures { (result.file.now ≡ self.now.file.now) × (result.count ≡ self.now.keys) }
    {
        Tables {
            file: self.file,
            count: self.keys,
        }
    }

    // The key with a number below the number of keys.
    fn key(&self, i: usize) -> CheckedKey<'a>
        requires { i < self.now.keys }
        ensures { (result.found.file.now ≡ self.now.file.now) × (result.found.at ≡ key_place i) }
    {
        CheckedKey {
            found: self.tables().key(i),
        }
    }

    fn details(&self, i: usize) -> Details
        requires { i < self.now.keys }
        ensures { result ≡ (part_at self.now.file.now self.now.keys i).details }
    {
        let checked = CheckedDetails {
            found: self.tables().details(i),
        };
        checked.details()
    }

    fn part(&self, i: usize) -> Part<Key, Details>
        requires { i < self.now.keys }
        ensures { result ≡ part_at self.now.file.now self.now.keys i }
    {
        Part {
            key: self.key(i).key(),
            details: self.details(i),
        }
    }

    // A key against the one with a number below the number of keys. Inlined, so that a search is as fast as a loop.
    #[inline(always)]
    fn against(&self, i: usize, key: &Key) -> Ordering
        requires { i < self.now.keys }
        ensures { result ≡ order key.now (part_at self.now.file.now self.now.keys i).key }
    {
        key.against(self.key(i).lent())
    }

    // Whether the part with such a number is above a key; where no key is given, every part is.
    fn is_above(&self, i: usize, key: Option<&Key>) -> bool
        requires { i < self.now.keys }
        ensures { result ≡ option_map_or (λ k. is_lt (order k.now (part_at self.now.file.now self.now.keys i).key)) key.entry true }
    {
        match key {
            None => true,
            Some(key) => self.against(i, key).is_lt(),
        }
    }

    // The number of the part with a key.
    fn place_of(&self, key: &Key) -> Option<usize>
        ensures is { result ≡ find (λ i. is_eq (order key.now (part_at self.now.file.now self.now.keys i).key)) (range_with_len 0 self.now.keys) }
        ensures within { IfSome result (λ i. i < self.now.keys) }
    {
        (0..self.keys).find(|&i| self.against(i, key).is_eq())
    }

    // The number of the first part above a key, or of the first of all where no key is given.
    fn place_above(&self, key: Option<&Key>) -> Option<usize>
        ensures is { result ≡ find (λ i. option_map_or (λ k. is_lt (order k.now (part_at self.now.file.now self.now.keys i).key)) key.entry true) (range_with_len 0 self.now.keys) }
        ensures within { IfSome result (λ i. i < self.now.keys) }
    {
        (0..self.keys).find(|&i| self.is_above(i, key))
    }
}

impl Inventory for Report<'_> {
    ghost parts = { λ x. parts_in x.file.now };

    ghost bounded = { λ x. Unit {0} };

    ghost rising = { λ x. rises_told order (parts_in x.file.now) x.up };

    ghost few = { λ x h. x.small };

    fn find(&self, key: &Key) -> Option<Details> {
        let i = self.place_of(key)?;
        Some(self.details(i))
    }

    fn next(&self, above: Option<&Key>) -> Option<Part<Key, Details>> {
        let i = self.place_above(above)?;
        Some(self.part(i))
    }

    fn count(&self) -> usize {
        self.keys
    }
}
