// The two tables of a probe report: its keys, then its details.
ghost use Rattle.std.specs.Prelude.{◌≡◌, ◌<◌, ◌≤◌, length};
ghost use Rattle.report.specs.Layout.{key_place, details_place, report_size, most_reported};

use crate::fields::{DetailsRecord, KeyRecord};
use crate::layout::{DETAILS_SIZE, KEY_SIZE, SIZES};

// A file that is as long as its number of keys says.
#[derive(Clone, Copy)]
pub(crate) struct Tables<'a> {
    pub(crate) file: &'a [u8],
    pub(crate) count: usize,
    ghost few: { count ≤ most_reported },
    ghost long: { length file.now ≡ report_size count },
}

impl<'a> Tables<'a> {
    pub(crate) fn key(&self, i: usize) -> KeyRecord<'a>
        requires { i < self.now.count }
        ensures { (result.file.now ≡ self.now.file.now) × (result.at ≡ key_place i) }
    {
        KeyRecord {
            file: self.file,
            at: SIZES + KEY_SIZE * i,
        }
    }

    pub(crate) fn details(&self, i: usize) -> DetailsRecord<'a>
        requires { i < self.now.count }
        ensures { (result.file.now ≡ self.now.file.now) × (result.at ≡ details_place self.now.count i) }
    {
        DetailsRecord {
            file: self.file,
            at: SIZES + KEY_SIZE * self.count + DETAILS_SIZE * i,
        }
    }
}
