// Text fields, keys and details where they stand in a file, as they are found and once they are checked.
ghost use Rattle.std.specs.Prelude.{◌≡◌, ◌+◌, ◌≤◌, true, length, slice_index, is_ok, Ok, Err};
ghost use Rattle.std.specs.Result.{MatchResult};
ghost use Rattle.parts.specs.Keys.{lent_fields};
ghost use Rattle.parts.proofs.Built.{key_from, details_from};
ghost use Rattle.report.specs.Layout.{text_at, fields_at, details_size, key_size, most_text, replaceable_place, text_field};
ghost use Rattle.report.specs.Checks.{all_zero, text_field_at, key_at, details_at};

use crate::layout::{
    DETAILS_SIZE, KEY_SIZE, MAKER, MODEL, MOST_TEXT, REPLACEABLE, SERIAL, TEXT_FIELD,
};
use der::refusal::{Reason, Refusal};
use parts::details::Details;
use parts::key::{Key, LentKey, Registry};

// So many bytes of a file from a place on, which refusals name.
#[derive(Clone, Copy)]
pub(crate) struct Record<'a, const SIZE: usize> {
    pub(crate) file: &'a [u8],
    pub(crate) at: usize,
    ghost within: { at + SIZE ≤ length file.now },
}

// A text field: its length byte, the text, zeros up to its size.
type TextField<'a> = Record<'a, TEXT_FIELD>;

impl<'a> TextField<'a> {
    fn check(&self, least: u8) -> Result<(), Refusal>
        ensures { result ≡ text_field_at self.now.file.now self.now.at least }
    {
        let len = self.file[self.at];
        if len < least || len > MOST_TEXT {
            return Err(Reason::TextSize.at(self.at));
        }
        if !all_zero(&self.file[self.at + 1 + usize::from(len)..self.at + TEXT_FIELD]) {
            return Err(Reason::BadContent.at(self.at));
        }
        Ok(())
    }

    // The text, where its length is in bounds.
    fn held(&self) -> &'a [u8]
        requires { slice_index self.now.file.now self.now.at ≤ most_text }
        ensures { result.now ≡ text_at self.now.file.now self.now.at }
    {
        let text = self.at + 1;
        &self.file[text..text + usize::from(self.file[self.at])]
    }
}

fn all_zero(bytes: &[u8]) -> bool
    ensures { result ≡ all_zero bytes.now }
{
    bytes.iter().all(|byte| *byte == 0)
}

// The bytes of a key.
pub(crate) type KeyRecord<'a> = Record<'a, KEY_SIZE>;

impl<'a> KeyRecord<'a> {
    pub(crate) fn check(&self) -> Result<CheckedKey<'a>, Refusal>
        ensures { MatchResult result (λ k. k.found ≡ self.now) (λ e. key_at self.now.file.now self.now.at ≡ Err e) }
    {
        if Registry::try_from(self.file[self.at]).is_err() {
            return Err(Reason::BadContent.at(self.at));
        }
        self.text(MAKER).check(1)?;
        self.text(MODEL).check(1)?;
        self.text(SERIAL).check(1)?;
        Ok(CheckedKey { found: *self })
    }

    fn text(&self, place: usize) -> TextField<'a>
        requires { place + text_field ≤ key_size }
        ensures { (result.file.now ≡ self.now.file.now) × (result.at ≡ self.now.at + place) }
    {
        TextField {
            file: self.file,
            at: self.at + place,
        }
    }
}

// The bytes of a key that its check accepts. Apart from that of details, since the two checks differ.
#[derive(Clone, Copy)]
pub(crate) struct CheckedKey<'a> {
    pub(crate) found: KeyRecord<'a>,
    ghost met: { is_ok (key_at found.file.now found.at) ≡ true },
}

impl<'a> CheckedKey<'a> {
    pub(crate) fn lent(&self) -> LentKey<'a>
        ensures { lent_fields result ≡ fields_at self.now.found.file.now self.now.found.at }
    {
        let KeyRecord { file, at } = self.found;
        LentKey {
            registry: file[at],
            class: &file[at + 1..at + MAKER],
            maker: self.found.text(MAKER).held(),
            model: self.found.text(MODEL).held(),
            serial: self.found.text(SERIAL).held(),
        }
    }

    pub(crate) fn key(&self) -> Key
        ensures { result ≡ key_from (fields_at self.now.found.file.now self.now.found.at) }
    {
        let lent = self.lent();
        let Some(class) = lent.class.first_chunk::<4>() else {
            unreachable()
        };
        match Key::new(lent.registry, *class, lent.maker, lent.model, lent.serial) {
            Ok(key) => key,
            Err(_) => unreachable(),
        }
    }
}

// The bytes of details.
pub(crate) type DetailsRecord<'a> = Record<'a, DETAILS_SIZE>;

impl<'a> DetailsRecord<'a> {
    pub(crate) fn check(&self) -> Result<CheckedDetails<'a>, Refusal>
        ensures { MatchResult result (λ d. d.found ≡ self.now) (λ e. details_at self.now.file.now self.now.at ≡ Err e) }
    {
        self.revision().check(0)?;
        if self.replaceable() > 2 {
            return Err(Reason::BadContent.at(self.at + REPLACEABLE));
        }
        Ok(CheckedDetails { found: *self })
    }

    fn revision(&self) -> TextField<'a>
        ensures { (result.file.now ≡ self.now.file.now) × (result.at ≡ self.now.at) }
    {
        TextField {
            file: self.file,
            at: self.at,
        }
    }

    fn replaceable(&self) -> u8
        ensures { result ≡ slice_index self.now.file.now (self.now.at + replaceable_place) }
    {
        self.file[self.at + REPLACEABLE]
    }
}

// The bytes of details that their check accepts.
#[derive(Clone, Copy)]
pub(crate) struct CheckedDetails<'a> {
    pub(crate) found: DetailsRecord<'a>,
    ghost met: { is_ok (details_at found.file.now found.at) ≡ true },
}

impl CheckedDetails<'_> {
    pub(crate) fn details(&self) -> Details
        ensures { result ≡ details_from (text_at self.now.found.file.now self.now.found.at) (slice_index self.now.found.file.now (self.now.found.at + replaceable_place)) }
    {
        match Details::new(self.found.revision().held(), self.found.replaceable()) {
            Ok(details) => details,
            Err(_) => unreachable(),
        }
    }
}
