// What the program says of a refusal.
use crate::notation::Notation;
use der::refusal::{Reason, Refusal};
use std::fmt;

// The number, the place and the reason in words.
impl fmt::Display for Notation<'_, Refusal> {
    fn fmt<W: fmt::Write>(&self, f: &mut fmt::Formatter<W>) -> fmt::Result {
        let Refusal { reason, place } = *self.0;
        write!(
            f,
            "refused {} at {place}: {}",
            u8::from(reason),
            Notation(&reason)
        )
    }
}

impl fmt::Display for Notation<'_, Reason> {
    fn fmt<W: fmt::Write>(&self, f: &mut fmt::Formatter<W>) -> fmt::Result {
        f.write_str(match self.0 {
            Reason::FileTooLong => "the file is too long",
            Reason::CutShort =>
                "cut short: bytes are missing, or the content goes past the end of what holds it",
            Reason::LengthForm => "the length is in no form taken here, or a shorter form would do",
            Reason::WrongTag => "another tag than wanted, or nothing there",
            Reason::BytesLeft => "bytes are left over",
            Reason::BadContent => "the content breaks its rule",
            Reason::TextSize => "the text or name is too short or too long",
            Reason::ListSize => "the list is empty or too long",
            Reason::Repeated => "an identifier or key stands there twice, or the keys do not rise",
            Reason::EntryMissing => "a required entry is missing",
            Reason::CriticalMark => "the extension may not be critical",
            Reason::AlgorithmsDiffer => "the two algorithms differ",
            Reason::Status => "the status is missing or not wanted",
            Reason::OtherKind => "it is the other kind of certificate",
            Reason::NotVouched => "the signature was not vouched for",
            Reason::ClaimOut => "a claim is out",
            Reason::NotHead => "the delta does not follow the head",
            Reason::AlreadyFitted => "the part to add is fitted already",
            Reason::NotFitted => "the part to modify or remove is not fitted",
            Reason::TooManyKeys => "the layer would have to remember too many keys",
            Reason::TooManyParts => "too many parts would be fitted",
            Reason::ClaimVoid => "the claim is another layer's, or nothing is staged",
            Reason::NamedTwice => "the delta names the key twice",
        })
    }
}
