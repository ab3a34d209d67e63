// Certificates, read and vouched.
ghost use Rattle.std.specs.Prelude.{◌≡◌, Ok, Err, IfOk, MatchResult};
ghost use Rattle.der.specs.Numbers.{Bytes};
ghost use Rattle.certificate.specs.Checks.{checked, vouched};
ghost use Rattle.certificate.specs.Profile.{OneKind};
ghost use Rattle.certificate.specs.Readings.{Reads, Told};

use crate::check::check;
use crate::kind::{Delta, OfKind, Platform};
use crate::lent::LentCertificate;
use crate::places::Places;
use der::refusal::{Reason, Refusal};
use std::marker::PhantomData;

// A certificate of a kind that was read. The host has not vouched for it.
#[derive(Drop)]
pub struct ReadCertificate<'a, K: OfKind> {
    file: &'a [u8],
    places: Places,
    kind: PhantomData<K>,
    ghost found: { checked K.kind file.now ≡ Ok places },
    ghost bytes: { Bytes file.now },
}

pub type ReadPlatform<'a> = ReadCertificate<'a, Platform>;

pub type ReadDelta<'a> = ReadCertificate<'a, Delta>;

impl<'a, K: OfKind> ReadCertificate<'a, K> {
    // The certificate that a file is, or why it is none.
    pub fn read(file: &'a [u8]) -> Result<ReadCertificate<'a, K>, Refusal>
        ensures is { MatchResult result (λ r. checked K.kind file.now ≡ Ok r.places) (λ e. checked K.kind file.now ≡ Err e) }
        ensures file { IfOk result (λ r. r.file.now ≡ file.now) }
        ensures told { MatchResult result (λ r. Told K.kind file.now (Ok r.places)) (λ e. Told K.kind file.now (Err e)) }
        ensures one { OneKind file.now }
    {
        let places = check::<K>(file)?;
        Ok(ReadCertificate::make(file, places))
    }

    // The certificate in a file, of what its check found there.
    pub fn make(file: &'a [u8], places: Places) -> ReadCertificate<'a, K>
        requires { checked K.kind file.now ≡ Ok places }
        ensures file { result.file.now ≡ file.now }
        ensures places { result.places ≡ places }
    {
        ReadCertificate {
            file,
            places,
            kind: PhantomData,
        }
    }

    // Its parts. Their reading is the one that the profile gives this file.
    pub fn certificate(&self) -> LentCertificate<'a>
        ensures file { result.file.now ≡ self.now.file.now }
        ensures reads { (result.kind ≡ K.kind) × Reads K.kind result.file.now result.places }
    {
        LentCertificate {
            file: self.file,
            kind: K::kind(),
            places: self.places,
        }
    }

    // Whether the host vouches for it: the host has verified the signature and says yes or no, which is all it says.
    pub fn check_word(&self, word: bool) -> Result<(), Refusal>
        ensures { result ≡ vouched word }
    {
        if !word {
            return Err(Reason::NotVouched.at(0));
        }
        Ok(())
    }

    // The certificate as one that the host vouches for, where the host said yes. After a no it is gone; `check_word` and
    // `make` keep it.
    pub fn vouch(self, word: bool) -> Result<VouchedCertificate<'a, K>, Refusal>
        ensures { MatchResult result (λ v. (vouched word ≡ Ok tt) × (v.read ≡ self.entry)) (λ e. vouched word ≡ Err e) }
    {
        self.check_word(word)?;
        Ok(VouchedCertificate::make(self, word))
    }
}

// A certificate of a kind for which the host vouches.
#[derive(Drop)]
pub struct VouchedCertificate<'a, K: OfKind> {
    read: ReadCertificate<'a, K>,
}

pub type VouchedPlatform<'a> = VouchedCertificate<'a, Platform>;

pub type VouchedDelta<'a> = VouchedCertificate<'a, Delta>;

impl<'a, K: OfKind> VouchedCertificate<'a, K> {
    // The certificate that was read, after the host's yes.
    pub fn make(read: ReadCertificate<'a, K>, word: bool) -> VouchedCertificate<'a, K>
        requires { vouched word ≡ Ok tt }
        ensures { result.read ≡ read.entry }
    {
        VouchedCertificate { read }
    }

    // Its parts.
    pub fn certificate(&self) -> LentCertificate<'a>
        ensures file { result.file.now ≡ self.now.read.file.now }
        ensures reads { (result.kind ≡ K.kind) × Reads K.kind result.file.now result.places }
    {
        self.read.certificate()
    }
}
