//! Why a rung of a certificate has no witness, or a witness doesn't show its rung.

ghost use Rattle.std.specs.Prelude.{◌≡◌};
ghost use Rattle.mat_judge.specs.declared.reading.Unread.TheVariants.{Memory};
ghost use Rattle.mat_verify.specs.declared.refusals.NoRung.TheVariants as no_rung;
ghost use Rattle.mat_verify.specs.declared.refusals.Unshown.TheVariants as unshown;
ghost use Rattle.mat_verify.specs.WitnessRefusals.{unshown_by, refusal_of_no_rung, refusal_of_unshown};

use mat_cert::{CertKind, CertRefusal};
use mat_judge::{Denial, Refusal, Uncertified, Unread};
use std::alloc::AllocError;
use thiserror::Error;

/// Why a file has no answer of which a rung can be witnessed.
#[derive(Clone, Copy, Debug, Error)]
pub enum NoRung {
    /// It was not read, is no certificate, or memory ran out.
    #[error("{0}")]
    Uncertified(Uncertified),
    /// The form of the problem is not that of the answer, or the answer has no such rung.
    #[error("the form of the problem is not the certificate's, or there is no such rung")]
    WrongShape,
    /// A matroid is not of a kind that has witnesses.
    #[error("a matroid is not of a kind that has witnesses")]
    Unwitnessed,
}

/// Why a witness doesn't show its rung.
#[derive(Clone, Copy, Debug, Error)]
pub enum Unshown {
    /// It was not read, or memory ran out.
    #[error("{0}")]
    Unread(Unread),
    /// Its first fault, and the number of its line.
    #[error("line {1} of the witness: {0:?}")]
    Fault(CertKind, u32),
    /// The first part that fails.
    #[error("part {0} of the witness does not hold")]
    Part(u32),
}

impl From<Uncertified> for NoRung {
    ghost from_gives = { λ why e. e ≡ no_rung.Uncertified why };

    fn from(why: Uncertified) -> NoRung {
        NoRung::Uncertified(why)
    }
}

impl From<Unread> for Unshown {
    ghost from_gives = { λ unread e. e ≡ unshown.Unread unread };

    fn from(unread: Unread) -> Unshown {
        Unshown::Unread(unread)
    }
}

impl From<AllocError> for Unshown {
    ghost from_gives = { λ _ e. e ≡ unshown.Unread Memory };

    fn from(_error: AllocError) -> Unshown {
        Unshown::Unread(Unread::Memory)
    }
}

impl From<CertRefusal> for Unshown {
    ghost from_gives = { λ refusal e. e ≡ unshown_by refusal };

    fn from(refusal: CertRefusal) -> Unshown {
        match refusal {
            CertRefusal::Fault { kind, line } => Unshown::Fault(kind, line),
            CertRefusal::Memory => Unshown::Unread(Unread::Memory),
        }
    }
}

impl From<NoRung> for Refusal {
    ghost from_gives = { λ why e. e ≡ refusal_of_no_rung why };

    fn from(why: NoRung) -> Refusal {
        match why {
            NoRung::Uncertified(why) => Refusal::from(why),
            NoRung::WrongShape => Refusal::Denied(Denial::WrongShape),
            NoRung::Unwitnessed => Refusal::Denied(Denial::Unwitnessed),
        }
    }
}

impl From<Unshown> for Refusal {
    ghost from_gives = { λ why e. e ≡ refusal_of_unshown why };

    fn from(why: Unshown) -> Refusal {
        match why {
            Unshown::Unread(unread) => Refusal::Unread(unread),
            Unshown::Fault(kind, line) => Refusal::Denied(Denial::BadWitness(kind, line)),
            Unshown::Part(part) => Refusal::Denied(Denial::NotShown(part)),
        }
    }
}
