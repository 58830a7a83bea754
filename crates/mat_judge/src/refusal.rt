//! Why a call is refused.

ghost use Rattle.std.specs.Prelude.{◌≡◌};
ghost use Rattle.mat_judge.specs.Statuses.{
  status_of,
  status_of_denial,
  status_of_unread,
  out_of_memory,
  refusal_of_unread,
  refusal_of_undescribed,
  refusal_of_uncertified,
  refusal_of_not_right,
};

use crate::certified::{NotRight, Uncertified};
use crate::described::Undescribed;
use crate::reading::Unread;
use crate::status::Status;
use mat_cert::CertKind;
use mat_check::Reason;
use mat_desc::DescKind;
use std::alloc::AllocError;
use thiserror::Error;

/// What the files of a call say against it.
#[derive(Clone, Copy, Debug, Error)]
pub enum Denial {
    /// The first clause of the answer that fails, and its two places: two numbers, whose meaning [`Reason`] gives.
    #[error("the answer isn't right: {0:?} {1} {2}")]
    No(Reason, u32, u32),
    /// The first part of the witness that fails, by its number, counted from 1.
    #[error("part {0} of the witness does not hold")]
    NotShown(u32),
    /// The description's first fault, and the number of its line.
    #[error("line {1} of the description: {0:?}")]
    BadDescription(DescKind, u32),
    /// The certificate's first fault, and the number of its line.
    #[error("line {1} of the certificate: {0:?}")]
    BadCertificate(CertKind, u32),
    /// The form of the problem is not the command's or the certificate's, or the certificate has no such rung.
    #[error("the form of the problem is not the command's or the certificate's, or there is no such rung")]
    WrongShape,
    /// A matroid is not of a kind that has witnesses.
    #[error("a matroid is not of a kind that has witnesses")]
    Unwitnessed,
    /// The witness's first fault, and the number of its line.
    #[error("line {1} of the witness: {0:?}")]
    BadWitness(CertKind, u32),
    /// A cost is below 0 or has a tie.
    #[error("a cost is below 0 or has a tie")]
    BadCost,
    /// The first line of the list that is not the needed one, by its number.
    #[error("line {0} of the list is not the needed one")]
    BadList(u32),
}

/// Why a call was refused.
#[derive(Clone, Copy, Debug, Error)]
pub enum Refusal {
    /// The words are no command.
    #[error("the words are no command")]
    Usage,
    /// The answer could not be written whole.
    #[error("the answer could not be written whole")]
    WriteFault,
    /// A file was not read, or memory ran out.
    #[error("{0}")]
    Unread(Unread),
    /// The files of the call say something against it.
    #[error("{0}")]
    Denied(Denial),
}

impl Denial {
    // The status of a call that was denied so.
    fn status(self) -> Status
        ensures { result ≡ status_of_denial self }
    {
        match self {
            Denial::No(_, _, _) | Denial::NotShown(_) => Status::No,
            Denial::BadDescription(_, _) => Status::BadDescription,
            Denial::BadCertificate(_, _) => Status::BadCertificate,
            Denial::WrongShape => Status::WrongShape,
            Denial::Unwitnessed => Status::Unwitnessed,
            Denial::BadWitness(_, _) => Status::BadWitness,
            Denial::BadCost => Status::BadCost,
            Denial::BadList(_) => Status::BadList,
        }
    }
}

impl Unread {
    // The status of a call that did not read a file.
    fn status(self) -> Status
        ensures { result ≡ status_of_unread self }
    {
        match self {
            Unread::Fault => Status::ReadFault,
            Unread::TooLong => Status::TooLong,
            Unread::Memory => Status::Memory,
        }
    }
}

impl Refusal {
    /// The status of a call that was refused so.
    pub fn status(self) -> Status
        ensures { result ≡ status_of self }
    {
        match self {
            Refusal::Usage => Status::Usage,
            Refusal::WriteFault => Status::WriteFault,
            Refusal::Unread(unread) => unread.status(),
            Refusal::Denied(denial) => denial.status(),
        }
    }
}

impl From<AllocError> for Refusal {
    ghost from_gives = { λ _ e. e ≡ out_of_memory };

    fn from(_error: AllocError) -> Refusal {
        Refusal::Unread(Unread::Memory)
    }
}

impl From<Unread> for Refusal {
    ghost from_gives = { λ unread e. e ≡ refusal_of_unread unread };

    fn from(unread: Unread) -> Refusal {
        Refusal::Unread(unread)
    }
}

impl From<Undescribed> for Refusal {
    ghost from_gives = { λ why e. e ≡ refusal_of_undescribed why };

    fn from(why: Undescribed) -> Refusal {
        match why {
            Undescribed::Unread(unread) => Refusal::Unread(unread),
            Undescribed::Fault(kind, line) => Refusal::Denied(Denial::BadDescription(kind, line)),
        }
    }
}

impl From<Uncertified> for Refusal {
    ghost from_gives = { λ why e. e ≡ refusal_of_uncertified why };

    fn from(why: Uncertified) -> Refusal {
        match why {
            Uncertified::Unread(unread) => Refusal::Unread(unread),
            Uncertified::Fault(kind, line) => Refusal::Denied(Denial::BadCertificate(kind, line)),
        }
    }
}

impl From<NotRight> for Refusal {
    ghost from_gives = { λ why e. e ≡ refusal_of_not_right why };

    fn from(why: NotRight) -> Refusal {
        match why {
            NotRight::Uncertified(why) => Refusal::from(why),
            NotRight::WrongShape => Refusal::Denied(Denial::WrongShape),
            NotRight::No(reason, first, second) => Refusal::Denied(Denial::No(
                reason, first, second,
            )),
        }
    }
}
