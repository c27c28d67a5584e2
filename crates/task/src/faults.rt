// A refusal: what is wrong, at which place, met by which layer.
ghost use Rattle.std.specs.Prelude.{◌≡◌};
ghost use Rattle.task.specs.Numbers.{no_memory, number_of};

use std::alloc::{AllocError, AllocFailed};
use thiserror::Error;

// What is wrong. The first eighteen have a number each; want of memory has none.
#[derive(Clone, Copy, Debug, PartialEq, Eq, Error)]
pub enum Kind {
    #[error("the file stops before it is complete")]
    EndsEarly,
    #[error("a fixed word is wrong")]
    WrongWord,
    #[error("a number is ill-written or not allowed")]
    BadNumber,
    #[error("a form that is not handled")]
    NotCarried,
    #[error("a variable stands twice in the goal or in an operator")]
    VariableTwice,
    #[error("something is over a limit or does not fit its table")]
    OverLimit,
    #[error("bytes follow the end of the file")]
    BytesAfterEnd,
    #[error("a number names something that is not there")]
    OutOfRange,
    #[error("two moves are given for one state and operator")]
    ArcRepeated,
    #[error("an estimate breaks a law")]
    EstimateLaw,
    #[error("the span is too wide to be doubled")]
    SpanTooWide,
    #[error("the search has not gone far enough")]
    Unfinished,
    #[error("the tables of the search are full")]
    Full,
    #[error("there is no plan")]
    NoPlan,
    #[error("no cheapest plan has this number")]
    PastEnd,
    #[error("the buffer is too short")]
    BufferShort,
    #[error("a number is too large to be told exactly")]
    TooMany,
    #[error("the search was opened with another task")]
    NotThisTask,
    #[error("out of memory")]
    NoMemory,
}

// Who met it. Want of memory comes from the allocator, whoever asked it.
#[derive(Clone, Copy, Debug, PartialEq, Eq)]
pub enum Layer {
    Reading,
    Chart,
    Pile,
    Session,
    Text,
    Memory,
}

// The place is a line (from 1), a record or a step (from 0), or 0 where there is none.
#[derive(Clone, Copy, Debug, PartialEq, Eq, Error)]
#[error("{kind}, at {place}")]
pub struct Fault {
    pub kind: Kind,
    pub place: u32,
    pub layer: Layer,
}

impl Kind {
    // The number by which the kind is known, 1 to 18; none for want of memory. By hand: the numbers are the
    // project's own, and one kind has none.
    pub fn number(self) -> Option<u32>
        ensures { result ≡ number_of self }
    {
        match self {
            Kind::EndsEarly => Some(1),
            Kind::WrongWord => Some(2),
            Kind::BadNumber => Some(3),
            Kind::NotCarried => Some(4),
            Kind::VariableTwice => Some(5),
            Kind::OverLimit => Some(6),
            Kind::BytesAfterEnd => Some(7),
            Kind::OutOfRange => Some(8),
            Kind::ArcRepeated => Some(9),
            Kind::EstimateLaw => Some(10),
            Kind::SpanTooWide => Some(11),
            Kind::Unfinished => Some(12),
            Kind::Full => Some(13),
            Kind::NoPlan => Some(14),
            Kind::PastEnd => Some(15),
            Kind::BufferShort => Some(16),
            Kind::TooMany => Some(17),
            Kind::NotThisTask => Some(18),
            Kind::NoMemory => None,
        }
    }
}

impl Layer {
    // A fault that the layer met.
    pub fn fault(self, kind: Kind, place: u32) -> Fault
        ensures { result ≡ record { kind = kind; place = place; layer = self } }
    {
        Fault {
            kind,
            place,
            layer: self,
        }
    }
}

impl Fault {
    // Want of memory.
    pub fn memory() -> Fault
        ensures { result ≡ no_memory }
    {
        Layer::Memory.fault(Kind::NoMemory, 0)
    }
}

impl From<AllocError> for Fault {
    ghost from_gives = { λ _ r. r ≡ no_memory };

    fn from(_e: AllocError) -> Fault {
        Fault::memory()
    }
}

impl<T: Drop> From<AllocFailed<T>> for Fault {
    ghost from_gives = { λ _ r. r ≡ no_memory };

    fn from(_e: AllocFailed<T>) -> Fault {
        Fault::memory()
    }
}
