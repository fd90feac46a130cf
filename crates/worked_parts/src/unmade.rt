//! `Unmade`: why a text makes nothing.
use file_reading::Stop;
use flux_model::Code;
use std::alloc::AllocError;

/// Why a text makes nothing.
#[derive(Clone, Copy, Debug, PartialEq, Eq)]
pub enum Unmade {
    /// Its reading stops here, or memory is refused behind it.
    Stopped(Stop),
    /// A line of updates is refused so.
    Refused(Code),
    /// A line of updates says nothing.
    Silent,
    /// There is no pattern.
    NoPattern,
    /// There is not a card for each edge and each vertex of a pattern.
    NoCard,
}

impl From<AllocError> for Unmade {
    fn from(_error: AllocError) -> Unmade {
        Unmade::Stopped(Stop::Memory)
    }
}

impl From<Stop> for Unmade {
    fn from(stop: Stop) -> Unmade {
        Unmade::Stopped(stop)
    }
}
