//! Why a row has no answer.

use net_types::Memory;
use registry::RegFault;
use std::alloc::{AllocError, AllocFailed};

#[derive(Clone, Copy, Debug, PartialEq, Eq)]
pub enum Wrong {
    /// The row can't be asked.
    Row,
    /// Memory ran out.
    Memory,
}

impl From<Memory> for Wrong {
    fn from(_: Memory) -> Wrong {
        Wrong::Memory
    }
}

impl From<AllocError> for Wrong {
    fn from(_: AllocError) -> Wrong {
        Wrong::Memory
    }
}

impl<T: Drop> From<AllocFailed<T>> for Wrong {
    fn from(_: AllocFailed<T>) -> Wrong {
        Wrong::Memory
    }
}

impl From<RegFault> for Wrong {
    fn from(fault: RegFault) -> Wrong {
        match fault {
            RegFault::Memory => Wrong::Memory,
            RegFault::Taken | RegFault::Full => Wrong::Row,
        }
    }
}
