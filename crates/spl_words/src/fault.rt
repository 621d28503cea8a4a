// Why a line has no answer.
use spl_field::field::NoMemory;
use std::alloc::AllocError;
use thiserror::Error;

/// Why a line has no answer.
#[derive(Debug, Drop, Error)]
pub enum Fault {
    /// It can't be read, or breaks the condition of its call.
    #[error("bad line")]
    BadLine,

    /// There was not enough memory.
    #[error("out of memory")]
    Memory(#[from(alloc)] AllocError),
}

impl From<NoMemory> for Fault {
    fn from(_e: NoMemory) -> Fault {
        Fault::Memory(AllocError)
    }
}
