//! What is wrong with a table.

use lus_values::Memory;
use std::alloc::AllocFailed;
use thiserror::Error;

/// Why a table can't be tried.
#[derive(Debug, Drop, Error)]
pub enum TableError {
    #[error("out of memory")]
    Memory,
    /// The record at this place, from 0, is no head or no row, and why.
    #[error("{1}")]
    Wrong(usize, String),
}

impl From<Memory> for TableError {
    fn from(_error: Memory) -> TableError {
        TableError::Memory
    }
}

impl<T: Drop> From<AllocFailed<T>> for TableError {
    fn from(_error: AllocFailed<T>) -> TableError {
        TableError::Memory
    }
}
