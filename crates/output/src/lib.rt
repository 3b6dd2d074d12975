//! The normal form of the entries that tables tell of the rows of two files, each name once: its tables, its length and its bytes.
#![tactic(auto)]

pub mod file;
pub mod leads;
mod measure;

/// How many uses of names there are, and the length of the file.
#[derive(Clone, Copy, Debug, PartialEq, Eq)]
pub struct Measured {
    pub uses: usize,
    pub size: usize,
}

/// Why a file is not written.
#[derive(Clone, Copy, Debug, PartialEq, Eq)]
pub enum Unstored {
    /// Longer than a file may be.
    Long,
    /// Longer than the buffer: so many bytes.
    Short(usize),
}
