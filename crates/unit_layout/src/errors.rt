//! Why there is no layout.
ghost use Rattle.std.specs.Prelude.{◌≡◌};

use std::alloc::AllocError;
use thiserror::Error;

/// What is wrong with the groups. Groups are numbered from 0.
#[derive(Clone, Copy, Debug, PartialEq, Eq, Error)]
pub enum LayoutError {
    /// A group has no processor.
    #[error("group {group} has no processor")]
    NoCpu {
        /// The first such group.
        group: u32,
    },
    /// There are more than 8 groups.
    #[error("{groups} groups are more than 8")]
    TooManyGroups {
        /// How many there are.
        groups: u32,
    },
    /// The spans of two groups share a page.
    #[error("groups {first} and {second} share a page")]
    Overlap {
        /// The first group that shares a page with a later one.
        first: u32,
        /// The first later group with which it does.
        second: u32,
    },
    /// A group ends above page 1,048,576.
    #[error("the groups end at page {pages}")]
    TooWide {
        /// The greatest end of a group, in pages from the base.
        pages: u64,
    },
}

/// Why a layout was not built.
#[derive(Debug, Drop, Error)]
pub enum BuildError {
    /// The groups are refused.
    #[error("{0}")]
    Layout(LayoutError),
    /// There was no memory for the groups or the units.
    #[error("out of memory")]
    OutOfMemory,
}

impl From<AllocError> for BuildError {
    ghost use Rattle.unit_layout.specs.declared.errors.BuildError.{BuildError};

    ghost from_gives = { λ _ e. e ≡ BuildError.OutOfMemory };

    fn from(_error: AllocError) -> BuildError {
        BuildError::OutOfMemory
    }
}
