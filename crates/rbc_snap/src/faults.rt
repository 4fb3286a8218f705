//! Why an eye shows no view, or no scene.

use rbc_model::ViewFault;
use thiserror::Error;

/// Why an eye shows no view.
#[derive(Clone, Copy, Debug, PartialEq, Eq, Error)]
pub enum EyeFault {
    /// The published scene is of this version, below what the eye's seat was told.
    #[error("the published scene is behind")]
    Behind(u64),
    /// The train is shown no end, for this reason, in the scene of this version.
    #[error("no end is shown")]
    Unshown(ViewFault, u64),
}

/// The published scene is behind what the eye's seat was told.
#[derive(Clone, Copy, Debug, PartialEq, Eq, Error)]
#[error("the published scene is behind")]
pub struct Behind {
    /// The version of what is published.
    pub version: u64,
}
