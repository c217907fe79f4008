//! The failure of a call to the outside.

/// A call to the outside failed: a device, a file system or a name that isn't there.
#[derive(Clone, Copy, Debug, PartialEq, Eq)]
pub struct Failed;
