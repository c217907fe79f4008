//! The trait of what a member of a crew passes before it walks a path.

/// What each member of a crew passes before it walks a path. It promises nothing, but that who passed goes
/// on.
pub trait Gate: Sync {
    fn pass(&self, member: u32);
}
