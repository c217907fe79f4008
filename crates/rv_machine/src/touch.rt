//! The memory access of a step.
/// The memory access of a step, with its first address.
#[derive(Clone, Copy, Debug, PartialEq, Eq)]
pub enum Touch {
    Nothing,
    Load(u32),
    Store(u32),
}
