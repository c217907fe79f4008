//! What the command line says beside a policy.
/// What the command line says of a check beside its policy.
#[derive(Clone, Copy, Debug, PartialEq, Eq)]
pub struct Options {
    /// The number of steps up to which runs are compared, in place of the policy's own: 1 to 100,000.
    pub bound: Option<u32>,
    /// How many learnt lines a question may take: at most 1,000,000.
    pub budget: u64,
    /// How many targets of one indirect jump are explored: 1 to 256.
    pub targets: u32,
}
