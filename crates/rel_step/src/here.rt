//! Where two runs are.

use rel_memory::RelMemory;
use rel_store::RelRegisters;

/// Where two runs are that went along one control path.
#[derive(Drop)]
pub(crate) struct Here {
    pub pc: u32,
    pub registers: RelRegisters,
    pub memory: RelMemory,
}
