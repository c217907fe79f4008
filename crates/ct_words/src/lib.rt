//! Operations on 32-bit words, as the RISC-V unprivileged manual defines them for RV32I and M.
#![tactic(auto)]

mod alu_op;
mod arithmetic;
mod comparison;
mod cond;
mod extension;

pub use alu_op::AluOp;
pub use arithmetic::alu;
pub use comparison::test;
pub use cond::Cond;
pub use extension::extend;

#[cfg(test)]
mod tests;
