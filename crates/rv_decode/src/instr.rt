//! The instructions.
use ct_words::{AluOp, Cond};

/// An instruction of RV32I or M. Registers are numbers below 32; immediates and offsets are
/// 32-bit two's complement.
#[derive(Clone, Copy, Debug, PartialEq, Eq, Hash)]
pub enum Instr {
    /// LUI, with the immediate in its place: the low 12 bits are 0.
    Lui {
        rd: u32,
        imm: u32,
    },
    /// AUIPC, with the immediate in its place: the low 12 bits are 0.
    Auipc {
        rd: u32,
        imm: u32,
    },
    Jal {
        rd: u32,
        offset: u32,
    },
    Jalr {
        rd: u32,
        rs1: u32,
        offset: u32,
    },
    /// BEQ, BNE, BLT, BGE, BLTU, BGEU.
    Branch {
        cond: Cond,
        rs1: u32,
        rs2: u32,
        offset: u32,
    },
    /// LB, LH, LW, LBU, LHU: 1, 2 or 4 bytes. LW is `signed`.
    Load {
        rd: u32,
        rs1: u32,
        offset: u32,
        bytes: u32,
        signed: bool,
    },
    /// SB, SH, SW: the low 1, 2 or 4 bytes of rs2.
    Store {
        rs1: u32,
        rs2: u32,
        offset: u32,
        bytes: u32,
    },
    /// An operation on a register and an immediate, as ADDI; of a shift it is the amount.
    OpImm {
        op: AluOp,
        rd: u32,
        rs1: u32,
        imm: u32,
    },
    /// An operation on two registers.
    Op {
        op: AluOp,
        rd: u32,
        rs1: u32,
        rs2: u32,
    },
    /// FENCE, with its whole word.
    Fence {
        word: u32,
    },
    /// ECALL.
    Call,
    /// EBREAK.
    Break,
}
