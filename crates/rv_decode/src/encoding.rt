//! Words from instructions.
ghost use Rattle.std.specs.Prelude.{◌≡◌, ◌<◌, ◌^◌, ℕ, Some};
ghost use Rattle.ct_words.specs.Words.{IsAccessSize};
ghost use Rattle.rv_decode.specs.Instructions.{instruction_of, InRange, IsDecoded};
ghost use Rattle.rv_decode.specs.Table as table;
ghost use Rattle.rv_decode.specs.Encoding as words;

use crate::fields::bits;
use crate::instr::Instr;
use ct_words::{AluOp, Cond};

fn branch_funct3(cond: Cond) -> u32
    ensures value { result ≡ table.branch_funct3 cond }
    ensures short { result < 8 }
{
    match cond {
        Cond::Eq => 0,
        Cond::Ne => 1,
        Cond::Lt => 4,
        Cond::Ge => 5,
        Cond::Ltu => 6,
        Cond::Geu => 7,
    }
}

fn load_funct3(bytes: u32, signed: bool) -> u32
    ensures value { result ≡ words.load_funct3 bytes signed }
    ensures short { result < 8 }
{
    match (bytes, signed) {
        (1, true) => 0,
        (2, true) => 1,
        (_, true) => 2,
        (1, false) => 4,
        (_, false) => 5,
    }
}

fn store_funct3(bytes: u32) -> u32
    ensures value { result ≡ words.store_funct3 bytes }
    ensures short { result < 8 }
{
    match bytes {
        1 => 0,
        2 => 1,
        _ => 2,
    }
}

fn op_funct3(op: AluOp) -> u32
    ensures value { result ≡ table.op_funct3 op }
    ensures short { result < 8 }
{
    match op {
        AluOp::Add | AluOp::Sub | AluOp::Mul => 0,
        AluOp::Sll | AluOp::Mulh => 1,
        AluOp::Slt | AluOp::Mulhsu => 2,
        AluOp::Sltu | AluOp::Mulhu => 3,
        AluOp::Xor | AluOp::Div => 4,
        AluOp::Srl | AluOp::Sra | AluOp::Divu => 5,
        AluOp::Or | AluOp::Rem => 6,
        AluOp::And | AluOp::Remu => 7,
    }
}

fn op_funct7(op: AluOp) -> u32
    ensures value { result ≡ table.op_funct7 op }
    ensures short { result < 128 }
{
    match op {
        AluOp::Sub | AluOp::Sra => 0x20,
        AluOp::Add
        | AluOp::Sll
        | AluOp::Slt
        | AluOp::Sltu
        | AluOp::Xor
        | AluOp::Srl
        | AluOp::Or
        | AluOp::And => 0,
        _ => 1,
    }
}

fn r_word(opcode: u32, rd: u32, funct3: u32, rs1: u32, rs2: u32, funct7: u32) -> u32
    requires opcode { opcode < 128 }
    requires rd { rd < 32 }
    requires funct3 { funct3 < 8 }
    requires rs1 { rs1 < 32 }
    requires rs2 { rs2 < 32 }
    requires funct7 { funct7 < 128 }
    ensures { result ≡ words.r_word opcode rd funct3 rs1 rs2 funct7 }
{
    funct7 * (1 << 25)
        + rs2 * (1 << 20)
        + rs1 * (1 << 15)
        + funct3 * (1 << 12)
        + rd * (1 << 7)
        + opcode
}

fn i_word(opcode: u32, rd: u32, funct3: u32, rs1: u32, imm: u32) -> u32
    requires opcode { opcode < 128 }
    requires rd { rd < 32 }
    requires funct3 { funct3 < 8 }
    requires rs1 { rs1 < 32 }
    ensures { result ≡ words.i_word opcode rd funct3 rs1 imm }
{
    r_word(opcode, rd, funct3, rs1, bits(imm, 4, 0), bits(imm, 11, 5))
}

fn s_word(opcode: u32, funct3: u32, rs1: u32, rs2: u32, imm: u32) -> u32
    requires opcode { opcode < 128 }
    requires funct3 { funct3 < 8 }
    requires rs1 { rs1 < 32 }
    requires rs2 { rs2 < 32 }
    ensures { result ≡ words.s_word opcode funct3 rs1 rs2 imm }
{
    r_word(opcode, bits(imm, 4, 0), funct3, rs1, rs2, bits(imm, 11, 5))
}

fn b_word(opcode: u32, funct3: u32, rs1: u32, rs2: u32, imm: u32) -> u32
    requires opcode { opcode < 128 }
    requires funct3 { funct3 < 8 }
    requires rs1 { rs1 < 32 }
    requires rs2 { rs2 < 32 }
    ensures { result ≡ words.b_word opcode funct3 rs1 rs2 imm }
{
    let low = bits(imm, 4, 1) * 2 + bits(imm, 11, 11);
    let high = bits(imm, 12, 12) * 0x40 + bits(imm, 10, 5);
    r_word(opcode, low, funct3, rs1, rs2, high)
}

fn u_word(opcode: u32, rd: u32, imm: u32) -> u32
    requires opcode { opcode < 128 }
    requires rd { rd < 32 }
    ensures { result ≡ words.u_word opcode rd imm }
{
    r_word(
        opcode,
        rd,
        bits(imm, 14, 12),
        bits(imm, 19, 15),
        bits(imm, 24, 20),
        bits(imm, 31, 25),
    )
}

fn j_word(opcode: u32, rd: u32, imm: u32) -> u32
    requires opcode { opcode < 128 }
    requires rd { rd < 32 }
    ensures { result ≡ words.j_word opcode rd imm }
{
    let low = bits(imm, 4, 1) * 2 + bits(imm, 11, 11);
    let high = bits(imm, 20, 20) * 0x40 + bits(imm, 10, 5);
    r_word(opcode, rd, bits(imm, 14, 12), bits(imm, 19, 15), low, high)
}

fn op_imm_word(op: AluOp, rd: u32, rs1: u32, imm: u32) -> u32
    requires rd { rd < 32 }
    requires rs1 { rs1 < 32 }
    ensures { result ≡ words.op_imm_word op rd rs1 imm }
{
    match op {
        AluOp::Sll => r_word(0x13, rd, 1, rs1, bits(imm, 4, 0), 0),
        AluOp::Srl => r_word(0x13, rd, 5, rs1, bits(imm, 4, 0), 0),
        AluOp::Sra => r_word(0x13, rd, 5, rs1, bits(imm, 4, 0), 0x20),
        _ => i_word(0x13, rd, op_funct3(op), rs1, imm),
    }
}

#[tactic(auto, unfolding(crate::specs::Encoding::word_of))]
fn word_of(instr: Instr) -> u32
    requires { InRange instr }
    ensures { result ≡ words.word_of instr }
{
    match instr {
        Instr::Lui { rd, imm } => u_word(0x37, rd, imm),
        Instr::Auipc { rd, imm } => u_word(0x17, rd, imm),
        Instr::Jal { rd, offset } => j_word(0x6f, rd, offset),
        Instr::Jalr { rd, rs1, offset } => i_word(0x67, rd, 0, rs1, offset),
        Instr::Branch {
            cond,
            rs1,
            rs2,
            offset,
        } => b_word(0x63, branch_funct3(cond), rs1, rs2, offset),
        Instr::Load {
            rd,
            rs1,
            offset,
            bytes,
            signed,
        } => i_word(0x03, rd, load_funct3(bytes, signed), rs1, offset),
        Instr::Store {
            rs1,
            rs2,
            offset,
            bytes,
        } => s_word(0x23, store_funct3(bytes), rs1, rs2, offset),
        Instr::OpImm { op, rd, rs1, imm } => op_imm_word(op, rd, rs1, imm),
        Instr::Op { op, rd, rs1, rs2 } => r_word(0x33, rd, op_funct3(op), rs1, rs2, op_funct7(op)),
        Instr::Fence { word } => word,
        Instr::Call => 0x0000_0073,
        Instr::Break => 0x0010_0073,
    }
}

/// The word that stands for an instruction; FENCE keeps its whole word.
pub fn encode(instr: Instr) -> u32
    requires { IsDecoded instr }
    ensures decodes { instruction_of result ≡ Some instr }
    ensures word { (w : ℕ) → w < 2 ^ 32 → instruction_of w ≡ Some instr → result ≡ w }
{
    word_of(instr)
}
