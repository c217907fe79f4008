//! The names of registers and instructions.
ghost use Rattle.std.specs.Prelude.{◌≡◌, ◌<◌};
ghost use Rattle.ct_words.specs.Words.{IsAccessSize};
ghost use Rattle.rv_decode.specs.Text as names;

use ct_words::{AluOp, Cond};

/// The name of a register in the ABI (RISC-V psABI, "Integer Register Convention").
pub fn register(number: u32) -> &'static str
    requires { number < 32 }
    ensures { result.now ≡ names.register_text number }
{
    match number {
        0 => "zero",
        1 => "ra",
        2 => "sp",
        3 => "gp",
        4 => "tp",
        5 => "t0",
        6 => "t1",
        7 => "t2",
        8 => "s0",
        9 => "s1",
        10 => "a0",
        11 => "a1",
        12 => "a2",
        13 => "a3",
        14 => "a4",
        15 => "a5",
        16 => "a6",
        17 => "a7",
        18 => "s2",
        19 => "s3",
        20 => "s4",
        21 => "s5",
        22 => "s6",
        23 => "s7",
        24 => "s8",
        25 => "s9",
        26 => "s10",
        27 => "s11",
        28 => "t3",
        29 => "t4",
        30 => "t5",
        _ => "t6",
    }
}

pub fn branch(cond: Cond) -> &'static str
    ensures { result.now ≡ names.branch_name cond }
{
    match cond {
        Cond::Eq => "beq",
        Cond::Ne => "bne",
        Cond::Lt => "blt",
        Cond::Ge => "bge",
        Cond::Ltu => "bltu",
        Cond::Geu => "bgeu",
    }
}

pub fn load(bytes: u32, signed: bool) -> &'static str
    requires { IsAccessSize bytes }
    ensures { result.now ≡ names.load_name bytes signed }
{
    match (bytes, signed) {
        (1, true) => "lb",
        (1, false) => "lbu",
        (2, true) => "lh",
        (2, false) => "lhu",
        (_, true) => "lw",
        (_, false) => "lwu",
    }
}

pub fn store(bytes: u32) -> &'static str
    requires { IsAccessSize bytes }
    ensures { result.now ≡ names.store_name bytes }
{
    match bytes {
        1 => "sb",
        2 => "sh",
        _ => "sw",
    }
}

pub fn register_op(op: AluOp) -> &'static str
    ensures { result.now ≡ names.register_op_name op }
{
    match op {
        AluOp::Add => "add",
        AluOp::Sub => "sub",
        AluOp::Sll => "sll",
        AluOp::Slt => "slt",
        AluOp::Sltu => "sltu",
        AluOp::Xor => "xor",
        AluOp::Srl => "srl",
        AluOp::Sra => "sra",
        AluOp::Or => "or",
        AluOp::And => "and",
        AluOp::Mul => "mul",
        AluOp::Mulh => "mulh",
        AluOp::Mulhsu => "mulhsu",
        AluOp::Mulhu => "mulhu",
        AluOp::Div => "div",
        AluOp::Divu => "divu",
        AluOp::Rem => "rem",
        AluOp::Remu => "remu",
    }
}

pub fn immediate_op(op: AluOp) -> &'static str
    ensures { result.now ≡ names.immediate_op_name op }
{
    match op {
        AluOp::Add => "addi",
        AluOp::Sll => "slli",
        AluOp::Slt => "slti",
        AluOp::Sltu => "sltiu",
        AluOp::Xor => "xori",
        AluOp::Srl => "srli",
        AluOp::Sra => "srai",
        AluOp::Or => "ori",
        AluOp::And => "andi",
        _ => "",
    }
}
