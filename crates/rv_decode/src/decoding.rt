//! Instructions from words.
ghost use Rattle.std.specs.Prelude.{◌≡◌, IfSome};
ghost use Rattle.rv_decode.specs.Instructions as table;

use crate::fields;
use crate::instr::Instr;
use ct_words::{AluOp, Cond};

fn branch_cond(funct3: u32) -> Option<Cond>
    ensures { result ≡ table.branch_cond funct3 }
{
    match funct3 {
        0 => Some(Cond::Eq),
        1 => Some(Cond::Ne),
        4 => Some(Cond::Lt),
        5 => Some(Cond::Ge),
        6 => Some(Cond::Ltu),
        7 => Some(Cond::Geu),
        _ => None,
    }
}

fn load_kind(funct3: u32) -> Option<(u32, bool)>
    ensures { result ≡ table.load_kind funct3 }
{
    match funct3 {
        0 => Some((1, true)),
        1 => Some((2, true)),
        2 => Some((4, true)),
        4 => Some((1, false)),
        5 => Some((2, false)),
        _ => None,
    }
}

fn store_size(funct3: u32) -> Option<u32>
    ensures { result ≡ table.store_size funct3 }
{
    match funct3 {
        0 => Some(1),
        1 => Some(2),
        2 => Some(4),
        _ => None,
    }
}

fn immediate_op(funct3: u32) -> Option<AluOp>
    ensures { result ≡ table.immediate_op funct3 }
{
    match funct3 {
        0 => Some(AluOp::Add),
        2 => Some(AluOp::Slt),
        3 => Some(AluOp::Sltu),
        4 => Some(AluOp::Xor),
        6 => Some(AluOp::Or),
        7 => Some(AluOp::And),
        _ => None,
    }
}

fn shift_op(funct7: u32, funct3: u32) -> Option<AluOp>
    ensures { result ≡ table.shift_op funct7 funct3 }
{
    match (funct7, funct3) {
        (0, 1) => Some(AluOp::Sll),
        (0, 5) => Some(AluOp::Srl),
        (0x20, 5) => Some(AluOp::Sra),
        _ => None,
    }
}

fn base_op(funct3: u32) -> Option<AluOp>
    ensures { result ≡ table.base_op funct3 }
{
    match funct3 {
        0 => Some(AluOp::Add),
        1 => Some(AluOp::Sll),
        2 => Some(AluOp::Slt),
        3 => Some(AluOp::Sltu),
        4 => Some(AluOp::Xor),
        5 => Some(AluOp::Srl),
        6 => Some(AluOp::Or),
        7 => Some(AluOp::And),
        _ => None,
    }
}

fn other_op(funct3: u32) -> Option<AluOp>
    ensures { result ≡ table.other_op funct3 }
{
    match funct3 {
        0 => Some(AluOp::Sub),
        5 => Some(AluOp::Sra),
        _ => None,
    }
}

fn multiply_op(funct3: u32) -> Option<AluOp>
    ensures { result ≡ table.multiply_op funct3 }
{
    match funct3 {
        0 => Some(AluOp::Mul),
        1 => Some(AluOp::Mulh),
        2 => Some(AluOp::Mulhsu),
        3 => Some(AluOp::Mulhu),
        4 => Some(AluOp::Div),
        5 => Some(AluOp::Divu),
        6 => Some(AluOp::Rem),
        7 => Some(AluOp::Remu),
        _ => None,
    }
}

fn register_op(funct7: u32, funct3: u32) -> Option<AluOp>
    ensures { result ≡ table.register_op funct7 funct3 }
{
    match funct7 {
        0 => base_op(funct3),
        0x20 => other_op(funct3),
        1 => multiply_op(funct3),
        _ => None,
    }
}

fn jalr_of(word: u32) -> Option<Instr>
    ensures { result ≡ table.jalr_of word }
{
    if fields::funct3(word) != 0 {
        return None;
    }
    Some(Instr::Jalr {
        rd: fields::rd(word),
        rs1: fields::rs1(word),
        offset: fields::i_immediate(word),
    })
}

fn branch_of(word: u32) -> Option<Instr>
    ensures { result ≡ table.branch_of word }
{
    let cond = branch_cond(fields::funct3(word))?;
    Some(Instr::Branch {
        cond,
        rs1: fields::rs1(word),
        rs2: fields::rs2(word),
        offset: fields::b_immediate(word),
    })
}

fn load_of(word: u32) -> Option<Instr>
    ensures { result ≡ table.load_of word }
{
    let (bytes, signed) = load_kind(fields::funct3(word))?;
    Some(Instr::Load {
        rd: fields::rd(word),
        rs1: fields::rs1(word),
        offset: fields::i_immediate(word),
        bytes,
        signed,
    })
}

fn store_of(word: u32) -> Option<Instr>
    ensures { result ≡ table.store_of word }
{
    let bytes = store_size(fields::funct3(word))?;
    Some(Instr::Store {
        rs1: fields::rs1(word),
        rs2: fields::rs2(word),
        offset: fields::s_immediate(word),
        bytes,
    })
}

fn shift_of(word: u32) -> Option<Instr>
    ensures { result ≡ table.shift_of word }
{
    let op = shift_op(fields::funct7(word), fields::funct3(word))?;
    Some(Instr::OpImm {
        op,
        rd: fields::rd(word),
        rs1: fields::rs1(word),
        imm: fields::rs2(word),
    })
}

fn immediate_of(word: u32) -> Option<Instr>
    ensures { result ≡ table.immediate_of word }
{
    let funct3 = fields::funct3(word);
    if funct3 == 1 || funct3 == 5 {
        return shift_of(word);
    }
    let op = immediate_op(funct3)?;
    Some(Instr::OpImm {
        op,
        rd: fields::rd(word),
        rs1: fields::rs1(word),
        imm: fields::i_immediate(word),
    })
}

fn register_of(word: u32) -> Option<Instr>
    ensures { result ≡ table.register_of word }
{
    let op = register_op(fields::funct7(word), fields::funct3(word))?;
    Some(Instr::Op {
        op,
        rd: fields::rd(word),
        rs1: fields::rs1(word),
        rs2: fields::rs2(word),
    })
}

fn fence_of(word: u32) -> Option<Instr>
    ensures { result ≡ table.fence_of word }
{
    if fields::funct3(word) == 0 {
        Some(Instr::Fence { word })
    } else {
        None
    }
}

fn system_of(word: u32) -> Option<Instr>
    ensures { result ≡ table.system_of word }
{
    match word {
        0x0000_0073 => Some(Instr::Call),
        0x0010_0073 => Some(Instr::Break),
        _ => None,
    }
}

/// The instruction that a word stands for (RISC-V unprivileged manual, RV32I and M base opcode
/// tables). None exactly where the word is no instruction of these.
#[tactic(auto, unfolding(crate::specs::Instructions::instruction_of))]
pub fn decode(word: u32) -> Option<Instr>
    ensures value { result ≡ table.instruction_of word }
    ensures in_range { IfSome result table.InRange }
{
    match fields::opcode(word) {
        0x37 => Some(Instr::Lui {
            rd: fields::rd(word),
            imm: fields::u_immediate(word),
        }),
        0x17 => Some(Instr::Auipc {
            rd: fields::rd(word),
            imm: fields::u_immediate(word),
        }),
        0x6f => Some(Instr::Jal {
            rd: fields::rd(word),
            offset: fields::j_immediate(word),
        }),
        0x67 => jalr_of(word),
        0x63 => branch_of(word),
        0x03 => load_of(word),
        0x23 => store_of(word),
        0x13 => immediate_of(word),
        0x33 => register_of(word),
        0x0f => fence_of(word),
        0x73 => system_of(word),
        _ => None,
    }
}
