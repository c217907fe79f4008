//! A block of generated code, and its words.
ghost use Rattle.std.specs.Prelude.{◌≡◌, ◌++◌, All};
ghost use Rattle.std.specs.Result.{OnOk};
ghost use Rattle.rv_decode.specs.Instructions.{IsDecoded};
ghost use Rattle.rv_decode.specs.Encoding as words;
ghost use Rattle.ct_gen.specs.Blocks.{IsBlock};
ghost use Rattle.ct_gen.specs.Code as coded;

use ct_words::AluOp;
use rv_decode::{Instr, encode};
use std::alloc::AllocError;

// The registers by their names in the ABI.
const ZERO: u32 = 0;

const RA: u32 = 1;

const T0: u32 = 5;

const T1: u32 = 6;

const T2: u32 = 7;

const S0: u32 = 8;

const S1: u32 = 9;

const S2: u32 = 18;

/// A block of generated code, by what it does with the value in s1. s0 points to secret bytes, and
/// s2 to memory.
#[derive(Clone, Copy)]
pub enum Block {
    /// Mixes a secret byte and its offset into the value.
    Mix { offset: u32 },
    /// Stores the value at an offset, and adds to it what is then loaded there.
    Keep { offset: u32 },
    /// Shifts the value to the left, and multiplies it by that.
    Scale { amount: u32 },
    /// Loads at an address that a secret byte chooses.
    Follow { offset: u32 },
}

impl Block {
    /// Appends the words of the block.
    pub fn push(self, code: &mut Vec<u32>) -> Result<(), AllocError>
        requires { IsBlock self }
        ensures { OnOk result (code.new.items ≡ code.old.items ++ coded.words_of (coded.block_code self)) }
    {
        match self {
            Block::Mix { offset } => push_mix(code, offset),
            Block::Keep { offset } => push_keep(code, offset),
            Block::Scale { amount } => push_scale(code, amount),
            Block::Follow { offset } => push_follow(code, offset),
        }
    }
}

fn load_byte(rd: u32, rs1: u32, offset: u32) -> Instr
    ensures { result ≡ coded.load_byte rd rs1 offset }
{
    Instr::Load {
        rd,
        rs1,
        offset,
        bytes: 1,
        signed: false,
    }
}

fn load_word(rd: u32, rs1: u32, offset: u32) -> Instr
    ensures { result ≡ coded.load_word rd rs1 offset }
{
    Instr::Load {
        rd,
        rs1,
        offset,
        bytes: 4,
        signed: true,
    }
}

fn store_word(rs1: u32, rs2: u32, offset: u32) -> Instr
    ensures { result ≡ coded.store_word rs1 rs2 offset }
{
    Instr::Store {
        rs1,
        rs2,
        offset,
        bytes: 4,
    }
}

fn on_number(op: AluOp, rd: u32, rs1: u32, imm: u32) -> Instr
    ensures { result ≡ Instr.OpImm op rd rs1 imm }
{
    Instr::OpImm { op, rd, rs1, imm }
}

fn on_registers(op: AluOp, rd: u32, rs1: u32, rs2: u32) -> Instr
    ensures { result ≡ Instr.Op op rd rs1 rs2 }
{
    Instr::Op { op, rd, rs1, rs2 }
}

#[tactic(auto, unfolding(crate::specs::Code::block_code))]
fn push_mix(code: &mut Vec<u32>, offset: u32) -> Result<(), AllocError>
    requires { IsBlock (Block.Mix offset) }
    ensures { OnOk result (code.new.items ≡ code.old.items ++ coded.words_of (coded.block_code (Block.Mix offset))) }
{
    push_instructions(
        code,
        &[
            load_byte(T0, S0, offset),
            on_registers(AluOp::Xor, S1, S1, T0),
            on_number(AluOp::Add, S1, S1, offset),
        ],
    )
}

#[tactic(auto, unfolding(crate::specs::Code::block_code))]
fn push_keep(code: &mut Vec<u32>, offset: u32) -> Result<(), AllocError>
    requires { IsBlock (Block.Keep offset) }
    ensures { OnOk result (code.new.items ≡ code.old.items ++ coded.words_of (coded.block_code (Block.Keep offset))) }
{
    push_instructions(
        code,
        &[
            store_word(S2, S1, offset),
            load_word(T1, S2, offset),
            on_registers(AluOp::Add, S1, S1, T1),
        ],
    )
}

#[tactic(auto, unfolding(crate::specs::Code::block_code))]
fn push_scale(code: &mut Vec<u32>, amount: u32) -> Result<(), AllocError>
    requires { IsBlock (Block.Scale amount) }
    ensures { OnOk result (code.new.items ≡ code.old.items ++ coded.words_of (coded.block_code (Block.Scale amount))) }
{
    push_instructions(
        code,
        &[
            on_number(AluOp::Sll, T2, S1, amount),
            on_registers(AluOp::Mul, S1, S1, T2),
        ],
    )
}

#[tactic(auto, unfolding(crate::specs::Code::block_code))]
fn push_follow(code: &mut Vec<u32>, offset: u32) -> Result<(), AllocError>
    requires { IsBlock (Block.Follow offset) }
    ensures { OnOk result (code.new.items ≡ code.old.items ++ coded.words_of (coded.block_code (Block.Follow offset))) }
{
    push_instructions(
        code,
        &[
            load_byte(T0, S0, offset),
            on_number(AluOp::And, T0, T0, 3),
            on_registers(AluOp::Add, T0, T0, S2),
            load_byte(T1, T0, 0),
        ],
    )
}

/// Appends the word of a return.
pub fn push_return(code: &mut Vec<u32>) -> Result<(), AllocError>
    ensures { OnOk result (code.new.items ≡ code.old.items ++ coded.words_of coded.return_code) }
{
    push_instructions(
        code,
        &[Instr::Jalr {
            rd: ZERO,
            rs1: RA,
            offset: 0,
        }],
    )
}

// Appends the words of instructions.
fn push_instructions(code: &mut Vec<u32>, instrs: &[Instr]) -> Result<(), AllocError>
    requires { All IsDecoded instrs.now }
    ensures { OnOk result (code.new.items ≡ code.old.items ++ coded.words_of instrs.now) }
{
    for instr in instrs {
        code.push(word_of(*instr))?;
    }
    Ok(())
}

fn word_of(instr: Instr) -> u32
    requires { IsDecoded instr }
    ensures { result ≡ words.word_of instr }
{
    encode(instr)
}
