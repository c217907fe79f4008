//! Instructions as text.
ghost use Rattle.std.specs.Prelude.{◌≡◌, ◌<◌, ◌+◌, ◌%◌, ◌^◌, IfOk};
ghost use Rattle.std.specs.String.{string_bytes};
ghost use Rattle.rv_decode.specs.Instructions.{InRange};
ghost use Rattle.rv_decode.specs.Text as text;

use crate::instr::Instr;
use crate::names;
use std::alloc::{AllocError, Global};

fn upper(alloc: Global, name: &str, rd: u32, imm: u32) -> Result<String, AllocError>
    requires { rd < 32 }
    ensures { IfOk result (λ t. string_bytes t ≡ text.upper_text name.now rd imm) }
{
    format!(in alloc; "{name} {}, 0x{:05x}", names::register(rd), imm / 0x1000)
}

fn jump(alloc: Global, name: &str, rd: u32, target: u32) -> Result<String, AllocError>
    requires { rd < 32 }
    ensures { IfOk result (λ t. string_bytes t ≡ text.jump_text name.now rd target) }
{
    format!(in alloc; "{name} {}, 0x{target:08x}", names::register(rd))
}

fn access(
    alloc: Global,
    name: &str,
    register: u32,
    offset: u32,
    base: u32,
) -> Result<String, AllocError>
    requires register { register < 32 }
    requires base { base < 32 }
    ensures { IfOk result (λ t. string_bytes t ≡ text.access_text name.now register offset base) }
{
    format!(in alloc;
        "{name} {}, {}({})",
        names::register(register),
        offset.cast_signed(),
        names::register(base)
    )
}

fn branch(alloc: Global, name: &str, rs1: u32, rs2: u32, target: u32) -> Result<String, AllocError>
    requires rs1 { rs1 < 32 }
    requires rs2 { rs2 < 32 }
    ensures { IfOk result (λ t. string_bytes t ≡ text.operands_text name.now rs1 rs2 (text.address_text target)) }
{
    format!(in alloc;
        "{name} {}, {}, 0x{target:08x}",
        names::register(rs1),
        names::register(rs2)
    )
}

fn immediate(alloc: Global, name: &str, rd: u32, rs1: u32, imm: u32) -> Result<String, AllocError>
    requires rd { rd < 32 }
    requires rs1 { rs1 < 32 }
    ensures { IfOk result (λ t. string_bytes t ≡ text.operands_text name.now rd rs1 (text.signed_text imm)) }
{
    format!(in alloc;
        "{name} {}, {}, {}",
        names::register(rd),
        names::register(rs1),
        imm.cast_signed()
    )
}

fn registers(alloc: Global, name: &str, rd: u32, rs1: u32, rs2: u32) -> Result<String, AllocError>
    requires rd { rd < 32 }
    requires rs1 { rs1 < 32 }
    requires rs2 { rs2 < 32 }
    ensures { IfOk result (λ t. string_bytes t ≡ text.operands_text name.now rd rs1 (text.register_text rs2)) }
{
    format!(in alloc;
        "{name} {}, {}, {}",
        names::register(rd),
        names::register(rs1),
        names::register(rs2)
    )
}

/// The instruction at `pc` as assembly: lower case, registers by their names in the ABI, numbers
/// as signed decimal, the upper immediate and addresses in hexadecimal, and the target of a jump or
/// branch as an address.
#[tactic(auto, unfolding(crate::specs::Text::text_value))]
pub fn text_of(alloc: Global, instr: Instr, pc: u32) -> Result<String, AllocError>
    requires { InRange instr }
    ensures { IfOk result (λ t. string_bytes t ≡ text.text_value instr pc) }
{
    match instr {
        Instr::Lui { rd, imm } => upper(alloc, "lui", rd, imm),
        Instr::Auipc { rd, imm } => upper(alloc, "auipc", rd, imm),
        Instr::Jal { rd, offset } => jump(alloc, "jal", rd, pc.wrapping_add(offset)),
        Instr::Jalr { rd, rs1, offset } => access(alloc, "jalr", rd, offset, rs1),
        Instr::Branch {
            cond,
            rs1,
            rs2,
            offset,
        } => branch(
            alloc,
            names::branch(cond),
            rs1,
            rs2,
            pc.wrapping_add(offset),
        ),
        Instr::Load {
            rd,
            rs1,
            offset,
            bytes,
            signed,
        } => access(alloc, names::load(bytes, signed), rd, offset, rs1),
        Instr::Store {
            rs1,
            rs2,
            offset,
            bytes,
        } => access(alloc, names::store(bytes), rs2, offset, rs1),
        Instr::OpImm { op, rd, rs1, imm } => immediate(
            alloc,
            names::immediate_op(op),
            rd,
            rs1,
            imm,
        ),
        Instr::Op { op, rd, rs1, rs2 } => registers(alloc, names::register_op(op), rd, rs1, rs2),
        Instr::Fence { .. } => String::from_str(alloc, "fence"),
        Instr::Call => String::from_str(alloc, "ecall"),
        Instr::Break => String::from_str(alloc, "ebreak"),
    }
}
