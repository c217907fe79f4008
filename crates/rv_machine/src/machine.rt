//! The machine: its state, one step, and a run.
ghost use Rattle.std.specs.Prelude.{◌≡◌, ◌+◌, ◌%◌, ◌^◌, ◌<◌, ◌≤◌, ◌==◌, ◌↔◌, if◌then◌else◌, Some, None, IfOk, IsNone, length, replicate, slice_set};
ghost use Rattle.ct_words.specs.Words.{extend_value, test_value, IsAccessSize};
ghost use Rattle.rv_decode.specs.Instructions.{InRange};
ghost use Rattle.rv_image.specs.Image.{allowed_at, fetch_at, bytes_of, size_of};
ghost use Rattle.rv_image.specs.declared.right.Right.TheVariants as rights;
ghost use Rattle.rv_machine.specs.declared.end.End.TheVariants as endings;
ghost use Rattle.rv_machine.specs.declared.touch.Touch.TheVariants as touches;
ghost use Rattle.rv_machine.specs.Row.{row_value, row_written};
ghost use Rattle.rv_machine.specs.State.{register_value, register_written};
ghost use Rattle.rv_machine.specs.Step as steps;
ghost use Rattle.rv_machine.specs.Step.{wrapped, even, following, address_of, byte_value, byte_stored, loaded_value, bytes_stored, all_allowed, goes, faults, ends};
ghost use Rattle.rv_machine.specs.Trail.{state_after, trail, IsUnfinished};

use crate::end::End;
use crate::ran::Ran;
use crate::record::Record;
use crate::stepped::Stepped;
use crate::touch::Touch;
use ct_words::{Cond, alu, extend, test};
use rv_decode::{Instr, decode};
use rv_image::{Image, Right};
use std::alloc::{AllocError, Global};
use std::marker::Model;

/// An RV32IM hart with its memory: one byte for each accessible address of an image.
///
/// A machine is made for an image, and each call that takes an image owes that one.
#[derive(Debug, Drop)]
pub struct Machine {
    pc: u32,
    registers: [u32; 32],
    bytes: Vec<u8>,
    ending: Option<End>,
}

impl Model for Machine {
    ghost use Rattle.std.specs.Prelude.{length};
    ghost use Rattle.rv_machine.specs.State.{State};

    ghost Value = { State };

    ghost view = { λ machine. record { pc = machine.pc; registers = machine.registers; bytes = machine.bytes.items; ending = machine.ending } };
}

impl Machine {
    /// A machine at `pc` with all registers 0 and the loaded bytes of the image.
    pub fn new(alloc: Global, image: &Image, pc: u32) -> Result<Machine, AllocError>
        ensures start { IfOk result (λ machine. machine
            ≡ record { pc = pc; registers = replicate 32 0; bytes = bytes_of image.now; ending = None }) }
        ensures bytes { IfOk result (λ machine. length machine.bytes ≡ size_of image.now) }
    {
        Ok(Machine {
            pc,
            registers: [0; 32],
            bytes: image.loaded_bytes(alloc)?,
            ending: None,
        })
    }

    pub fn pc(&self) -> u32
        ensures { result ≡ self.now.pc }
    {
        self.pc
    }

    /// The ending, where the run has come to one.
    pub fn ending(&self) -> Option<End>
        ensures { result ≡ self.now.ending }
    {
        self.ending
    }

    /// Writes a register; x0 stays 0.
    pub fn set_register(&mut self, reg: u32, value: u32)
        requires { reg < 32 }
        ensures { self.new ≡ register_written self.old reg value }
    {
        if reg != 0 {
            self.registers[reg as usize] = value;
        }
    }

    /// Writes the byte at the accessible address that has this index.
    pub fn set_byte(&mut self, index: u32, value: u8)
        requires { index < length self.old.bytes }
        ensures { self.new ≡ record self.old { bytes = slice_set self.old.bytes index value } }
    {
        self.bytes[index as usize] = value;
    }

    /// Makes this machine what the other one is.
    pub fn reset_from(&mut self, other: &Machine)
        requires { length self.old.bytes ≡ length other.now.bytes }
        ensures { self.new ≡ other.now }
    {
        self.pc = other.pc;
        self.registers = other.registers;
        self.bytes
            .as_mut_slice()
            .copy_from_slice(other.bytes.as_slice());
        self.ending = other.ending;
    }

    fn register(&self, reg: u32) -> u32
        requires { reg < 32 }
        ensures { result ≡ register_value self.now reg }
    {
        if reg == 0 {
            0
        } else {
            self.registers[reg as usize]
        }
    }

    fn following(&self) -> u32
        ensures { result ≡ following self.now }
    {
        self.pc.wrapping_add(4)
    }

    fn address(&self, rs1: u32, offset: u32) -> u32
        requires { rs1 < 32 }
        ensures { result ≡ address_of self.now rs1 offset }
    {
        self.register(rs1).wrapping_add(offset)
    }

    fn byte(&self, image: &Image, address: u32) -> u8
        requires { length self.now.bytes ≡ size_of image.now }
        ensures { result ≡ byte_value image.now self.now address }
    {
        match image.index_of(address) {
            Some(index) => self.bytes[index as usize],
            None => 0,
        }
    }

    #[tactic(auto, using(crate::proofs::Memory::loaded_two))]
    fn half(&self, image: &Image, address: u32) -> u32
        requires { length self.now.bytes ≡ size_of image.now }
        ensures value { result ≡ loaded_value image.now self.now address 2 }
        ensures small { result < 2 ^ 16 }
    {
        let low = u32::from(self.byte(image, address));
        let high = u32::from(self.byte(image, address.wrapping_add(1)));
        low + 0x100 * high
    }

    #[tactic(auto, using(crate::proofs::Memory::loaded_four))]
    fn word(&self, image: &Image, address: u32) -> u32
        requires { length self.now.bytes ≡ size_of image.now }
        ensures { result ≡ loaded_value image.now self.now address 4 }
    {
        let low = self.half(image, address);
        let high = self.half(image, address.wrapping_add(2));
        low + 0x1_0000 * high
    }

    #[tactic(auto, using(crate::proofs::Memory::loaded_one))]
    fn loaded(&self, image: &Image, address: u32, bytes: u32) -> u32
        requires size { length self.now.bytes ≡ size_of image.now }
        requires access { IsAccessSize bytes }
        ensures { result ≡ loaded_value image.now self.now address bytes }
    {
        match bytes {
            1 => u32::from(self.byte(image, address)),
            2 => self.half(image, address),
            _ => self.word(image, address),
        }
    }

    #[tactic(auto, using(crate::proofs::Rows::row_value_one, crate::proofs::Rows::row_value_two, crate::proofs::Rows::row_value_four))]
    fn value_at(&self, index: u32, bytes: u32) -> u32
        requires access { IsAccessSize bytes }
        requires within { index + bytes ≤ length self.now.bytes }
        ensures { result ≡ row_value self.now.bytes index bytes }
    {
        let at = index as usize;
        match bytes {
            1 => u32::from(self.bytes[at]),
            2 => u32::from(u16::from_le_bytes([self.bytes[at], self.bytes[at + 1]])),
            _ => u32::from_le_bytes([
                self.bytes[at],
                self.bytes[at + 1],
                self.bytes[at + 2],
                self.bytes[at + 3],
            ]),
        }
    }

    /// The little-endian number of the bytes from an address on, where each may be loaded from. Byte
    /// by byte it goes where an access wraps at 2^32, which no block of addresses does.
    fn read(&self, image: &Image, address: u32, bytes: u32) -> Option<u32>
        requires size { length self.now.bytes ≡ size_of image.now }
        requires access { IsAccessSize bytes }
        ensures { result
            ≡ (if all_allowed (allowed_at rights.Read image.now) address bytes then Some (loaded_value image.now self.now address bytes) else None) }
    {
        if let Some(index) = image.block(Right::Read, address, bytes) {
            return Some(self.value_at(index, bytes));
        }
        if all_allowed(image, Right::Read, address, bytes) {
            Some(self.loaded(image, address, bytes))
        } else {
            None
        }
    }

    fn store_byte(&mut self, image: &Image, address: u32, value: u8)
        requires { length self.old.bytes ≡ size_of image.now }
        ensures { self.new ≡ record self.old { bytes = byte_stored image.now self.old.bytes address value } }
    {
        if let Some(index) = image.index_of(address) {
            self.bytes[index as usize] = value;
        }
    }

    #[tactic(auto, using(crate::proofs::Memory::bytes_stored_next, crate::proofs::Memory::length_stored), unfolding(crate::specs::Step::bytes_stored))]
    fn store_bytes(&mut self, image: &Image, address: u32, bytes: u32, value: u32)
        requires { length self.old.bytes ≡ size_of image.now }
        ensures { self.new ≡ record self.old { bytes = bytes_stored image.now self.old.bytes address bytes value } }
    {
        let mut at = address;
        let mut rest = value;
        'bytes: for _i in 0..bytes {
            self.store_byte(image, at, (rest % 0x100) as u8);
            at = at.wrapping_add(1);
            rest /= 0x100;
        }
    }

    #[tactic(auto, using(crate::proofs::Rows::row_written_two))]
    fn set_half(&mut self, at: usize, value: u32)
        requires { at + 2 ≤ length self.old.bytes }
        ensures { self.new ≡ record self.old { bytes = row_written self.old.bytes at 2 value } }
    {
        self.bytes[at] = (value % 0x100) as u8;
        self.bytes[at + 1] = (value / 0x100 % 0x100) as u8;
    }

    #[tactic(auto, using(crate::proofs::Rows::row_written_one, crate::proofs::Rows::row_written_four, crate::proofs::Rows::length_row_written))]
    fn set_value(&mut self, index: u32, bytes: u32, value: u32)
        requires access { IsAccessSize bytes }
        requires within { index + bytes ≤ length self.old.bytes }
        ensures { self.new ≡ record self.old { bytes = row_written self.old.bytes index bytes value } }
    {
        let at = index as usize;
        match bytes {
            1 => self.bytes[at] = (value % 0x100) as u8,
            2 => self.set_half(at, value),
            _ => {
                self.set_half(at, value);
                self.set_half(at + 2, value / 0x1_0000);
            }
        }
    }

    /// Writes the low bytes of a value from an address on, where each may be stored to; byte by byte
    /// where the access wraps at 2^32.
    fn write(&mut self, image: &Image, address: u32, bytes: u32, value: u32) -> bool
        requires size { length self.old.bytes ≡ size_of image.now }
        requires access { IsAccessSize bytes }
        ensures allowed { result ≡ all_allowed (allowed_at rights.Write image.now) address bytes }
        ensures after { self.new
            ≡ (if all_allowed (allowed_at rights.Write image.now) address bytes then record self.old { bytes = bytes_stored image.now self.old.bytes address bytes value } else self.old) }
    {
        if let Some(index) = image.block(Right::Write, address, bytes) {
            self.set_value(index, bytes, value);
            return true;
        }
        if !all_allowed(image, Right::Write, address, bytes) {
            return false;
        }
        self.store_bytes(image, address, bytes, value);
        true
    }

    fn go(&mut self, touch: Touch, next: u32) -> Option<Record>
        ensures after { self.new ≡ (goes self.old touch next).after }
        ensures seen { result ≡ (goes self.old touch next).seen }
    {
        let pc = self.pc;
        self.pc = next;
        Some(Record {
            pc,
            touch,
            next: Some(next),
        })
    }

    fn write_and_go(&mut self, rd: u32, value: u32, next: u32) -> Option<Record>
        requires { rd < 32 }
        ensures after { self.new ≡ (goes (register_written self.old rd value) touches.Nothing next).after }
        ensures seen { result ≡ (goes (register_written self.old rd value) touches.Nothing next).seen }
    {
        self.set_register(rd, value);
        self.go(Touch::Nothing, next)
    }

    fn fault(&mut self, touch: Touch) -> Option<Record>
        ensures after { self.new ≡ (faults self.old touch).after }
        ensures seen { result ≡ (faults self.old touch).seen }
    {
        self.ending = Some(End::Fault);
        Some(Record {
            pc: self.pc,
            touch,
            next: None,
        })
    }

    fn end_by(&mut self, end: End) -> Option<Record>
        ensures after { self.new ≡ (ends self.old end).after }
        ensures seen { result ≡ (ends self.old end).seen }
    {
        self.ending = Some(end);
        None
    }

    #[tactic(auto, unfolding(crate::specs::Step::load))]
    fn load(
        &mut self,
        image: &Image,
        rd: u32,
        address: u32,
        bytes: u32,
        signed: bool,
    ) -> Option<Record>
        requires size { length self.old.bytes ≡ size_of image.now }
        requires rd { rd < 32 }
        requires access { IsAccessSize bytes }
        ensures after { self.new ≡ (steps.load image.now self.old rd address bytes signed).after }
        ensures seen { result ≡ (steps.load image.now self.old rd address bytes signed).seen }
    {
        let Some(value) = self.read(image, address, bytes) else {
            return self.fault(Touch::Load(address));
        };
        self.set_register(rd, extend(value, bytes, signed));
        let next = self.following();
        self.go(Touch::Load(address), next)
    }

    #[tactic(auto, unfolding(crate::specs::Step::store))]
    fn store(&mut self, image: &Image, address: u32, bytes: u32, value: u32) -> Option<Record>
        requires size { length self.old.bytes ≡ size_of image.now }
        requires access { IsAccessSize bytes }
        ensures after { self.new ≡ (steps.store image.now self.old address bytes value).after }
        ensures seen { result ≡ (steps.store image.now self.old address bytes value).seen }
    {
        if !self.write(image, address, bytes, value) {
            return self.fault(Touch::Store(address));
        }
        let next = self.following();
        self.go(Touch::Store(address), next)
    }

    #[tactic(auto, unfolding(crate::specs::Step::perform))]
    fn perform(&mut self, image: &Image, instr: Instr) -> Option<Record>
        requires size { length self.old.bytes ≡ size_of image.now }
        requires in_range { InRange instr }
        ensures after { self.new ≡ (steps.perform image.now self.old instr).after }
        ensures seen { result ≡ (steps.perform image.now self.old instr).seen }
    {
        let following = self.following();
        match instr {
            Instr::Lui { rd, imm } => self.write_and_go(rd, imm, following),
            Instr::Auipc { rd, imm } => self.write_and_go(rd, self.pc.wrapping_add(imm), following),
            Instr::Jal { rd, offset } => self.write_and_go(
                rd,
                following,
                self.pc.wrapping_add(offset),
            ),
            Instr::Jalr { rd, rs1, offset } => {
                let target = self.address(rs1, offset);
                self.write_and_go(rd, following, target - target % 2)
            }
            Instr::Branch {
                cond,
                rs1,
                rs2,
                offset,
            } => {
                let next = self.branch_target(cond, rs1, rs2, offset);
                self.go(Touch::Nothing, next)
            }
            Instr::Load {
                rd,
                rs1,
                offset,
                bytes,
                signed,
            } => {
                let address = self.address(rs1, offset);
                self.load(image, rd, address, bytes, signed)
            }
            Instr::Store {
                rs1,
                rs2,
                offset,
                bytes,
            } => {
                let address = self.address(rs1, offset);
                let value = self.register(rs2);
                self.store(image, address, bytes, value)
            }
            Instr::OpImm { op, rd, rs1, imm } => {
                let value = alu(op, self.register(rs1), imm);
                self.write_and_go(rd, value, following)
            }
            Instr::Op { op, rd, rs1, rs2 } => {
                let value = alu(op, self.register(rs1), self.register(rs2));
                self.write_and_go(rd, value, following)
            }
            Instr::Fence { word: _ } => self.go(Touch::Nothing, following),
            Instr::Call | Instr::Break => self.end_by(End::Call),
        }
    }

    fn branch_target(&self, cond: Cond, rs1: u32, rs2: u32, offset: u32) -> u32
        requires rs1 { rs1 < 32 }
        requires rs2 { rs2 < 32 }
        ensures { result
            ≡ (if test_value cond (register_value self.now rs1) (register_value self.now rs2) then wrapped (self.now.pc + offset) else following self.now) }
    {
        if test(cond, self.register(rs1), self.register(rs2)) {
            self.pc.wrapping_add(offset)
        } else {
            self.following()
        }
    }

    #[tactic(auto, unfolding(crate::specs::Step::live_step, crate::specs::Step::fetched_step, crate::specs::Step::decoded_step))]
    fn live_step(&mut self, image: &Image, stops: &[u32]) -> Option<Record>
        requires { length self.old.bytes ≡ size_of image.now }
        ensures after { self.new ≡ (steps.live_step image.now stops.now self.old).after }
        ensures seen { result ≡ (steps.live_step image.now stops.now self.old).seen }
        ensures bytes { length self.new.bytes ≡ length self.old.bytes }
    {
        if stops.contains(&self.pc) {
            return self.end_by(End::Stop);
        }
        let Some(word) = image.fetch(self.pc) else {
            return self.end_by(End::BadFetch);
        };
        let Some(instr) = decode(word) else {
            return self.end_by(End::Illegal);
        };
        self.perform(image, instr)
    }

    /// One step, which allocates nothing (RISC-V unprivileged manual, RV32I and M).
    #[tactic(auto, unfolding(crate::specs::Step::step))]
    pub fn step(&mut self, image: &Image, stops: &[u32]) -> Stepped
        requires { length self.old.bytes ≡ size_of image.now }
        ensures after { self.new ≡ (steps.step image.now stops.now self.old).after }
        ensures seen { result.seen ≡ (steps.step image.now stops.now self.old).seen }
        ensures end { result.end ≡ self.new.ending }
        ensures bytes { length self.new.bytes ≡ length self.old.bytes }
    {
        let seen = if self.ending.is_none() {
            self.live_step(image, stops)
        } else {
            None
        };
        Stepped {
            seen,
            end: self.ending,
        }
    }

    /// At most `bound` steps, and none after the ending.
    ///
    /// The ending isn't told of a run that made `bound` records of which the last, if there is
    /// one, goes on.
    #[tactic(auto, using(crate::proofs::TrailLaws::run_laws))]
    pub fn run(&mut self, image: &Image, stops: &[u32], bound: u32) -> Ran
        requires { length self.old.bytes ≡ size_of image.now }
        ensures after { self.new ≡ state_after image.now stops.now self.old bound }
        ensures steps { result.steps ≡ length (trail image.now stops.now self.old bound) }
        ensures end { result.end ≡ (if bound == 0 then None else self.new.ending) }
        ensures unfinished { IsNone result.end ↔ IsUnfinished image.now stops.now self.old bound }
        ensures bytes { length self.new.bytes ≡ length self.old.bytes }
    {
        let mut steps = 0;
        'steps: for _i in 0..bound {
            let stepped = self.step(image, stops);
            if stepped.seen.is_some() {
                steps += 1;
            }
            if stepped.end.is_some() {
                return Ran {
                    steps,
                    end: stepped.end,
                };
            }
        }
        Ran { steps, end: None }
    }
}

#[tactic(auto, using(crate::proofs::Memory::all_allowed_next), unfolding(crate::specs::Step::all_allowed))]
fn all_allowed(image: &Image, right: Right, address: u32, bytes: u32) -> bool
    ensures { result ≡ all_allowed (allowed_at right image.now) address bytes }
{
    let mut at = address;
    'bytes: for _i in 0..bytes {
        if !image.allows(right, at) {
            return false;
        }
        at = at.wrapping_add(1);
    }
    true
}

#[cfg(test)]
mod tests;
