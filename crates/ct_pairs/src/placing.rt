//! Values put in the places of the input bytes.
ghost use Rattle.std.specs.Prelude.{◌≡◌, ◌<◌, length, slice_index, slice_set, replicate, IsTrue};
ghost use Rattle.rv_image.specs.Image.{size_of};
ghost use Rattle.ct_pairs.specs.Inputs.{public_count, secret_count, is_place};
ghost use Rattle.ct_pairs.specs.Start.{fresh, start, placed, byte_replaced};

use crate::job::Job;
use crate::place::Place;
use rv_image::Image;
use rv_machine::Machine;

/// Brings a new machine of the job to the start with these values.
pub(crate) fn place_inputs(job: &Job, machine: &mut Machine, shared: &[u8], secret: &[u8])
    requires fresh { machine.old ≡ fresh job.now }
    requires shared { length shared.now ≡ public_count job.now.inputs }
    requires secret { length secret.now ≡ secret_count job.now.inputs }
    ensures { machine.new ≡ start job.now shared.now secret.now }
{
    let mut registers = first_registers(job);
    let mut shared = shared;
    let mut secret = secret;
    for input in job.inputs.as_slice() {
        if input.secret {
            place_byte(&job.image, machine, &mut registers, input.place, secret[0]);
            secret = &secret[1..];
        } else {
            place_byte(&job.image, machine, &mut registers, input.place, shared[0]);
            shared = &shared[1..];
        }
    }
    write_registers(machine, &registers);
}

fn first_registers(job: &Job) -> [u32; 32]
    ensures { result ≡ slice_set job.now.registers 0 0 }
{
    let mut registers = [0; 32];
    registers.copy_from_slice(job.registers.as_slice());
    registers[0] = 0;
    registers
}

#[tactic(auto, unfolding(crate::specs::Start::placed, crate::specs::Start::byte_put))]
/// Puts a value in its place, in a register of the list or a byte of the machine.
fn place_byte(image: &Image, machine: &mut Machine, registers: &mut [u32], place: Place, value: u8)
    requires place { IsTrue (is_place image.now place) }
    requires bytes { length machine.old.bytes ≡ size_of image.now }
    requires count { length registers.old ≡ 32 }
    ensures placed { record machine.new { registers = registers.new }
        ≡ placed image.now place value (record machine.old { registers = registers.old }) }
    ensures kept { machine.new.registers ≡ machine.old.registers }
    ensures zero { slice_index registers.new 0 ≡ slice_index registers.old 0 }
    ensures size { length machine.new.bytes ≡ length machine.old.bytes }
{
    match place {
        Place::Register { reg, byte } => {
            registers[reg as usize] = replace_byte(registers[reg as usize], byte, value);
        }
        Place::Memory { address } => {
            if let Some(index) = image.index_of(address) {
                machine.set_byte(index, value);
            }
        }
    }
}

#[tactic(auto, unfolding(crate::specs::Start::byte_replaced))]
fn replace_byte(word: u32, byte: u32, value: u8) -> u32
    requires { byte < 4 }
    ensures { result ≡ byte_replaced word byte value }
{
    let mut bytes = word.to_le_bytes();
    bytes[byte as usize] = value;
    u32::from_le_bytes(bytes)
}

/// Writes all registers of a machine whose registers are 0.
fn write_registers(machine: &mut Machine, registers: &[u32])
    requires count { length registers.now ≡ 32 }
    requires zero { slice_index registers.now 0 ≡ 0 }
    requires fresh { machine.old.registers ≡ replicate 32 0 }
    ensures { machine.new ≡ record machine.old { registers = registers.now } }
{
    for reg in 1..32 {
        machine.set_register(reg, registers[reg as usize]);
    }
}
