//! Steps of each class of instructions, compared with two machines.

ghost use Rattle.std.specs.Prelude.{◌≡◌, ◌≤◌, ◌^◌, ◌∷◌, [], true, false, IfOk, IfSome, Any, MatchOption, length};
ghost use Rattle.rv_image.specs.Image.{size_of};
ghost use Rattle.ct_pairs.specs.Inputs.{public_count, secret_count};
ghost use Rattle.ct_pairs.specs.declared.place.Place.TheVariants.{Register, Memory};
ghost use Rattle.rel_step.specs.PathNodes.{IsNode};
ghost use Rattle.rel_step.specs.declared.simplifying.TheConstants.{MOST_PASSES};
ghost use Rattle.rel_step.specs.declared.stride.NextIf.{NextIf as TheNext};

use super::{Ahead, NextIf, Node, Stride};
use bv_expr::{Arena, ExprId, Values};
use bv_passes::{Algebra, Kit, KnownBits};
use ct_pairs::{InputByte, Job, Pair, Place, USUAL_BUDGET, USUAL_TARGETS, starts};
use ct_rows::Row;
use elf_load::{Elf, Segment};
use rv_image::Image;
use rv_machine::Machine;
use std::alloc::{AllocError, Global};
use std::process::Abort;
use std::test::Fail;

// Where the image begins, how many bytes of data stand there, and how many with the code.
const BASE: u32 = 0x40;

const DATA: usize = 32;

const SIZE: usize = 44;

// The address of the secret byte in memory.
const SECRET: u32 = 0x44;

// The data, and then three words of code.
fn memory_of(words: &[u32; 3]) -> [u8; SIZE] {
    let mut memory = [0u8; SIZE];
    for (i, word) in words.iter().enumerate() {
        for (k, byte) in word.to_le_bytes().iter().enumerate() {
            memory[DATA + 4 * i + k] = *byte;
        }
    }
    memory
}

fn image_of(alloc: Global, words: &[u32; 3]) -> Result<Image, AllocError>
    ensures { IfOk result (λ image. length image ≤ 2 ^ 24) }
{
    let memory = memory_of(words);
    let mut segments = Vec::new(alloc);
    segments.push(Segment {
        address: BASE,
        bytes: Row::from_vec(Vec::from_slice(alloc, &memory)?),
        read: true,
        write: true,
        exec: true,
    })?;
    let elf = Elf {
        segments: Row::from_vec(segments),
        entry: BASE,
        symbols: Row::from_vec(Vec::new(alloc)),
    };
    let image = Image::build(alloc, &elf, &[])?;
    let _size = image.size();
    Ok(image)
}

// A secret byte in a0, a public one in a1, and a secret one in memory.
fn inputs_of(alloc: Global) -> Result<Row<InputByte>, AllocError>
    ensures { IfOk result (λ inputs. inputs ≡ record { place = Register 10 0; secret = true } ∷ record { place = Register 11 0; secret = false } ∷ record { place = Memory 0x44; secret = true } ∷ []) }
{
    let first = InputByte {
        place: Place::Register { reg: 10, byte: 0 },
        secret: true,
    };
    let second = InputByte {
        place: Place::Register { reg: 11, byte: 0 },
        secret: false,
    };
    let third = InputByte {
        place: Place::Memory { address: SECRET },
        secret: true,
    };
    Ok(Row::from_vec(vec![in alloc; first, second, third]?))
}

// All registers are 0 but t0 and what the inputs give.
fn registers_of(alloc: Global) -> Result<Row<u32>, AllocError>
    ensures { IfOk result (λ registers. length registers ≡ 32) }
{
    let mut registers = [0u32; 32];
    registers[5] = 0x8765_4321;
    Ok(Row::from_vec(Vec::from_slice(alloc, &registers)?))
}

fn job_of(alloc: Global, words: &[u32; 3]) -> Result<Job, Fail>
    ensures shared { IfOk result (λ job. public_count job.inputs ≡ 1) }
    ensures secret { IfOk result (λ job. secret_count job.inputs ≡ 2) }
{
    let image = image_of(alloc, words)?;
    if image.index_of(SECRET).is_none() {
        return Err(Fail::from("the secret byte is not accessible"));
    }
    Ok(Job {
        image,
        entry: BASE + DATA as u32,
        stops: Row::from_vec(vec![in alloc; 0u32]?),
        registers: registers_of(alloc)?,
        inputs: inputs_of(alloc)?,
        bound: 10,
        budget: USUAL_BUDGET,
        targets: USUAL_TARGETS,
    })
}

// What a step shows of two runs: whether it is different, whether the left run is refused, and where that goes.
#[derive(Clone, Copy, Debug, PartialEq, Eq)]
struct Shown {
    apart: bool,
    refused: bool,
    next: Option<u32>,
}

// The value of an expression, where the inputs are these bytes.
fn value_of(alloc: Global, arena: &Arena, id: ExprId, bytes: &[u8]) -> Result<u32, Fail> {
    if id.0 >= arena.nodes().len() {
        return Err(Fail::from("no expression of the arena"));
    }
    let values = Values(Row::from_vec(Vec::from_slice(alloc, bytes)?));
    let value = arena.value(alloc, id, &values)?;
    Ok(value)
}

// A bit that is 0 where there is no expression for it.
fn bit_of(alloc: Global, arena: &Arena, id: Option<ExprId>, bytes: &[u8]) -> Result<bool, Fail> {
    match id {
        None => Ok(false),
        Some(id) => Ok(value_of(alloc, arena, id, bytes)? == 1),
    }
}

// The listed address to which the left run goes. Two are refused.
fn listed(
    alloc: Global,
    arena: &Arena,
    nexts: &Row<NextIf>,
    bytes: &[u8],
) -> Result<Option<u32>, Fail>
    ensures { IfOk result (λ found. IfSome found (λ next. Any (λ (one : TheNext). one.next ≡ next) nexts.now)) }
{
    let mut found = None;
    for one in nexts.as_slice() {
        if value_of(alloc, arena, one.when, bytes)? == 1 {
            if found.is_some() {
                return Err(Fail::from("two addresses"));
            }
            found = Some(one.next);
        }
    }
    Ok(found)
}

// Where the left run goes.
fn next_of(alloc: Global, arena: &Arena, stride: &Stride, bytes: &[u8]) -> Result<Option<u32>, Fail>
    ensures { IfOk result (λ found. IfSome found (λ next. MatchOption stride.now.target (Any (λ (one : TheNext). one.next ≡ next) stride.now.nexts) (λ _. Unit {0}))) }
{
    match stride.target {
        Some(target) => {
            let address = value_of(alloc, arena, target, bytes)?;
            Ok(Some(address))
        }
        None => {
            let found = listed(alloc, arena, &stride.nexts, bytes)?;
            Ok(found)
        }
    }
}

fn shown_by(alloc: Global, arena: &Arena, stride: &Stride, bytes: &[u8]) -> Result<Shown, Fail>
    ensures { IfOk result (λ shown. IfSome shown.next (λ next. MatchOption stride.now.target (Any (λ (one : TheNext). one.next ≡ next) stride.now.nexts) (λ _. Unit {0}))) }
{
    let apart = bit_of(alloc, arena, stride.leak, bytes)?;
    if let Some((left, right)) = stride.sides {
        let differ = value_of(alloc, arena, left, bytes)? != value_of(alloc, arena, right, bytes)?;
        if differ != apart {
            return Err(Fail::from("sides that differ where the runs do not"));
        }
    }
    let refused = bit_of(alloc, arena, stride.fault, bytes)?;
    let next = next_of(alloc, arena, stride, bytes)?;
    if refused && next.is_some() {
        return Err(Fail::from("a refused access that goes on"));
    }
    Ok(Shown {
        apart,
        refused,
        next,
    })
}

// What the two machines show in one more step, or nothing where they end.
fn seen_by(job: &Job, left: &mut Machine, right: &mut Machine) -> Option<Shown>
    requires left { length left.old.bytes ≡ size_of job.now.image }
    requires right { length right.old.bytes ≡ size_of job.now.image }
    ensures left { length left.new.bytes ≡ size_of job.now.image }
    ensures right { length right.new.bytes ≡ size_of job.now.image }
{
    let stops = job.stops.as_slice();
    let second = right.step(&job.image, stops).seen;
    let first = left.step(&job.image, stops).seen?;
    Some(Shown {
        apart: second != Some(first),
        refused: first.next.is_none(),
        next: first.next,
    })
}

// The values of both runs: of a0 and of memory in the left run, the same in the right run, and of a1 in both.
struct Bytes {
    left: [u8; 2],
    right: [u8; 2],
    shared: u8,
}

impl Bytes {
    fn pair(&self, alloc: Global) -> Result<Pair, AllocError>
        ensures shared { IfOk result (λ pair. length pair.shared ≡ 1) }
        ensures left { IfOk result (λ pair. length pair.left ≡ 2) }
        ensures right { IfOk result (λ pair. length pair.right ≡ 2) }
    {
        Ok(Pair {
            shared: Row::from_vec(vec![in alloc; self.shared]?),
            left: Row::from_vec(Vec::from_slice(alloc, &self.left)?),
            right: Row::from_vec(Vec::from_slice(alloc, &self.right)?),
        })
    }

    // The bytes of the variables.
    fn variables(&self) -> [u8; 6] {
        [
            self.left[0],
            self.right[0],
            self.shared,
            self.shared,
            self.left[1],
            self.right[1],
        ]
    }
}

// What the step ahead of a node shows, and the node after it: none where the runs differ or end.
fn one_step(
    alloc: Global,
    kit: &mut Kit,
    job: &Job,
    node: Node,
    variables: &[u8],
) -> Result<(Option<Shown>, Option<Node>), Fail>
    requires node { IsNode job.now node }
    requires few { length kit.old.items ≤ MOST_PASSES }
    ensures node { IfOk result (λ both. IfSome both.1 (IsNode job.now)) }
    ensures few { length kit.new.items ≤ MOST_PASSES }
{
    let mut node = node;
    let Ahead::Step(stride) = node.ahead(job, kit)? else {
        return Ok((None, None));
    };
    let shown = shown_by(alloc, node.arena(), &stride, variables)?;
    if shown.apart {
        return Ok((Some(shown), None));
    }
    let Some(next) = shown.next else {
        return Ok((Some(shown), None));
    };
    let later = node.follow(job, next)?;
    Ok((Some(shown), Some(later)))
}

// Both runs of a node are those of two machines, up to where they differ or end.
fn follow_machines(
    rt: &impl Abort,
    alloc: Global,
    kit: &mut Kit,
    job: &Job,
    bytes: &Bytes,
    name: &str,
) -> Result<(), Fail>
    requires shared { public_count job.now.inputs ≡ 1 }
    requires secret { secret_count job.now.inputs ≡ 2 }
    requires few { length kit.old.items ≤ MOST_PASSES }
    ensures few { length kit.new.items ≤ MOST_PASSES }
{
    let pair = bytes.pair(alloc)?;
    let variables = bytes.variables();
    let (mut left, mut right) = starts(alloc, job, &pair)?;
    let mut node = Node::root(alloc, job)?;
    for step in 0..3 {
        let (shown, later) = one_step(alloc, kit, job, node, variables.as_slice())?;
        let seen = seen_by(job, &mut left, &mut right);
        assert_eq!(rt; shown, seen, "{name} at step {step} on {variables:?}");
        let Some(later) = later else {
            return Ok(());
        };
        node = later;
    }
    Ok(())
}

// Three words of code each, of which the first does what the row is for and the others show what it left.
const ROWS: [(&str, [u32; 3]); 18] = [
    (
        "lui a2, 0x12345; add a2, a2, a0; jalr zero, 0(a2)",
        [0x1234_5637, 0x00a6_0633, 0x0006_0067],
    ),
    (
        "auipc a2, 0x1000; xor a2, a2, a0; jalr zero, 0(a2)",
        [0x0100_0617, 0x00a6_4633, 0x0006_0067],
    ),
    (
        "jal a2, 4; sub a2, a2, a0; jalr zero, 0(a2)",
        [0x0040_066f, 0x40a6_0633, 0x0006_0067],
    ),
    ("jalr zero, 16(a0)", [0x0105_0067, 0, 0]),
    ("beq a0, a1, 8", [0x00b5_0463, 0x0006_0067, 0x0006_0067]),
    ("blt a0, t0, -4", [0xfe55_4ee3, 0x0006_0067, 0x0006_0067]),
    (
        "lbu a2, 0(a0); jalr zero, 0(a2)",
        [0x0005_4603, 0x0006_0067, 0],
    ),
    (
        "lh a2, 0x44(zero); jalr zero, 0(a2)",
        [0x0440_1603, 0x0006_0067, 0],
    ),
    (
        "lw a2, -4(a0); jalr zero, 0(a2)",
        [0xffc5_2603, 0x0006_0067, 0],
    ),
    (
        "lh a2, 0x27(a0); jalr zero, 0(a2)",
        [0x0275_1603, 0x0006_0067, 0],
    ),
    (
        "sb a1, 0(a0); lbu a2, 0x44(zero); jalr zero, 0(a2)",
        [0x00b5_0023, 0x0440_4603, 0x0006_0067],
    ),
    (
        "sw t0, 0x42(zero); lw a2, 0(a0); jalr zero, 0(a2)",
        [0x0450_2123, 0x0005_2603, 0x0006_0067],
    ),
    (
        "xori a2, a0, -1; jalr zero, 0(a2)",
        [0xfff5_4613, 0x0006_0067, 0],
    ),
    (
        "srai a2, t0, 4; or a2, a2, a0; jalr zero, 0(a2)",
        [0x4042_d613, 0x00a6_6633, 0x0006_0067],
    ),
    (
        "mulh a2, t0, a0; jalr zero, 0(a2)",
        [0x02a2_9633, 0x0006_0067, 0],
    ),
    (
        "div a2, t0, a0; jalr zero, 0(a2)",
        [0x02a2_c633, 0x0006_0067, 0],
    ),
    (
        "fence; add zero, a0, a0; jalr zero, 0x60(zero)",
        [0x0ff0_000f, 0x00a5_0033, 0x0600_0067],
    ),
    ("ecall", [0x0000_0073, 0, 0]),
];

// Equal runs, addresses that differ, memory that differs, and a left run that is refused.
const PAIRS: [Bytes; 4] = [
    Bytes {
        left: [0x44, 0x97],
        right: [0x44, 0x97],
        shared: 0x44,
    },
    Bytes {
        left: [0x44, 0x80],
        right: [0x46, 0x80],
        shared: 5,
    },
    Bytes {
        left: [0x48, 0xfe],
        right: [0x48, 0x10],
        shared: 0x90,
    },
    Bytes {
        left: [0, 1],
        right: [0x44, 1],
        shared: 0,
    },
];

#[test]
fn steps_are_those_of_two_machines(rt: HostRuntime) -> Result<(), Fail> {
    let alloc = rt.alloc();
    let mut kit: Kit = Vec::new(alloc);
    kit.push(Box::new(alloc, Algebra::new(alloc)?)?)?;
    kit.push(Box::new(alloc, KnownBits::new(alloc)?)?)?;
    for (name, words) in ROWS.iter() {
        let job = job_of(alloc, words)?;
        for bytes in PAIRS.iter() {
            follow_machines(&rt, alloc, &mut kit, &job, bytes, name)?;
        }
    }
    Ok(())
}
