//! What is checked.
ghost use Rattle.ct_pairs.specs.Limits.{AreLimits};

use crate::input_byte::InputByte;
use ct_rows::Row;
use rv_image::Image;

/// What is checked: a program, its start, and how far.
#[derive(Debug, Drop)]
pub struct Job {
    pub image: Image,
    /// The address of the first instruction.
    pub entry: u32,
    /// The addresses at which a run ends.
    pub stops: Row<u32>,
    /// The values of the registers x0 to x31 at the start; x0 is 0 whatever stands here.
    pub registers: Row<u32>,
    /// The bytes that differ from start to start.
    pub inputs: Row<InputByte>,
    /// The number of steps up to which runs are compared.
    pub bound: u32,
    /// How many learnt lines a question may take.
    pub budget: u64,
    /// How many targets of one indirect jump are explored.
    pub targets: u32,
    ghost limits: { AreLimits image stops registers inputs bound budget targets },
}
