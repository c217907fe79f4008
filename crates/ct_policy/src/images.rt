//! Images in which a run can start.
ghost use Rattle.std.specs.Prelude.{◌≡◌, ◌≢◌, true, false, IfOk, IfErr};
ghost use Rattle.rv_image.specs.Loading.{CanBuild, cells_of};
ghost use Rattle.ct_policy.specs.Starting.{can_fetch};

use ct_document::PolicyRefusal;
use elf_load::Elf;
use rv_image::{Image, Span};
use std::alloc::Global;

/// The image of a file and of extra spans, in which an instruction can be fetched at the entry.
pub(crate) fn startable_image(
    alloc: Global,
    elf: &Elf,
    extra: &[Span],
    entry: u32,
) -> Result<Image, PolicyRefusal>
    requires { CanBuild elf.now extra.now }
    ensures image { IfOk result (λ image. image ≡ cells_of elf.now extra.now) }
    ensures starts { IfOk result (λ _. can_fetch elf.now extra.now entry ≡ true) }
    ensures refused { IfErr result
        (λ refusal. refusal ≢ PolicyRefusal.Memory → (refusal ≡ PolicyRefusal.Entry) × (can_fetch elf.now extra.now entry ≡ false)) }
{
    let image = Image::build(alloc, elf, extra)?;
    match image.fetch(entry) {
        Some(_) => Ok(image),
        None => Err(PolicyRefusal::Entry),
    }
}
