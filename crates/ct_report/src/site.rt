//! The lines of a site.
ghost use Rattle.std.specs.Prelude.{◌≡◌, ◌++◌, ◌↔◌, IsTrue, All, IfOk, codes, decimal};
ghost use Rattle.std.specs.List.{flat_map};
ghost use Rattle.std.specs.Option.{IfSome};
ghost use Rattle.std.specs.Result.{OnOk};
ghost use Rattle.std.specs.String.{string_bytes};
ghost use Rattle.rv_decode.specs.Instructions.{InRange};
ghost use Rattle.rv_decode.specs.Text.{address_text};
ghost use Rattle.ct_report.specs.Kind.{instruction_at, HasKind};
ghost use Rattle.ct_rows.specs.Lines.{line};
ghost use Rattle.ct_report.specs.Report.{instruction_text, site_line, site_lines};

use crate::kind::Kind;
use crate::lines::push_bytes_line;
use ct_pairs::Found;
use rv_decode::{Instr, decode, text_of};
use rv_image::Image;
use std::alloc::{AllocError, Global};
use std::fmt::Write;

/// The instruction at an address of an image.
pub fn instruction(image: &Image, pc: u32) -> Option<Instr>
    ensures value { result ≡ instruction_at image.now pc }
    ensures in_range { IfSome result InRange }
{
    decode(image.fetch(pc)?)
}

/// Whether the image has at the address an instruction with a kind.
pub fn has_kind(image: &Image, pc: u32) -> bool
    ensures { IsTrue result ↔ HasKind image.now pc }
{
    instruction(image, pc).and_then(Kind::of).is_some()
}

/// The kind and the text of the instruction at an address.
fn instruction_words(alloc: Global, image: &Image, pc: u32) -> Result<String, AllocError>
    requires { HasKind image.now pc }
    ensures { IfOk result (λ words. string_bytes words ≡ instruction_text image.now pc) }
{
    let Some(instr) = instruction(image, pc) else {
        unreachable!()
    };
    let Some(kind) = Kind::of(instr) else {
        unreachable!()
    };
    let text = text_of(alloc, instr, pc)?;
    format!(in alloc; "{} {text}", kind.name())
}

/// Appends the line that says where a site is.
fn push_site_line(
    alloc: Global,
    text: &mut String,
    image: &Image,
    found: &Found,
) -> Result<(), AllocError>
    requires { HasKind image.now found.now.site }
    ensures { OnOk result (string_bytes text.new ≡ string_bytes text.old ++ site_line image.now found.now) }
{
    let words = instruction_words(alloc, image, found.site)?;
    writeln!(
        text,
        "site 0x{:08x} step {} {words}",
        found.site, found.step
    )
}

/// Appends the lines of a site.
#[tactic(auto, unfolding(crate::specs::Report::site_lines))]
fn push_site(
    alloc: Global,
    text: &mut String,
    image: &Image,
    found: &Found,
) -> Result<(), AllocError>
    requires { HasKind image.now found.now.site }
    ensures { OnOk result (string_bytes text.new ≡ string_bytes text.old ++ site_lines image.now found.now) }
{
    push_site_line(alloc, text, image, found)?;
    push_bytes_line(text, "shared", found.pair.shared.as_slice())?;
    push_bytes_line(text, "left", found.pair.left.as_slice())?;
    push_bytes_line(text, "right", found.pair.right.as_slice())
}

/// Appends the lines of each site.
pub fn push_sites(
    alloc: Global,
    text: &mut String,
    image: &Image,
    sites: &[Found],
) -> Result<(), AllocError>
    requires { All (λ found. HasKind image.now found.site) sites.now }
    ensures { OnOk result (string_bytes text.new ≡ string_bytes text.old ++ flat_map (site_lines image.now) sites.now) }
{
    for found in sites {
        push_site(alloc, text, image, found)?;
    }
    Ok(())
}
