//! The law that an image holds the parts from which it is built.
ghost use Rattle.rv_image.specs.Loaded.{HoldsParts};
ghost use Rattle.rv_image.specs.Loading.{CanBuild, cells_of, parts_of};

use crate::span::Span;
use elf_load::Elf;

/// A law: the image of an executable and of extra spans has each of their bytes at its address, with
/// its rights, and no other address.
pub fn loading_law(elf: &Elf, extra: &[Span])
    requires { CanBuild elf.now extra.now }
    ensures { HoldsParts (parts_of elf.now extra.now) (cells_of elf.now extra.now) }
{}
