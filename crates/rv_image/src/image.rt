//! The memory at the start of a run.
ghost use Rattle.std.specs.Prelude.{◌≡◌, ◌+◌, ◌<◌, ◌≤◌, ◌^◌, ◌%◌, false, IfOk, IfSome, MatchOption, None, All};
ghost use Rattle.std.specs.List.{flat_map};
ghost use Rattle.rv_image.specs.Image.{IsImage, cell_at, allowed_at, loaded_at, index_at, fetch_at, size_of, bytes_of};
ghost use Rattle.rv_image.specs.Loading.{CanBuild, cells_of, part_cells};
ghost use Rattle.rv_image.specs.Location.{IsExecutable, IsHeld, little_word};
ghost use Rattle.rv_image.specs.Ranges.{rights_of, rights_in};
ghost use Rattle.rv_image.specs.declared.right.Right.TheVariants as rights;
ghost use Rattle.rv_image.specs.Block.{allowed_block_at, IsBlock};
ghost use Rattle.rv_image.specs.View.{LiesFrom, total};

use crate::location::Location;
use crate::part::Part;
use crate::right::Right;
use crate::span::Span;
use elf_load::Elf;
use std::alloc::{AllocError, Global};
use std::marker::Model;

/// The accessible memory of a program as it is loaded.
///
/// An image is seen as the list of its accessible addresses in ascending order.
#[derive(Debug, Drop)]
pub struct Image {
    spans: Vec<Span>,
    starts: Vec<u32>,
    bytes: Vec<u8>,
}

impl Model for Image {
    ghost use Rattle.std.specs.Prelude.{List};
    ghost use Rattle.rv_image.specs.Cell.{Cell};

    ghost Value = { List Cell };

    ghost use Rattle.rv_image.specs.View.{cells_in, IsLaidOut};

    ghost view = { λ image. cells_in image.spans.items image.bytes.items };

    ghost invariant = { λ image. IsLaidOut image.spans.items image.starts.items image.bytes.items };
}

impl Image {
    ghost use Rattle.rv_image.specs.Location.{IsLocation};
    ghost use Rattle.rv_image.specs.Part.{part_segments, part_spans};

    /// The image of an executable and of extra spans, which hold zeros.
    pub fn build(alloc: Global, elf: &Elf, extra: &[Span]) -> Result<Image, AllocError>
        requires { CanBuild elf.now extra.now }
        ensures { IfOk result (λ image. image ≡ cells_of elf.now extra.now) }
    {
        let parts = Part::ordered(alloc, elf, extra)?;
        Image::lay_out(alloc, &parts)
    }

    /// Whether the byte at an address has a right.
    #[tactic(auto, unfolding(crate::specs::Image::allowed_at))]
    pub fn allows(&self, right: Right, address: u32) -> bool
        ensures { result ≡ allowed_at right self.now address }
    {
        match self.location(address) {
            Some(location) => location.span.allows(right),
            None => false,
        }
    }

    /// The byte that is loaded at an address, if the address is accessible.
    #[tactic(auto, unfolding(crate::specs::Image::loaded_at))]
    pub fn loaded(&self, address: u32) -> Option<u8>
        ensures { result ≡ loaded_at self.now address }
    {
        match self.location(address) {
            Some(location) => Some(location.byte),
            None => None,
        }
    }

    /// The number of accessible bytes at lower addresses, if the address is accessible.
    #[tactic(auto, unfolding(crate::specs::Image::index_at))]
    pub fn index_of(&self, address: u32) -> Option<u32>
        ensures location { result ≡ index_at self.now address }
        ensures within { IfSome result (λ index. index < size_of self.now) }
    {
        match self.location(address) {
            Some(location) => Some(location.index),
            None => None,
        }
    }

    /// The index of the first of `count` addresses in a row, where all have a right and none
    /// passes 2^32. The bytes of the others follow its byte.
    pub fn block(&self, right: Right, address: u32, count: u32) -> Option<u32>
        requires { 0 < count }
        ensures first { result ≡ allowed_block_at right self.now address count }
        ensures others { IfSome result (IsBlock self.now address count) }
    {
        let Some(location) = self.location_in_span(address, count) else {
            return self.block_each(right, address, count);
        };
        if location.span.allows(right) {
            Some(location.index)
        } else {
            None
        }
    }

    /// The instruction word at a multiple of 4 whose four bytes may be executed.
    pub fn fetch(&self, pc: u32) -> Option<u32>
        ensures { result ≡ fetch_at self.now pc }
    {
        if pc % 4 != 0 {
            return None;
        }
        let Some(location) = self.location_in_span(pc, 4) else {
            return self.fetch_each(pc);
        };
        if location.span.exec {
            Some(self.word(location.index))
        } else {
            None
        }
    }

    /// The word of the four loaded bytes from an index on, the least byte first.
    fn word(&self, index: u32) -> u32
        requires { index + 4 ≤ size_of self.now }
        ensures { result ≡ little_word (bytes_of self.now) index }
    {
        let at = index as usize;
        u32::from_le_bytes([
            self.bytes[at],
            self.bytes[at + 1],
            self.bytes[at + 2],
            self.bytes[at + 3],
        ])
    }

    /// The instruction word at a multiple of 4, byte by byte.
    fn fetch_each(&self, pc: u32) -> Option<u32>
        requires { pc % 4 ≡ 0 }
        ensures { result ≡ fetch_at self.now pc }
    {
        let first = self.executable(pc)?;
        let second = self.executable(pc + 1)?;
        let third = self.executable(pc + 2)?;
        let fourth = self.executable(pc + 3)?;
        Some(u32::from_le_bytes([first, second, third, fourth]))
    }

    /// The same, address by address, for a block that no span holds whole.
    #[tactic(auto, using(crate::proofs::BlockLaws::each_allowed_next), unfolding(crate::specs::Block::block_at, crate::specs::Block::each_allowed))]
    fn block_each(&self, right: Right, address: u32, count: u32) -> Option<u32>
        requires { 0 < count }
        ensures { result ≡ allowed_block_at right self.now address count }
    {
        if count - 1 > u32::MAX - address {
            return None;
        }
        'addresses: for k in 0..count {
            if !self.allows(right, address + k) {
                return None;
            }
        }
        self.index_of(address)
    }

    /// The byte at an address that may be executed.
    #[tactic(auto, unfolding(crate::specs::Image::allowed_at, crate::specs::Image::loaded_at))]
    fn executable(&self, address: u32) -> Option<u8>
        ensures { MatchOption result (allowed_at rights.Execute self.now address ≡ false) (IsExecutable self.now address) }
    {
        match self.location(address) {
            Some(location) => {
                if location.span.exec {
                    Some(location.byte)
                } else {
                    None
                }
            }
            None => None,
        }
    }

    /// The spans of accessible addresses in ascending order.
    pub fn ranges(&self) -> &[Span]
        ensures filled { All (λ span. 0 < span.length) result.now }
        ensures cover { rights_of self.now ≡ rights_in result.now }
    {
        self.spans.as_slice()
    }

    /// The number of accessible bytes.
    pub fn size(&self) -> u32
        ensures size { result ≡ size_of self.now }
        ensures image { IsImage self.now }
    {
        self.bytes.len() as u32
    }

    /// All loaded bytes, in ascending address.
    pub fn loaded_bytes(&self, alloc: Global) -> Result<Vec<u8>, AllocError>
        ensures { IfOk result (λ bytes. bytes.items ≡ bytes_of self.now) }
    {
        Vec::from_slice(alloc, &self.bytes)
    }

    /// An equal image.
    pub fn copy(&self, alloc: Global) -> Result<Image, AllocError>
        ensures { IfOk result (λ image. image ≡ self.now) }
    {
        Ok(Image {
            spans: Vec::from_slice(alloc, &self.spans)?,
            starts: Vec::from_slice(alloc, &self.starts)?,
            bytes: Vec::from_slice(alloc, &self.bytes)?,
        })
    }

    fn lay_out(alloc: Global, parts: &[Part]) -> Result<Image, AllocError>
        requires ascending { LiesFrom 0 (part_spans parts.now) }
        requires small { total (part_spans parts.now) ≤ 2 ^ 24 }
        ensures { IfOk result (λ image. image ≡ flat_map part_cells (part_segments parts.now)) }
    {
        let mut spans = Vec::new(alloc);
        let mut starts = Vec::new(alloc);
        let mut bytes = Vec::new(alloc);
        for part in parts {
            starts.push(bytes.len() as u32)?;
            spans.push(part.span())?;
            part.append(&mut bytes)?;
        }
        Ok(Image {
            spans,
            starts,
            bytes,
        })
    }

    fn location(&self, address: u32) -> Option<Location>
        ensures location { MatchOption result (cell_at self.now address ≡ None) (IsLocation self.now address) }
        ensures held { IfSome result (λ location. IsHeld self.now address location.left location) }
        ensures image { IsImage self.now }
    {
        Location::of(&self.spans, &self.starts, &self.bytes, address)
    }

    /// The location of the first of `count` addresses in a row, where one span holds them all.
    fn location_in_span(&self, address: u32, count: u32) -> Option<Location>
        ensures held { IfSome result (IsHeld self.now address count) }
        ensures image { IsImage self.now }
    {
        let location = self.location(address)?;
        if count <= location.left {
            Some(location)
        } else {
            None
        }
    }
}

#[cfg(test)]
mod tests {
    use crate::{Image, Right, Span};
    use ct_rows::Row;
    use elf_load::{Elf, Segment};
    use std::alloc::{AllocError, Global};
    use std::test::Fail;

    // One word to read and execute, a gap, two zeros to read and write, two to read right after
    // them, and the last two addresses.
    fn four_spans(alloc: Global) -> Result<Image, AllocError> {
        let code = Row::from_vec(Vec::from_slice(alloc, &[0x67, 0x80, 0, 0])?);
        let mut segments = Vec::new(alloc);
        segments.push(Segment {
            address: 0x10054,
            bytes: code,
            read: true,
            write: false,
            exec: true,
        })?;
        let elf = Elf {
            segments: Row::from_vec(segments),
            entry: 0x10054,
            symbols: Row::from_vec(Vec::new(alloc)),
        };
        let work = Span {
            address: 0x20000,
            length: 2,
            read: true,
            write: true,
            exec: false,
        };
        let constants = Span {
            address: 0x20002,
            write: false,
            ..work
        };
        let last = Span {
            address: 0xffff_fffe,
            ..work
        };
        Image::build(alloc, &elf, &[work, constants, last])
    }

    #[test]
    fn answers_at_four_spans_and_a_gap(rt: HostRuntime) -> Result<(), Fail> {
        let image = four_spans(rt.alloc())?;
        // Address, rights to read and to write, byte, index, instruction word.
        let rows = [
            (0x10053, false, false, None, None, None),
            (0x10054, true, false, Some(0x67), Some(0), Some(0x8067)),
            (0x10055, true, false, Some(0x80), Some(1), None),
            (0x10057, true, false, Some(0), Some(3), None),
            (0x10058, false, false, None, None, None),
            (0x1ffff, false, false, None, None, None),
            (0x20000, true, true, Some(0), Some(4), None),
            (0x20001, true, true, Some(0), Some(5), None),
            (0x20002, true, false, Some(0), Some(6), None),
            (0x20004, false, false, None, None, None),
        ];
        for (address, read, write, byte, index, word) in rows {
            assert_eq!(rt; image.allows(Right::Read, address), read);
            assert_eq!(rt; image.allows(Right::Write, address), write);
            assert_eq!(rt; image.loaded(address), byte);
            assert_eq!(rt; image.index_of(address), index);
            assert_eq!(rt; image.fetch(address), word);
        }
        // Address, count, index where all may be loaded from, index where all may be stored to.
        let runs = [
            (0x10054, 4, Some(0), None),
            (0x10056, 4, None, None),
            (0x20000, 2, Some(4), Some(4)),
            (0x20001, 2, Some(5), None),
            (0x20002, 4, None, None),
            (0xffff_fffe, 2, Some(8), Some(8)),
            (0xffff_fffe, 4, None, None),
        ];
        for (address, count, readable, writable) in runs {
            assert_eq!(rt; image.block(Right::Read, address, count), readable);
            assert_eq!(rt; image.block(Right::Write, address, count), writable);
        }
        assert_eq!(rt; image.size(), 10);
        assert_eq!(rt; image.ranges().len(), 4);
        let bytes = image.copy(rt.alloc())?.loaded_bytes(rt.alloc())?;
        assert_eq!(rt;
            bytes.as_slice(),
            [0x67, 0x80, 0, 0, 0, 0, 0, 0, 0, 0].as_slice()
        );
        Ok(())
    }
}
