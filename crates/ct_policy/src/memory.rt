//! Memory entries as regions and spans.
ghost use Rattle.std.specs.Prelude.{◌≡◌};
ghost use Rattle.ct_policy.specs.Policy as policies;
ghost use Rattle.ct_policy.specs.Rules as rules;

use crate::addresses::{address_word, is_address};
use crate::numbers::{is_within, word_of};
use crate::region::Region;
use ct_document::MemoryEntry;
use elf_load::MOST_MEMORY;
use rv_image::Span;

/// Whether the numbers of a memory entry are in their ranges.
pub(crate) fn memory_is_within(entry: MemoryEntry) -> bool
    ensures { result ≡ rules.memory_is_within entry }
{
    is_address(entry.at) && is_within(entry.length, 1, MOST_MEMORY as u32)
}

/// The addresses of a memory entry.
pub(crate) fn memory_region(entry: MemoryEntry) -> Region
    ensures { result ≡ policies.memory_region entry }
{
    Region {
        at: address_word(entry.at),
        offset: 0,
        length: word_of(entry.length),
    }
}

/// The span of a memory entry: zeros that may be loaded and stored.
pub(crate) fn memory_span(entry: MemoryEntry) -> Span
    ensures { result ≡ policies.memory_span entry }
{
    Span {
        address: address_word(entry.at),
        length: word_of(entry.length),
        read: true,
        write: true,
        exec: false,
    }
}
