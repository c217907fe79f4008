//! Where an accessible address lies.
ghost use Rattle.std.specs.Prelude.{◌≡◌, ◌≤◌, ◌<◌, length, MatchOption, IfSome, None};
ghost use Rattle.std.specs.List.{AllWithin};
ghost use Rattle.rv_image.specs.View.{LiesFrom, IsLaidOut, cells_in};

use crate::span::Span;

/// Where an accessible address lies: in which span, and at which location among all bytes.
#[derive(Clone, Copy)]
pub(crate) struct Location {
    pub span: Span,
    pub index: u32,
    pub byte: u8,
    /// How many addresses of the span there are from this one on.
    pub left: u32,
}

/// How many spans begin at or below the address.
fn begun(spans: &[Span], address: u32) -> usize
    requires { LiesFrom 0 spans.now }
    ensures bound { result ≤ length spans.now }
    ensures begun { AllWithin (λ span. span.address ≤ address) spans.now 0 result }
    ensures later { AllWithin (λ span. address < span.address) spans.now result (length spans.now) }
{
    spans.partition_point(|span| span.address <= address)
}

impl Location {
    ghost use Rattle.rv_image.specs.Location.{IsLocation, IsHeld};
    ghost use Rattle.rv_image.specs.Image.{cell_at};

    /// The location of an address, found by halving the spans.
    pub fn of(spans: &[Span], starts: &[u32], bytes: &[u8], address: u32) -> Option<Location>
        requires { IsLaidOut spans.now starts.now bytes.now }
        ensures location { MatchOption result (cell_at (cells_in spans.now bytes.now) address ≡ None) (IsLocation (cells_in spans.now bytes.now) address) }
        ensures held { IfSome result (λ location. IsHeld (cells_in spans.now bytes.now) address location.left location) }
    {
        let begun = begun(spans, address);
        if begun == 0 {
            return None;
        }
        let span = spans[begun - 1];
        let offset = address - span.address;
        if offset >= span.length {
            return None;
        }
        let index = starts[begun - 1] + offset;
        Some(Location {
            span,
            index,
            byte: bytes[index as usize],
            left: span.length - offset,
        })
    }
}
