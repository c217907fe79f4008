//! Ranges of addresses, and the first two of them that share an address.
ghost use Rattle.std.specs.Prelude.{◌≡◌, ◌<◌, length, position, IfSome};
ghost use Rattle.elf_load.specs.Overlap.{share_address, first_overlap};

/// A range of addresses, perhaps without any.
pub trait AddressRange {
    ghost use Rattle.std.specs.Prelude.{ℕ};

    /// The first address.
    ghost first: { Self → ℕ };

    /// The address after the last one.
    ghost past: { Self → ℕ };

    fn start(&self) -> u64
        ensures { result ≡ first self.now };

    fn end(&self) -> u64
        ensures { result ≡ past self.now };
}

fn shares_address<T: AddressRange>(left: &T, right: &T) -> bool
    ensures { result ≡ share_address T.first T.past left.now right.now }
{
    left.start().max(right.start()) < left.end().min(right.end())
}

fn first_sharing<T: AddressRange>(range: &T, others: &[T]) -> Option<usize>
    ensures first { result ≡ position (share_address T.first T.past range.now) others.now }
    ensures within { IfSome result (λ distance. distance < length others.now) }
{
    others.iter().position(|other| shares_address(range, other))
}

/// The first two ranges that share an address, by their indices: the least first index, and with it
/// the least second one. The time grows with the square of their number.
#[tactic(auto, unfolding(crate::specs::Overlap::first_overlap))]
pub fn first_overlap<T: AddressRange>(ranges: &[T]) -> Option<(usize, usize)>
    ensures first { result ≡ first_overlap T.first T.past ranges.now }
    ensures within { IfSome result (λ pair. (pair.0 < length ranges.now) × (pair.1 < length ranges.now)) }
{
    for (index, range) in ranges.iter().enumerate() {
        if let Some(distance) = first_sharing(range, &ranges[index + 1..]) {
            return Some((index, index + 1 + distance));
        }
    }
    None
}
