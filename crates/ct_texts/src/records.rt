//! What a step shows: its memory access and where it goes.
ghost use Rattle.std.specs.Prelude.{◌≡◌, ◌++◌};
ghost use Rattle.std.specs.Result.{OnOk};
ghost use Rattle.std.specs.String.{string_bytes};
ghost use Rattle.ct_texts.specs.Records.{touch_text, next_text, record_text};

use crate::words::push_address;
use rv_machine::{Record, Touch};
use std::alloc::AllocError;

/// Appends a memory access with its first address, or `-` where there is none.
pub fn push_touch(text: &mut String, touch: Touch) -> Result<(), AllocError>
    ensures { OnOk result (string_bytes text.new ≡ string_bytes text.old ++ touch_text touch) }
{
    match touch {
        Touch::Nothing => text.push_str("-"),
        Touch::Load(address) => {
            text.push_str("load ")?;
            push_address(text, address)
        }
        Touch::Store(address) => {
            text.push_str("store ")?;
            push_address(text, address)
        }
    }
}

/// Appends a next pc, or `-` where there is none.
pub fn push_next(text: &mut String, next: Option<u32>) -> Result<(), AllocError>
    ensures { OnOk result (string_bytes text.new ≡ string_bytes text.old ++ next_text next) }
{
    match next {
        Some(next) => push_address(text, next),
        None => text.push_str("-"),
    }
}

/// Appends what a step touches and where it goes.
#[tactic(auto, unfolding(crate::specs::Records::record_text))]
pub fn push_record(text: &mut String, seen: Record) -> Result<(), AllocError>
    ensures { OnOk result (string_bytes text.new ≡ string_bytes text.old ++ record_text seen) }
{
    text.push_str("touch ")?;
    push_touch(text, seen.touch)?;
    text.push_str(" next ")?;
    push_next(text, seen.next)
}
