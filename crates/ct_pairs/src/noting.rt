//! Splits and paths, noted as they are met.
ghost use Rattle.std.specs.Prelude.{◌≡◌, OnOk, IfOk, map};
ghost use Rattle.std.specs.Ordering.{nat_cmp};
ghost use Rattle.std.specs.BTreeMap.{get, IsOrdered};
ghost use Rattle.ct_pairs.specs.Different.{with_new};
ghost use Rattle.ct_pairs.specs.ValueSplit.{Notes, value_pair, found_of};

use crate::found::Found;
use crate::pair::Pair;
use crate::value_split::ValueSplit;
use ct_rows::Row;
use indexmap::IndexSet;
use std::alloc::{AllocError, Global};
use std::collections::BTreeMap;

/// Keeps a leak, unless the table has one of its site that comes before it.
pub(crate) fn note(
    leaks: &mut BTreeMap<u32, ValueSplit>,
    site: u32,
    leak: ValueSplit,
) -> Result<(), AllocError>
    ensures { OnOk result (Notes (get nat_cmp leaks.old) (get nat_cmp leaks.new) site leak) }
{
    let kept = ValueSplit::earlier(leaks.get(&site).copied(), leak);
    leaks.insert(site, kept)?;
    Ok(())
}

/// Keeps a path, unless it is there. The time grows with the path alone.
pub(crate) fn note_path(paths: &mut IndexSet<Row<u32>>, path: Row<u32>) -> Result<(), AllocError>
    ensures { OnOk result (paths.new.keys ≡ with_new paths.old.keys path) }
{
    paths.insert(path)?;
    Ok(())
}

/// The rows of the table, in ascending address.
pub(crate) fn found_rows(
    alloc: Global,
    leaks: &BTreeMap<u32, ValueSplit>,
) -> Result<Vec<Found>, AllocError>
    ensures rows { IfOk result (λ rows. rows.items ≡ map found_of leaks.now.entries) }
    ensures ordered { OnOk result (IsOrdered nat_cmp leaks.now) }
{
    let mut rows = Vec::new(alloc);
    for (site, leak) in leaks {
        rows.push(Found {
            site: *site,
            step: leak.step,
            pair: value_pair(alloc, leak.left, leak.right)?,
        })?;
    }
    Ok(rows)
}

fn value_pair(alloc: Global, left: u8, right: u8) -> Result<Pair, AllocError>
    ensures { IfOk result (λ pair. pair ≡ value_pair left right) }
{
    Ok(Pair {
        shared: Row::from_vec(Vec::new(alloc)),
        left: Row::from_vec(vec![in alloc; left]?),
        right: Row::from_vec(vec![in alloc; right]?),
    })
}
