// Waits are written by rising number.
ghost use Rattle.std.specs.Prelude.{◌≡◌, ◌++◌, ◌<◌, ℕ, IfOk, IfSome, None, OnOk, true, is_some, length};
ghost use Rattle.std.specs.Prelude.{slice_index_or};
ghost use Rattle.std.specs.List.{AllByRecursion, flat_map};
ghost use Rattle.least.specs.From.{IsAtMost};
ghost use Rattle.ob_codec.specs.Sparse.{entries_from};
ghost use Rattle.ob_waits.specs.RisingNumbers.{HasAll};
ghost use Rattle.ob_waits.specs.Rows.{row_of};
ghost use Rattle.ob_waits.specs.Rules.{IsRising};
ghost use Rattle.ob_waits.specs.Spelling.{RowFits, row_text};
ghost use Rattle.ob_waits.specs.Waits.{is_pending};

use crate::live::Live;
use crate::merge::{lesser, next_of};
use ob_codec::Spelled;
use std::alloc::AllocError;

/// A number above the last one, such that no number between has a wait. `order` has the numbers of all that are
/// pending.
pub(crate) fn next_number(live: &Live, order: &[u32], last: u32) -> Option<u32>
    requires rising { IsRising order.now }
    requires all { HasAll is_pending order.now live.now }
    ensures above { IfSome result (λ n. last < n) }
    ensures least { (k : ℕ) → is_some (slice_index_or live.now k None) ≡ true → last < k → IsAtMost result k }
{
    let answered = live.next_answered(last).map(|answer| answer.wait);
    lesser(next_of(order, last), answered)
}

/// Writes the wait of a number behind it, where there is one, and gives how many that are.
fn write_row(live: &Live, number: u32, out: &mut Vec<u8>) -> Result<u32, AllocError>
    ensures text { OnOk result (out.new.items
        ≡ out.old.items ++ flat_map row_text (row_of number (slice_index_or live.now number None))) }
    ensures count { IfOk result (λ n. n ≡ length (row_of number (slice_index_or live.now number None))) }
    ensures fits { OnOk result (AllByRecursion RowFits (row_of number (slice_index_or live.now number None))) }
{
    let Some(wait) = live.get(number) else {
        return Ok(0);
    };
    number.write(out)?;
    wait.write(out)?;
    Ok(1)
}

/// Writes all waits, each behind its number, and gives how many they are.
#[tactic(auto, using(crate::proofs::WriteLaws::row_none))]
pub(crate) fn write_rows(live: &Live, order: &[u32], out: &mut Vec<u8>) -> Result<u32, AllocError>
    requires rising { IsRising order.now }
    requires all { HasAll is_pending order.now live.now }
    requires none { slice_index_or live.now 0 None ≡ None }
    ensures text { OnOk result (out.new.items ≡ out.old.items ++ flat_map row_text (entries_from 0 live.now)) }
    ensures count { IfOk result (λ n. n ≡ length (entries_from 0 live.now)) }
    ensures fits { OnOk result (AllByRecursion RowFits (entries_from 0 live.now)) }
{
    let mut last = 0;
    let mut count = 0;
    let _given = live.given();
    while let Some(number) = next_number(live, order, last) {
        count += write_row(live, number, out)?;
        last = number;
    }
    Ok(count)
}
