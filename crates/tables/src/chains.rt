//! Chains of rows, by a table of the row above each.
ghost use Rattle.std.specs.Prelude.{◌≡◌, ◌≤◌, length};
ghost use Rattle.number.specs.Limits.{row_limit};
ghost use Rattle.number.specs.Scan.{scan};
ghost use Rattle.tables.specs.Chains.{endless_row};
ghost use Rattle.iids.specs.Cells.{cell, AtMost};

use number::ROW_LIMIT;

/// The lowest of the first n rows whose chain doesn't end, or n.
pub fn first_endless(up: &[u16; ROW_LIMIT], n: usize, total: usize) -> usize
    requires { (n ≤ total) × (total ≤ row_limit) × (row_limit ≡ length up.now) × AtMost up.now total total }
    ensures { result ≡ scan (endless_row (cell up.now) total) n 0 }
{
    heights::first_unending(up, n, total, total + 1)
}
