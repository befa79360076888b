//! Rows of one length on the stack that the caller lends, so that no search asks for memory. A search sees the row that it is at first, and
//! the next row behind it.
ghost use Rattle.std.specs.Prelude.{◌≡◌, ◌+◌, ◌<◌, ◌≤◌, length, take, drop, set};

/// Makes the next row the first with this cell put in at place i.
pub(super) fn put_cell<C: Copy>(stack: &mut [C], n: usize, i: usize, cell: C)
    requires room { n + n ≤ length stack.old }
    requires within { i < n }
    ensures kept { take n stack.new ≡ take n stack.old }
    ensures put { take n (drop n stack.new) ≡ set (take n stack.old) i cell }
{
    stack.copy_within(..n, n);
    stack[n + i] = cell;
}
