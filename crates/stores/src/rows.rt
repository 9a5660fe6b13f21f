// Rows of one column copied or moved, of whatever type: all of these say `copied`, of the rows or of what is in use of
// them. And one more element in a row.
ghost use Rattle.std.specs.Prelude.{◌≡◌, [], ◌∷◌, ◌++◌, ◌+◌, ◌≤◌, ◌<◌, length, take, get_or, set, leb};
ghost use Rattle.bars.specs.Lists.{copied};
ghost use Rattle.stores.specs.Code.StoreRows.{RowsCopied, RowWritten, row_in_turn};

// n rows of another slice, from place `from` on, to place `at` of this one.
pub fn join_rows<T: Copy>(src: &[T], from: usize, dst: &mut [T], at: usize, n: usize)
    requires { (from + n ≤ length src.now) × (at + n ≤ length dst.old) }
    ensures { dst.new ≡ copied dst.old at src.now from n }
{
    dst[at..at + n].copy_from_slice(&src[from..from + n]);
}

// n rows from place `from` to place `at`, up or down: none is lost where the two runs overlap.
pub fn move_rows<T: Copy>(s: &mut [T], from: usize, at: usize, n: usize)
    requires { (from + n ≤ length s.old) × (at + n ≤ length s.old) }
    ensures { s.new ≡ copied s.old at s.old from n }
{
    s.copy_within(from..from + n, at);
}

// ---- rows of elements with their counts. Of a row only its first `count` places are copied, mostly one or two
// of 101: the places beyond the count are free (document 01), and nothing is said of them.

// The first `count` places of a row to the row at `at`. No other row changes.
fn copy_row(row: &[i64; 101], es: &mut [[i64; 101]], at: usize, count: usize)
    requires { at < length es.old }
    ensures { (take count (get_or es.new at []) ≡ take count row.now) × (es.new ≡ set es.old at (get_or es.new at [])) }
{
    join_rows(row, 0, &mut es[at], 0, count.min(101));
}

// The first `count` places of the row at `from` to the row at `at`. No other row changes.
// Kept: place by place. `split_at_mut` would lend both rows, but which half is read depends on the way that the rows go, and where both are one row
// there are no two halves. A copy of the whole row would be 808 bytes, of which mostly 8 or 16 are in use.
fn move_row(es: &mut [[i64; 101]], from: usize, at: usize, count: usize)
    requires { (from < length es.old) × (at < length es.old) }
    ensures { (take count (get_or es.new at []) ≡ take count (get_or es.old from [])) × (es.new ≡ set es.old at (get_or es.new at [])) }
{
    for k in 0..count.min(101) {
        es[at][k] = es[from][k];
    }
}

// n rows of another store's columns, from place `from` on, to place `at`.
// Kept: the two columns as two slices, and rows by index, here and below. A method of all five columns would have to say that the other three stay; a value made
// of two of them is no longer known to be the caller's (bar_stores.rt); and a chain over four slices shows neither which row goes where nor that the first goes first.
pub fn join_in_use(
    cs: &[usize],
    es: &[[i64; 101]],
    from: usize,
    counts: &mut [usize],
    elements: &mut [[i64; 101]],
    at: usize,
    n: usize,
)
    requires { (from + n ≤ length cs.now) × (from + n ≤ length es.now) × (at + n ≤ length counts.old) × (at + n ≤ length elements.old) }
    ensures { RowsCopied counts.old elements.old at cs.now es.now from n counts.new elements.new }
{
    for i in 0..n {
        let count = cs[from + i];
        counts[at + i] = count;
        copy_row(&es[from + i], elements, at + i, count);
    }
}

// Which of n rows is the k-th that is moved: the first row first where they go down, the last row first where they go up, so
// that none is written over before it was read.
fn row_in_turn(from: usize, at: usize, n: usize, k: usize) -> usize
    requires { k < n }
    ensures is { result ≡ row_in_turn (leb at from) n k }
    ensures below { result < n }
{
    if at <= from { k } else { n - 1 - k }
}

// n rows from place `from` to place `at`, up or down.
pub fn move_in_use(cs: &mut [usize], es: &mut [[i64; 101]], from: usize, at: usize, n: usize)
    requires { (from + n ≤ length cs.old) × (from + n ≤ length es.old) × (at + n ≤ length cs.old) × (at + n ≤ length es.old) }
    ensures { RowsCopied cs.old es.old at cs.old es.old from n cs.new es.new }
{
    for k in 0..n {
        let i = row_in_turn(from, at, n, k);
        let count = cs[from + i];
        cs[at + i] = count;
        move_row(es, from + i, at + i, count);
    }
}

// ---- one more element in a row, where the row lies

// `time` behind the first `count` elements of the row at `at`, of which the first 100 stay (document 01). No other
// row changes.
pub fn put_element(cs: &mut [usize], es: &mut [[i64; 101]], at: usize, count: usize, time: i64)
    requires { (at < length cs.old) × (at < length es.old) }
    ensures { RowWritten cs.old es.old at (take 100 (take count (get_or es.old at [])) ++ time ∷ []) cs.new es.new }
{
    let used = count.min(100);
    es[at][used] = time;
    cs[at] = used + 1;
}
