// Walks over a column of ids, its order, and what is free in it. A place whose id is 0 is free. A place that is nowhere is answered as the column's length.
#![tactic(auto)]

ghost use Rattle.std.specs.Prelude.{◌≡◌, true, false, [], ◌∷◌, ℕ, ◌+◌, ◌-◌, ◌*◌, ◌<◌, ◌≤◌, min, eqb, length, take, drop, get_or, if◌then◌else◌};
ghost use Rattle.cols_spec.specs.Sets.{member as member_of, has as has_in, ids_above, Gap};
ghost use Rattle.cols_spec.specs.Places.{first as first_in, busy, InRow, next as next_in, number, picked, unused as unused_in};

use cols_masks::Mask;

// The eight places from i on hold x, x + step and so on. No branch stands between them here either.
fn row_of_eight(ids: &[u16], i: usize, x: u16, step: u16) -> bool
    requires { (i + 8 ≤ length ids.now) × (x + 7 * step ≤ 65535) }
    ensures { result ≡ true → InRow ids.now i 8 x step }
{
    let mut all = true;
    for k in 0..8 {
        all = all & (ids[i + k] == x + k as u16 * step);
    }
    all
}

// A place before which, from another on, none is in use: free places are passed eight at a time.
fn past_free(ids: &[u16], from: usize) -> usize
    requires { from ≤ length ids.now }
    ensures { (result ≤ length ids.now) × (busy from (drop from ids.now) ≡ busy result (drop result ids.now)) }
{
    let mut i = from;
    while 8 <= ids.len() - i {
        if !row_of_eight(ids, i, 0, 0) {
            return i;
        }
        i += 8;
    }
    i
}

// The first place in use, from a place on.
pub fn used_from(ids: &[u16], from: usize) -> usize
    ensures { result ≡ number (length ids.now) (busy from (drop from ids.now)) }
{
    let n = ids.len();
    if n <= from {
        return n;
    }
    if 0 < ids[from] {
        return from;
    }
    for i in past_free(ids, from)..n {
        if 0 < ids[i] {
            return i;
        }
    }
    n
}

// How far behind `low` an id stands; those up to `low` come round, behind all others.
fn behind(low: u16, x: u16) -> u16
    ensures { (low < x → x ≡ result + low + 1) × (x ≤ low → 65535 - low ≤ result) }
{
    if x <= low {
        x + (65535 - low)
    } else {
        x - low - 1
    }
}

// The id that stands so far behind `low`, or 0.
fn ahead(low: u16, far: u16) -> u16
    ensures { (far < 65535 - low → result ≡ far + low + 1) × (65535 - low ≤ far → result ≡ 0) }
{
    if far < 65535 - low { far + low + 1 } else { 0 }
}

// The least id above `low`, or 0.
pub fn next(ids: &[u16], low: u16) -> u16
    ensures { result ≡ next_in low 0 ids.now }
{
    let mut best: u16 = 65535;
    for x in ids {
        best = u16::min(behind(low, *x), best);
    }
    ahead(low, best)
}

// The least id above `low` of the places whose cell is k, or 0.
pub fn next_where(ids: &[u16; 64], cells: &[u8; 64], k: u8, low: u16) -> u16
    ensures { result ≡ next_in low 0 (picked (λ j. eqb (get_or cells.now j 0) k) 0 ids.now) }
{
    let mut best: u16 = 65535;
    for i in 0..64 {
        best = u16::min(behind(low, cols_find::if_so(cells[i] == k, ids[i])), best);
    }
    ahead(low, best)
}

// Some cell is k.
pub fn any_is(cells: &[u8], k: u8) -> bool
    ensures { result ≡ false → (j : ℕ) → j < length cells.now → get_or cells.now j 0 ≡ k → ⊥ }
{
    let mut any = false;
    for c in cells {
        any = any | (*c == k);
    }
    any
}

// A place before which, from another on, no cell is k: the cells are passed sixteen at a time.
fn past_cells(cells: &[u8], from: usize, k: u8) -> usize
    requires { from ≤ length cells.now }
    ensures { (result ≤ length cells.now) × (first_in from k (drop from cells.now) ≡ first_in result k (drop result cells.now)) }
{
    let mut i = from;
    while 16 <= cells.len() - i {
        let to = i + 16;
        if any_is(&cells[i..to], k) {
            return i;
        }
        i = to;
    }
    i
}

// The first place, from a place on, whose cell is k.
pub fn cell_from(cells: &[u8], from: usize, k: u8) -> usize
    ensures { result ≡ number (length cells.now) (first_in from k (drop from cells.now)) }
{
    let n = cells.len();
    if n <= from {
        return n;
    }
    for i in past_cells(cells, from, k)..n {
        if cells[i] == k {
            return i;
        }
    }
    n
}

// An id is in a list.
pub fn member(ids: &[u16], x: u16) -> bool
    ensures { result ≡ member_of x ids.now }
{
    ids.contains(&x)
}

// How many places from the first on hold the ids from 1001 on, each its own, passed eight at a time.
fn in_row(ids: &[u16]) -> usize
    ensures { (result ≤ 128) × (result ≤ length ids.now) × InRow ids.now 0 result 1001 1 }
{
    let n = usize::min(ids.len(), 128);
    let mut i = 0;
    while 8 <= n - i {
        if !row_of_eight(ids, i, 1001 + i as u16, 1) {
            return i;
        }
        i += 8;
    }
    i
}

// The mark of an id in the mask of the 64 ids above `low`: none where it is not one of them. A choice, and no branch.
pub fn mark(low: u16, x: u16) -> u64
    ensures { low + 64 ≤ 65535 → result ≡ ids_above low (x ∷ []) }
{
    let k = behind(low, x);
    if k < 64 { 1u64 << k } else { 0 }
}

// The marks of all places, one by one.
fn marks_of(ids: &[u16], low: u16) -> u64
    requires { low + 64 ≤ 65535 }
    ensures { result ≡ ids_above low ids.now }
{
    let mut m: u64 = 0;
    for x in ids {
        m = m | mark(low, *x);
    }
    m
}

// Which of the ids 1001 to 1064 are in a list.
pub fn id_marks(ids: &[u16]) -> u64
    ensures { result ≡ ids_above 1000 ids.now }
{
    marks_of(ids, 1000)
}

// The same of eight that may be free, and eight at a time.
fn marks_of_eight(ids: &[u16], i: usize, low: u16) -> u64
    requires { (i + 8 ≤ length ids.now) × (low + 64 ≤ 65535) }
    ensures { result ≡ ids_above low (take 8 (drop i ids.now)) }
{
    if row_of_eight(ids, i, 0, 0) {
        return 0;
    }
    let to = i + 8;
    marks_of(&ids[i..to], low)
}

fn marks(ids: &[u16], low: u16) -> u64
    requires { low + 64 ≤ 65535 }
    ensures { result ≡ ids_above low ids.now }
{
    let mut m: u64 = 0;
    let mut i = 0;
    while 8 <= ids.len() - i {
        m = m | marks_of_eight(ids, i, low);
        i += 8;
    }
    m | marks_of(&ids[i..], low)
}

// The first of 64 that a mask has not, or 64.
fn gap(m: u64) -> usize
    ensures { Gap (has_in m) 64 result }
{
    u64::trailing_zeros(u64::MAX.minus(m)) as usize
}

// How many ids above `low` stand at some place before the first that does not, of 128.
fn taken(ids: &[u16], low: u16) -> usize
    requires { low + 128 ≤ 65535 }
    ensures { Gap (λ k. member_of (low + 1 + k) ids.now) 128 result }
{
    let a = gap(marks(ids, low));
    if a < 64 {
        return a;
    }
    64 + gap(marks(ids, low + 64))
}

// The lowest id from 1001 that no place has, of 129 tried: behind the row, the ids that are left are marked.
pub fn unused(ids: &[u16]) -> u16
    ensures { result ≡ unused_in 128 ids.now 1001 }
{
    let h = in_row(ids);
    let k = h + taken(&ids[h..], 1000 + h as u16);
    1001 + usize::min(128, k) as u16
}
