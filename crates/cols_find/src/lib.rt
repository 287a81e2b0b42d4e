// Where an id stands in a column, and how many places are in use. A place whose id is 0 is free. A place that is nowhere is answered as the column's length.
#![tactic(auto)]

ghost use Rattle.std.specs.Prelude.{◌≡◌, ◌+◌, ◌<◌, ◌≤◌, ◌-◌, true, length, get_or, drop, [], ◌∷◌, if◌then◌else◌};
ghost use Rattle.cols_spec.specs.Places.{first as first_in, find as find_in, spare as spare_in, number, used as used_in};

// A number, where it counts; else 0. A choice, and no branch.
pub fn if_so(so: bool, n: u16) -> u16
    ensures { (result ≡ (if so then n else 0)) × (result ≤ n) }
{
    if so { n } else { 0 }
}

// How many of the 64 places from `from` on stand before x; all of them, where none holds it. All are looked at, eight together, and no branch stands
// between them: in a conference nobody can foresee where an id stands.
fn among(ids: &[u16], from: usize, x: u16) -> usize
    requires { from + 64 ≤ length ids.now }
    ensures { (result ≤ 64) × (first_in from x (drop from ids.now) ≡ first_in (from + result) x (drop (from + result) ids.now)) }
{
    let mut most: u16 = 0;
    for k in 0..64 {
        most = u16::max(if_so(ids[from + k] == x, (64 - k) as u16), most);
    }
    64 - most as usize
}

// The same by a sum, which takes fewer steps: 256 and the place, where x stands. Where it stands at two places or more nothing is passed over.
fn alone(ids: &[u16], from: usize, x: u16) -> usize
    requires { from + 64 ≤ length ids.now }
    ensures { (result ≤ 64) × (first_in from x (drop from ids.now) ≡ first_in (from + result) x (drop (from + result) ids.now)) }
{
    let mut sum: u16 = 0;
    for k in 0..64 {
        sum += if_so(ids[from + k] == x, (256 + k) as u16);
    }
    if sum < 256 {
        return 64;
    }
    if sum < 512 {
        return (sum - 256) as usize;
    }
    0
}

// By the one or the other. `many` only chooses a way: an id in use stands at one place, and many places are free.
fn near(ids: &[u16], from: usize, x: u16, many: bool) -> usize
    requires { from + 64 ≤ length ids.now }
    ensures { (result ≤ 64) × (first_in from x (drop from ids.now) ≡ first_in (from + result) x (drop (from + result) ids.now)) }
{
    if many {
        return among(ids, from, x);
    }
    alone(ids, from, x)
}

// A place that x does not stand before, found 64 places at a time.
fn skipped(ids: &[u16], x: u16, many: bool) -> usize
    ensures { (result ≤ length ids.now) × (first_in 0 x ids.now ≡ first_in result x (drop result ids.now)) }
{
    let mut i = 0;
    while 64 <= ids.len() - i {
        let k = near(ids, i, x, many);
        if k < 64 {
            return i + k;
        }
        i += 64;
    }
    i
}

// x stands at the first place: most often it does, in a small conference.
fn at_start(ids: &[u16], x: u16) -> bool
    ensures { result ≡ true → (0 < length ids.now) × (get_or ids.now 0 0 ≡ x) }
{
    if 0 < ids.len() {
        return ids[0] == x;
    }
    false
}

// The first place that holds x: the start, or the place that was skipped to, or, behind the last 64, one sought place by place.
fn first(ids: &[u16], x: u16, many: bool) -> usize
    ensures { result ≡ number (length ids.now) (first_in 0 x ids.now) }
{
    if at_start(ids, x) {
        return 0;
    }
    let from = skipped(ids, x, many);
    for i in from..ids.len() {
        if ids[i] == x {
            return i;
        }
    }
    ids.len()
}

// The place of an id in use.
pub fn find(ids: &[u16], x: u16) -> usize
    ensures { result ≡ number (length ids.now) (find_in ids.now x) }
{
    if x == 0 {
        return ids.len();
    }
    first(ids, x, false)
}

// The place that the next new id gets.
pub fn spare(ids: &[u16]) -> usize
    ensures { result ≡ number (length ids.now) (spare_in ids.now) }
{
    first(ids, 0, true)
}

// A place counts if its id is not 0.
fn in_use(x: u16) -> u16
    ensures { result ≡ used_in (x ∷ []) }
{
    if x == 0 { 0 } else { 1 }
}

// How many of some places are in use. A short number counts them: more places are then looked at together.
fn used_of(ids: &[u16]) -> u16
    requires { length ids.now ≤ 4096 }
    ensures { result ≡ used_in ids.now }
{
    let mut k: u16 = 0;
    for x in ids {
        k += in_use(*x);
    }
    k
}

// The end of the part that starts at a place.
fn part_end(from: usize, n: usize) -> usize
    requires { from ≤ n }
    ensures { (result ≤ n) × (result ≤ from + 4096) × (from ≤ result) × (from < n → from < result) }
{
    if n - from < 4096 { n } else { from + 4096 }
}

// How many places are in use, a part at a time.
pub fn used(ids: &[u16]) -> usize
    ensures { result ≡ used_in ids.now }
{
    let mut n = 0;
    let mut i = 0;
    while i < ids.len() {
        let to = part_end(i, ids.len());
        n += used_of(&ids[i..to]) as usize;
        i = to;
    }
    n
}
