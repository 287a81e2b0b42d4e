// Salvages a torn trace window by window: what is decided at a place rests on no more than two frames.
#![tactic(auto)]

ghost use Rattle.std.specs.Prelude.{◌≡◌, ◌-◌};
ghost use Rattle.trace_frames.specs.Good.{some_size};
ghost use Rattle.salvage_window.specs.Windows.{decided as decided_by, sure as sure_size, keeps as keeps_all, stops as stops_at, skips as skips_all, expected, passed, turn_of};
ghost use Rattle.salvage_window.specs.Stands.{stood};

// The octets of the longest frame, and of two.
const ONE: usize = 65537;

const TWO: usize = 131074;

// What a turn did: it kept frames or passed over octets, so many of them; and whether a cut is open then.
#[derive(Clone, Copy)]
pub struct Turn {
    pub octets: usize,
    pub kept: bool,
    pub cutting: bool,
}

// Whether what follows a window of this length does not count.
fn decided(have: usize, ended: bool, need: usize) -> bool
    ensures { result ≡ decided_by ended need have }
{
    if ended {
        return true;
    }
    need <= have
}

// The size of the good frame at the front of w, where one begins and w is not too short to tell.
fn sure(w: &[u8], ended: bool) -> Option<usize>
    ensures { result ≡ some_size (sure_size ended w.now) }
{
    if decided(w.len(), ended, ONE) {
        return trace_frames::good_size(w);
    }
    None
}

// How many octets such frames have that stand one behind the other.
fn keeps(w: &[u8], ended: bool) -> usize
    ensures { result ≡ keeps_all ended w.now }
{
    let mut n = 0;
    while let Some(size) = sure(&w[n..], ended) {
        n += size;
    }
    n
}

// Whether reading resumes at the front of w, or w is too short to tell.
fn stops(w: &[u8], ended: bool) -> bool
    ensures { result ≡ stops_at ended w.now }
{
    if decided(w.len(), ended, TWO) {
        return salvage::resumes(w);
    }
    true
}

// How many octets stand before the first such place; all of them where there is none.
fn skips(w: &[u8], ended: bool) -> usize
    ensures { result ≡ skips_all ended w.now }
{
    for n in 0..w.len() {
        if stops(&w[n..], ended) {
            return n;
        }
    }
    w.len()
}

// A turn where a frame is expected.
fn expect(w: &[u8], ended: bool) -> Turn
    ensures { result ≡ expected ended w.now }
{
    let octets = keeps(w, ended);
    if octets == 0 {
        if w.len() == 0 {
            return Turn {
                octets,
                kept: false,
                cutting: false,
            };
        }
        return Turn {
            octets,
            kept: false,
            cutting: decided(w.len(), ended, ONE),
        };
    }
    Turn {
        octets,
        kept: true,
        cutting: false,
    }
}

// A turn in a cut.
fn pass(w: &[u8], ended: bool) -> Turn
    ensures { result ≡ passed ended w.now }
{
    let octets = skips(w, ended);
    let left = w.len() - octets;
    Turn {
        octets,
        kept: false,
        cutting: !decided(left, ended, TWO),
    }
}

// A turn over a window of a trace. `ended` says that nothing follows the window, `cutting` that a cut is open where it begins.
pub fn turn_over(window: &[u8], ended: bool, cutting: bool) -> Turn
    ensures { result ≡ turn_of ended window.now cutting }
{
    if cutting {
        return pass(window, ended);
    }
    expect(window, ended)
}

// Where a sweep stands: the octets passed, whether a cut is open, and where it starts.
#[derive(Clone, Copy)]
pub struct Stand {
    pub at: u64,
    pub cutting: bool,
    pub from: u64,
}

// Where a turn leads. Where a u64 has no room for the octets passed, it is the most that it holds.
pub fn lead(p: Stand, t: Turn) -> Stand
    ensures { result ≡ stood p t }
{
    let at = p.at.saturating_add(t.octets as u64);
    if p.cutting {
        return Stand {
            at,
            cutting: t.cutting,
            from: p.from,
        };
    }
    Stand {
        at,
        cutting: t.cutting,
        from: p.at,
    }
}

// How many octets are passed since the start of the cut.
pub fn cut_size(p: Stand) -> u64
    ensures { result ≡ p.at - p.from }
{
    p.at.saturating_sub(p.from)
}
