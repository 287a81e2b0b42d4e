// Salvages a torn trace: the good frames are kept, and what stands between them is cut out and listed.
#![tactic(auto)]

ghost use Rattle.std.specs.Prelude.{◌≡◌, ◌+◌, ◌*◌, ◌≤◌, ◌<◌, length, drop};
ghost use Rattle.std.proofs.lemmas.List.Edits.{sets};
ghost use Rattle.codec_octets.specs.Octets.{octets_of};
ghost use Rattle.salvage.specs.Spans.{resumes as resumes_at, until as until_place, first};
ghost use Rattle.salvage.specs.Answer.{entry, salvaged};
ghost use Rattle.salvage.specs.Steps.{Lays, Before, Takes, Measures, Passes};

// How a trace was salvaged: 0, and how many octets of the output and of the list are filled; or 9.
#[repr(C)]
#[derive(Clone, Copy)]
pub struct Salvaged {
    pub reply: u32,
    pub kept: usize,
    pub cuts: usize,
}

// A place in the trace, how many octets before it are kept, and how many spans are cut out.
#[derive(Clone, Copy)]
struct Place {
    at: usize,
    kept: usize,
    cuts: usize,
}

// Whether a good frame begins that is followed by another good frame or by the end.
pub fn resumes(s: &[u8]) -> bool
    ensures { result ≡ resumes_at s.now }
{
    match trace_frames::good_size(s) {
        None => false,
        Some(size) => {
            if size == s.len() {
                return true;
            }
            trace_frames::good_size(&s[size..]).is_some()
        }
    }
}

// How many octets stand before the first such place; all of them where there is none.
fn until(s: &[u8]) -> usize
    ensures { result ≡ until_place s.now }
{
    for n in 0..s.len() {
        if resumes(&s[n..]) {
            return n;
        }
    }
    s.len()
}

// Puts octets into a room from a place on. A loop, and no copy_from_slice: that is memmove, and the library for C calls only memcpy and memset.
fn lay(room: &mut [u8], at: usize, os: &[u8])
    requires { at + length os.now ≤ length room.old }
    ensures { room.new ≡ sets room.old at os.now }
{
    for i in 0..os.len() {
        room[at + i] = os[i];
    }
}

// The octets of a frame, where the room has them.
fn put_frame(out: &mut [u8], at: usize, os: &[u8])
    ensures { Lays out.old at os.now out.new }
{
    if out.len() < at {
        return;
    }
    if out.len() - at < os.len() {
        return;
    }
    lay(out, at, os);
}

// A number in eight octets, the most significant first.
fn put_number(list: &mut [u8], at: usize, n: usize)
    requires { at + 8 ≤ length list.old }
    ensures { list.new ≡ sets list.old at (octets_of 8 n) }
{
    lay(list, at, &(n as u64).to_be_bytes());
}

// Entry number k of the list: start and length of a span that is cut out, where the list has room for it.
fn put_cut(list: &mut [u8], k: usize, start: usize, size: usize)
    ensures { Lays list.old (k * 16) (entry start size) list.new }
{
    if list.len() / 16 <= k {
        return;
    }
    let at = k * 16;
    put_number(list, at, start);
    put_number(list, at + 8, size);
}

// Takes the span at a place: a good frame is kept, anything else cut out.
fn step(trace: &[u8], p: Place, out: &mut [u8], list: &mut [u8]) -> Place
    requires { Before trace.now p }
    ensures { Takes trace.now (first (drop p.at trace.now)) p out.old list.old result out.new list.new }
{
    let at = p.at;
    match trace_frames::good_size(&trace[at..]) {
        None => {
            let gap = until(&trace[at..]);
            put_cut(list, p.cuts, at, gap);
            let next = at + gap;
            let cuts = p.cuts + 1;
            Place {
                at: next,
                kept: p.kept,
                cuts,
            }
        }
        Some(size) => {
            let end = at + size;
            put_frame(out, p.kept, &trace[at..end]);
            let kept = p.kept + size;
            Place {
                at: end,
                kept,
                cuts: p.cuts,
            }
        }
    }
}

// Takes all spans, and answers how much room they take whether they fit or not.
fn pass(trace: &[u8], out: &mut [u8], list: &mut [u8]) -> Place
    ensures { Passes trace.now out.old list.old result out.new list.new }
{
    let mut p = Place {
        at: 0,
        kept: 0,
        cuts: 0,
    };
    while p.at < trace.len() {
        p = step(trace, p, out, list);
    }
    p
}

// How much room all spans take: they are taken over rooms of no octets.
fn measure(trace: &[u8]) -> Place
    ensures { Measures trace.now result }
{
    let mut out = [0u8; 0];
    let mut list = [0u8; 0];
    pass(trace, &mut out, &mut list)
}

// Writes the frames of a trace that can be kept into `out` and a list of the spans cut out into `list`: start and length, eight octets each.
// Where either has too little room: 9, and both are untouched.
pub fn salvage(trace: &[u8], out: &mut [u8], list: &mut [u8]) -> Salvaged
    ensures { (result, out.new, list.new) ≡ salvaged trace.now out.old list.old }
{
    let need = measure(trace);
    let refused = Salvaged {
        reply: 9,
        kept: 0,
        cuts: 0,
    };
    if out.len() < need.kept {
        return refused;
    }
    if list.len() / 16 < need.cuts {
        return refused;
    }
    pass(trace, out, list);
    Salvaged {
        reply: 0,
        kept: need.kept,
        cuts: need.cuts * 16,
    }
}
