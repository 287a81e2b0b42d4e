// Why no good frame begins.
ghost use Rattle.std.specs.Prelude.{◌≡◌, ◌≤◌, length};
ghost use Rattle.trace_frames.specs.Fault.{fault_missing, fault_behind, fault_inside, fault_of};

// The first rule that is broken, from the left.
#[derive(Clone, Copy)]
pub enum Fault {
    // The length is below 3.
    Length,
    // The version is not 1.
    Version,
    // The kind is above 2.
    Kind,
    // An open or a loss has octets.
    Octets,
    // Octets are missing.
    CutOff,
}

// A front that breaks no rule as far as it goes.
fn missing(s: &[u8]) -> Option<Fault>
    ensures { result ≡ fault_missing s.now }
{
    if super::whole(s) {
        return None;
    }
    Some(Fault::CutOff)
}

// A front whose length, version and kind are right.
fn behind(s: &[u8]) -> Option<Fault>
    requires { 4 ≤ length s.now }
    ensures { result ≡ fault_behind s.now }
{
    let kind = s[3];
    if kind == 2 {
        return missing(s);
    }
    let says = super::following(s[0], s[1]);
    if 3 < says {
        return Some(Fault::Octets);
    }
    missing(s)
}

// A front whose length is right.
fn inside(s: &[u8]) -> Option<Fault>
    ensures { result ≡ fault_inside s.now }
{
    if s.len() < 3 {
        return Some(Fault::CutOff);
    }
    let version = s[2];
    if version != 1 {
        return Some(Fault::Version);
    }
    if s.len() < 4 {
        return Some(Fault::CutOff);
    }
    let kind = s[3];
    if 2 < kind {
        return Some(Fault::Kind);
    }
    behind(s)
}

// What is wrong at the front of s, for any octets: nothing where a good frame begins.
pub fn fault_of(s: &[u8]) -> Option<Fault>
    ensures { result ≡ fault_of s.now }
{
    if s.len() < 2 {
        return Some(Fault::CutOff);
    }
    let says = super::following(s[0], s[1]);
    if says < 3 {
        return Some(Fault::Length);
    }
    inside(s)
}
