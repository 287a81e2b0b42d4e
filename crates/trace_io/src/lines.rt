// Lines of numbers, collected in a buffer that the caller lends and written when it is full.
ghost use Rattle.std.specs.Prelude.{◌≡◌, [], ◌∷◌, ◌++◌, ◌+◌, ◌≤◌, length, leb};
ghost use Rattle.std.proofs.lemmas.List.Edits.{sets};
ghost use Rattle.trace_io.specs.Lines.{decimal, field, line_of, Adds};
ghost use Rattle.trace_io.specs.Waiting.{SaysTo, with_room};

// The descriptors that are written to: standard output and standard error.
pub const OUTPUT: i32 = 1;

pub const ERRORS: i32 = 2;

// The octets of a room that makes few calls of the system for many frames: what the programs say to.
pub const LARGE: usize = 65536;

// What a frame prints.
#[derive(Clone, Copy)]
pub struct Report {
    pub reply: u64,
    pub sent: u64,
    pub users: u64,
    pub channels: u64,
    pub tokens: u64,
}

// Puts all of text into out from a place on.
fn lay(out: &mut [u8], at: usize, text: &[u8])
    requires { at + length text.now ≤ length out.old }
    ensures { out.new ≡ sets out.old at text.now }
{
    let mut i = 0;
    while i < text.len() {
        out[at + i] = text[i];
        i += 1;
    }
}

// Puts a number and the mark behind it, and answers the place behind them.
fn put_field(text: &mut [u8], at: usize, n: u64, mark: u8) -> usize
    requires { at + 21 ≤ length text.old }
    ensures { Adds text.old at (field n mark) text.new result }
{
    let mut digits = [0u8; 20];
    let k = io::decimal(n, &mut digits);
    lay(text, at, &digits[..k]);
    let end = at + k;
    text[end] = mark;
    end + 1
}

// Whether so many octets have room behind those that are filled.
fn fits(filled: usize, size: usize, room: usize) -> bool
    ensures { result ≡ leb (filled + size) room }
{
    if room < size {
        return false;
    }
    filled <= room - size
}

// Texts on their way to a descriptor: those that wait are the first octets of the room, and are written where there is no room for more. The descriptor
// stays.
#[derive(Drop)]
pub struct Lines<const N: usize> {
    room: [u8; N],
    filled: usize,
    to: i32,
}

impl<const N: usize> Lines<N> {
    // Nothing waits; what is said goes to this descriptor.
    pub fn to(descriptor: i32) -> Lines<N>
        ensures none { result.filled ≡ 0 }
        ensures there { result.to ≡ descriptor }
    {
        Lines {
            room: [0; N],
            filled: 0,
            to: descriptor,
        }
    }

    // Says a text. What many calls say is promised as the list of the texts; when they are written is not.
    pub fn say(&mut self, text: &[u8])
        ensures { SaysTo self.old (text.now ∷ []) self.new }
    {
        let size = text.len();
        if fits(self.filled, size, N) {
            lay(&mut self.room, self.filled, text);
            self.filled += size;
            return;
        }
        self.flush();
        if size <= N {
            lay(&mut self.room, 0, text);
            self.filled = size;
            return;
        }
        io::write_all(self.to, text);
    }

    // Says a number in decimal.
    pub fn say_number(&mut self, n: u64)
        ensures { SaysTo self.old (decimal n ∷ []) self.new }
    {
        let mut digits = [0u8; 20];
        let k = io::decimal(n, &mut digits);
        self.say(&digits[..k]);
    }

    // Says the line of a report.
    pub fn say_report(&mut self, report: Report)
        ensures { SaysTo self.old (line_of report ∷ []) self.new }
    {
        let mut text = [0u8; 105];
        let a = put_field(&mut text, 0, report.reply, b' ');
        let b = put_field(&mut text, a, report.sent, b' ');
        let c = put_field(&mut text, b, report.users, b' ');
        let d = put_field(&mut text, c, report.channels, b' ');
        let e = put_field(&mut text, d, report.tokens, b'\n');
        self.say(&text[..e]);
    }

    // Writes what waits where so many octets have no room behind it: said then, they are written in one piece.
    pub fn make_room(&mut self, size: usize)
        ensures { self.new ≡ with_room size self.old }
    {
        if !fits(self.filled, size, N) {
            self.flush();
        }
    }

    // Writes what waits, and answers whether all of it was written.
    pub fn flush(&mut self) -> bool
        ensures room { self.new.room ≡ self.old.room }
        ensures none { self.new.filled ≡ 0 }
        ensures stays { self.new.to ≡ self.old.to }
    {
        let filled = self.filled;
        self.filled = 0;
        if N < filled {
            return false;
        }
        io::write_all(self.to, &self.room[..filled])
    }
}
