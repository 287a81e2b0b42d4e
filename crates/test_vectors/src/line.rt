// The pieces of a line.
use trace_io::lines::Lines;

// No line is longer.
pub const LINE: usize = 4096;

// An octet as two hexadecimal digits.
fn put_octet(lines: &mut Lines<LINE>, octet: u8) {
    let mut digits = [0u8; 16];
    let k = io::hex(u64::from(octet), 2, &mut digits);
    lines.say(&digits[..k]);
}

pub fn put_octets(lines: &mut Lines<LINE>, octets: &[u8]) {
    for octet in octets {
        put_octet(lines, *octet);
    }
}

// A number in decimal, behind a space.
pub fn put_number(lines: &mut Lines<LINE>, n: u64) {
    lines.say(b" ");
    lines.say_number(n);
}

// The number of the refusal.
pub fn put_refusal(lines: &mut Lines<LINE>, refusal: u8) {
    lines.say(b"no");
    put_number(lines, u64::from(refusal));
}

// The mark at the end of a line: whether what was to be seen was seen.
pub fn put_mark(lines: &mut Lines<LINE>, is_seen: bool) {
    lines.say(if is_seen { b" =" } else { b" !" });
}
