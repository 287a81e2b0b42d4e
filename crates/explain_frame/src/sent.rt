// The records sent for a frame, a line each.
ghost use Rattle.std.specs.Prelude.{◌≡◌, ◌≤◌, length};
ghost use Rattle.trace_io.specs.Waiting.{SaysTo};
ghost use Rattle.explain_frame.specs.Sent.{record_size, record_texts, records_texts};

use trace_io::lines::Lines;

// How many octets the record at the front has; 0 where there is none.
fn size_at(records: &[u8]) -> usize
    ensures { result ≡ record_size records.now }
{
    if records.len() < 4 {
        return 0;
    }
    let n = trace_frames::following(records[0], records[1]);
    if n < 2 {
        return 0;
    }
    if records.len() - 2 < n {
        return 0;
    }
    n + 2
}

// A record: to which connection, and the message in words.
fn put_record<const N: usize>(lines: &mut Lines<N>, one: &[u8])
    requires { 4 ≤ length one.now }
    ensures { SaysTo lines.old (record_texts one.now) lines.new }
{
    lines.say(b"  to connection ");
    lines.say_number(codec_octets::wide(one[3]) as u64);
    lines.say(b": ");
    explain_message::message::put_message(lines, &one[4..]);
    lines.say(b"\n");
}

// Records one behind the other.
pub fn put_records<const N: usize>(lines: &mut Lines<N>, records: &[u8])
    ensures { SaysTo lines.old (records_texts records.now) lines.new }
{
    let mut from = 0;
    let mut size = size_at(records);
    while 0 < size {
        let end = from + size;
        put_record(lines, &records[from..end]);
        from = end;
        size = size_at(&records[from..]);
    }
}
