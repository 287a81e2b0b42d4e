// The line that says where the reading of a message stopped, and why.
#![tactic(auto)]

ghost use Rattle.std.specs.Prelude.{◌≡◌, [], ◌∷◌};
ghost use Rattle.trace_io.specs.Waiting.{SaysTo};
ghost use Rattle.explain_stop.specs.StopLine.{items_place, part_text, why_place, number_in, place_texts, stop_texts, Tells};

use codec_stop::{Part, Why};
use explain_words::words::{say_named, say_word};
use trace_io::lines::Lines;

// The part of a message: its number, a field or what follows the fields by name, or the end.
fn put_part<const N: usize>(lines: &mut Lines<N>, number: u32, part: Part)
    ensures { SaysTo lines.old (part_text number part ∷ []) lines.new }
{
    match part {
        Part::Number => say_named(lines, explain_words::words::PART, 5, 3),
        Part::Field(i) => say_word(lines, explain_words::fields::field_word(number, i)),
        Part::Items => say_named(
            lines,
            explain_words::words::PART,
            3,
            before(codec_table::tail_of(number)),
        ),
        Part::End => say_named(lines, explain_words::words::PART, 5, 4),
    }
}

// One less, and of 0 none.
fn before(kind: u8) -> u32
    ensures { result ≡ items_place kind }
{
    if kind == 0 {
        return 3;
    }
    kind as u32 - 1
}

// The place of a reason among the words for why reading stops; behind the last where the words have none.
fn place_of(why: Why) -> u32
    ensures { result ≡ why_place why }
{
    match why {
        Why::Read | Why::Size | Why::Uncovered => 11,
        Why::Unknown => 0,
        Why::Missing => 1,
        Why::Skipped => 2,
        Why::Range => 3,
        Why::LongForm => 4,
        Why::Fragmented => 5,
        Why::Many => 6,
        Why::Empty => 7,
        Why::Wide => 8,
        Why::Padded => 9,
        Why::Left => 10,
    }
}

// The message's number, of octets that are there.
fn number_of(octets: &[u8]) -> u32
    ensures { result ≡ number_in octets.now }
{
    if octets.len() == 0 {
        return 63;
    }
    codec_octets::wide(octets[0]) / 4
}

// An octet and a bit, counted from 0.
fn put_place<const N: usize>(lines: &mut Lines<N>, bit: usize)
    ensures { SaysTo lines.old (place_texts bit) lines.new }
{
    lines.say(b"  stopped at octet ");
    lines.say_number((bit / 8) as u64);
    lines.say(b" bit ");
    lines.say_number((bit % 8) as u64);
}

// The line that says where reading stopped: the octet and the bit, the part of the message, and why.
pub fn put_stop<const N: usize>(lines: &mut Lines<N>, octets: &[u8])
    ensures { Tells octets.now (stop_texts octets.now) lines.old lines.new }
{
    let s = codec_stop::where_stopped(octets);
    let part = s.part;
    let why = s.why;
    put_place(lines, s.bit);
    lines.say(b" in ");
    put_part(lines, number_of(octets), part);
    lines.say(b": ");
    say_named(lines, explain_words::words::WHY, 11, place_of(why));
    lines.say(b"\n");
}
