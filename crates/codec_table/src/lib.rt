// The table of the 43 messages, looked up by number, and the limits.
#![tactic(auto)]

ghost use Rattle.std.specs.Prelude.{◌≡◌, not, ◌%◌, ◌≤◌, eqb};
ghost use Rattle.codec_table.specs.Messages.{may_go_up, is_served, is_covered};
ghost use Rattle.codec_table.specs.Columns.{way_at, packed_at, digit, form_at, count_at, tail_at, kind_in, kind_at};

// At most so many ids in a list, octets in a string, octets in a message.
pub const LIST_LIMIT: usize = 64;

pub const STRING_LIMIT: usize = 16383;

pub const MESSAGE_LIMIT: usize = 1024;

// What is said of each number: 0 it may not go up, 1 it may and is not served, 2 it is served; and 4 more where the codec covers it.
const WAYS: [u8; 43] = [
    0, // 0 PDin
    6, // 1 EDrq
    1, // 2 MCrq
    0, // 3 MCcf
    0, // 4 PCin
    1, // 5 MTrq
    0, // 6 MTcf
    0, // 7 PTin
    6, // 8 DPum
    6, // 9 RJum
    6, // 10 AUrq
    4, // 11 AUcf
    6, // 12 DUrq
    4, // 13 DUin
    6, // 14 CJrq
    4, // 15 CJcf
    6, // 16 CLrq
    6, // 17 CCrq
    4, // 18 CCcf
    6, // 19 CDrq
    4, // 20 CDin
    6, // 21 CArq
    4, // 22 CAin
    6, // 23 CErq
    4, // 24 CEin
    1, // 25 SDrq
    0, // 26 SDin
    1, // 27 USrq
    0, // 28 USin
    6, // 29 TGrq
    4, // 30 TGcf
    6, // 31 TIrq
    4, // 32 TIcf
    6, // 33 TVrq
    4, // 34 TVin
    6, // 35 TVrs
    4, // 36 TVcf
    6, // 37 TPrq
    4, // 38 TPin
    6, // 39 TRrq
    4, // 40 TRcf
    6, // 41 TTrq
    4, // 42 TTcf
];

// The way of a number; from 43 on there is no message, which may not go up.
pub fn way_of(number: u32) -> u8
    ensures { result ≡ way_at number }
{
    if 42 < number {
        return 0;
    }
    WAYS[number as usize]
}

// Whether a message may go up, is served, is covered by the codec: by its way, and by its number. Whoever asks more than once looks the way up
// once.
pub fn goes_up(way: u8) -> bool
    ensures { result ≡ not (eqb (way % 4) 0) }
{
    way % 4 != 0
}

pub fn is_served(way: u8) -> bool
    ensures { result ≡ eqb (way % 4) 2 }
{
    way % 4 == 2
}

pub fn may_go_up(number: u32) -> bool
    ensures { result ≡ may_go_up number }
{
    goes_up(way_of(number))
}

pub fn served(number: u32) -> bool
    ensures { result ≡ is_served number }
{
    is_served(way_of(number))
}

pub fn covered(number: u32) -> bool
    ensures { result ≡ is_covered number }
{
    4 <= way_of(number)
}

// A message's layout, a line each. Digits from the right: the form (0 all fields are there, 1 the last is OPTIONAL, 2 not covered, 3 no message);
// what follows (0 nothing, 1 channel ids, 2 user ids, 3 octets); how many fields are always there; the kinds of four fields (0 result, 1
// diagnostic, 2 reason, 3 status, 4 channel id, 5 user or private id, 6 token id, 7 integer, or none). A choice among constants, which the
// compiler keeps in memory: an array it would store on the stack whenever a line is looked up.
pub fn entry_of(number: u32) -> u32
    ensures { result ≡ packed_at number }
{
    match number {
        0 => 0x7777002, // PDin
        1 => 0x7777200, // EDrq
        2 => 0x7777002, // MCrq
        3 => 0x7777002, // MCcf
        4 => 0x7777002, // PCin
        5 => 0x7777002, // MTrq
        6 => 0x7777002, // MTcf
        7 => 0x7777002, // PTin
        8 => 0x7772100, // DPum
        9 => 0x7771130, // RJum
        10 => 0x7777000, // AUrq
        11 => 0x7750101, // AUcf
        12 => 0x7772120, // DUrq
        13 => 0x7772120, // DUin
        14 => 0x7745200, // CJrq
        15 => 0x4450301, // CJcf
        16 => 0x7777010, // CLrq
        17 => 0x7775100, // CCrq
        18 => 0x7550201, // CCcf
        19 => 0x7755200, // CDrq
        20 => 0x7775100, // CDin
        21 => 0x7755220, // CArq
        22 => 0x7755220, // CAin
        23 => 0x7755220, // CErq
        24 => 0x7775120, // CEin
        25 => 0x7777002, // SDrq
        26 => 0x7777002, // SDin
        27 => 0x7777002, // USrq
        28 => 0x7777002, // USin
        29 => 0x7765200, // TGrq
        30 => 0x3650400, // TGcf
        31 => 0x7765200, // TIrq
        32 => 0x3650400, // TIcf
        33 => 0x7565300, // TVrq
        34 => 0x7565300, // TVin
        35 => 0x7650300, // TVrs
        36 => 0x3650400, // TVcf
        37 => 0x7765200, // TPrq
        38 => 0x7765200, // TPin
        39 => 0x7765200, // TRrq
        40 => 0x3650400, // TRcf
        41 => 0x7765200, // TTrq
        42 => 0x7365300, // TTcf
        _ => 0x7777003,
    }
}

// The columns of a message's layout, by its line, and by its number.
pub fn form_in(line: u32) -> u8
    ensures { result ≡ digit 0 line }
{
    (line % 16) as u8
}

pub fn tail_in(line: u32) -> u8
    ensures { result ≡ digit 1 line }
{
    ((line >> 4) % 16) as u8
}

pub fn count_in(line: u32) -> usize
    ensures { result ≡ digit 2 line }
{
    ((line >> 8) % 16) as usize
}

pub fn kind_in(line: u32, i: usize) -> u8
    ensures { result ≡ kind_in line i }
{
    match i {
        0 => ((line >> 12) % 16) as u8,
        1 => ((line >> 16) % 16) as u8,
        2 => ((line >> 20) % 16) as u8,
        3 => ((line >> 24) % 16) as u8,
        _ => 7,
    }
}

pub fn form_of(number: u32) -> u8
    ensures { result ≡ form_at number }
{
    form_in(entry_of(number))
}

pub fn tail_of(number: u32) -> u8
    ensures { result ≡ tail_at number }
{
    tail_in(entry_of(number))
}

pub fn count_of(number: u32) -> usize
    ensures { (result ≡ count_at number) × (result ≤ 4) }
{
    count_in(entry_of(number))
}

pub fn kind_of(number: u32, i: usize) -> u8
    ensures { result ≡ kind_at number i }
{
    kind_in(entry_of(number), i)
}
