// The words for the numbers of T.125 and of document 01: one table, a row of 24 octets a word, the rest of a row dots.
ghost use Rattle.std.specs.Prelude.{◌≡◌, [], ◌∷◌, ◌≤◌, take, drop};
ghost use Rattle.trace_io.specs.Waiting.{SaysTo};
ghost use Rattle.explain_words.specs.Words.{word, padded, rows, placed, Fronts};

use trace_io::lines::Lines;

// Results, 16 from here on.
pub const RESULT: usize = 0;

// Diagnostics, 14 from here on.
pub const DIAGNOSTIC: usize = 16;

// Reasons, 5 from here on.
pub const REASON: usize = 30;

// Token statuses, 8 from here on.
pub const STATUS: usize = 35;

// Replies, 12 from here on.
pub const REPLY: usize = 43;

// Fields, 11 from here on.
pub const FIELD: usize = 55;

// What follows the fields, and the other parts of a message, 5 from here on.
pub const PART: usize = 66;

// The 43 messages, 43 from here on.
pub const MESSAGE: usize = 71;

// Why reading stops, 11 from here on.
pub const WHY: usize = 114;

// No word.
pub const NONE: usize = 125;

// The width of a row.
const WIDTH: usize = 24;

// The rows one behind the other; the last is for no word.
const ROWS: [u8; 3024] = *b"successful..............\
    domain-merging..........\
    domain-not-hierarchical.\
    no-such-channel.........\
    no-such-domain..........\
    no-such-user............\
    not-admitted............\
    other-user-id...........\
    parameters-unacceptable.\
    token-not-available.....\
    token-not-possessed.....\
    too-many-channels.......\
    too-many-tokens.........\
    too-many-users..........\
    unspecified-failure.....\
    user-rejected...........\
    inconsistent-merge......\
    forbidden-PDU-downward..\
    forbidden-PDU-upward....\
    invalid-BER-encoding....\
    invalid-PER-encoding....\
    misrouted-user..........\
    unrequested-confirm.....\
    wrong-transport-priority\
    channel-id-conflict.....\
    token-id-conflict.......\
    not-user-id-channel.....\
    too-many-channels.......\
    too-many-tokens.........\
    too-many-users..........\
    domain-disconnected.....\
    provider-initiated......\
    token-purged............\
    user-requested..........\
    channel-purged..........\
    notInUse................\
    selfGrabbed.............\
    otherGrabbed............\
    selfInhibited...........\
    otherInhibited..........\
    selfRecipient...........\
    selfGiving..............\
    otherGiving.............\
    done....................\
    ignored.................\
    not open................\
    open already............\
    wrong length............\
    bad encoding............\
    may not go up...........\
    not served..............\
    too long................\
    no room.................\
    bad limit...............\
    bad frame...............\
    result..................\
    diagnostic..............\
    reason..................\
    status..................\
    channel.................\
    initiator...............\
    token...................\
    height..................\
    requested...............\
    recipient...............\
    interval................\
    channels................\
    users...................\
    octets..................\
    number..................\
    end.....................\
    PDin....................\
    EDrq....................\
    MCrq....................\
    MCcf....................\
    PCin....................\
    MTrq....................\
    MTcf....................\
    PTin....................\
    DPum....................\
    RJum....................\
    AUrq....................\
    AUcf....................\
    DUrq....................\
    DUin....................\
    CJrq....................\
    CJcf....................\
    CLrq....................\
    CCrq....................\
    CCcf....................\
    CDrq....................\
    CDin....................\
    CArq....................\
    CAin....................\
    CErq....................\
    CEin....................\
    SDrq....................\
    SDin....................\
    USrq....................\
    USin....................\
    TGrq....................\
    TGcf....................\
    TIrq....................\
    TIcf....................\
    TVrq....................\
    TVin....................\
    TVrs....................\
    TVcf....................\
    TPrq....................\
    TPin....................\
    TRrq....................\
    TRcf....................\
    TTrq....................\
    TTcf....................\
    no such message.........\
    octets are missing......\
    skipped bits are not 0..\
    value out of range......\
    length in the long form.\
    fragmented length.......\
    list above 64 ids.......\
    number of 0 octets......\
    number above 4 octets...\
    more octets than needed.\
    octets are left over....\
    ?.......................";

// Where the row of a word starts; of a number above the last word, the last row.
fn start_of(n: usize) -> usize
    ensures { (result ≤ 3000) × (take 24 (drop result rows) ≡ padded (word n)) }
{
    if n < NONE { n * WIDTH } else { NONE * WIDTH }
}

// How many octets stand before the first dot.
fn size_of(row: &[u8]) -> usize
    ensures { Fronts row.now result }
{
    for i in 0..row.len() {
        if row[i] == b'.' {
            return i;
        }
    }
    row.len()
}

// Says a word.
pub fn say_word<const N: usize>(lines: &mut Lines<N>, n: usize)
    ensures { SaysTo lines.old (word n ∷ []) lines.new }
{
    let table = ROWS;
    let from = start_of(n);
    let to = from + WIDTH;
    let row = &table[from..to];
    let k = size_of(row);
    lines.say(&row[..k]);
}

// Says the word for a value among so many from a group's first on; for any other, a question mark.
pub fn say_named<const N: usize>(lines: &mut Lines<N>, group: usize, count: u32, value: u32)
    ensures { SaysTo lines.old (word (placed group count value) ∷ []) lines.new }
{
    if count <= value || NONE <= group {
        say_word(lines, NONE);
        return;
    }
    say_word(lines, group + value as usize);
}
