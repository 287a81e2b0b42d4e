// The names of a message's fields.
ghost use Rattle.std.specs.Prelude.{◌≡◌};
ghost use Rattle.explain_words.specs.FieldNames.{names_at, word_of, field_word};

use crate::words::{FIELD, NONE};

// A message a line. Digits from the right: the names of four fields, counted from the first word for fields (0 result, 1 diagnostic, 2 reason,
// 3 status, 4 channel, 5 initiator, 6 token, 7 height, 8 requested, 9 recipient, 10 interval; 15 no field).
const FIELDS: [u16; 43] = [
    0xFFFF, // 0 PDin
    0xFFA7, // 1 EDrq
    0xFFFF, // 2 MCrq
    0xFFFF, // 3 MCcf
    0xFFFF, // 4 PCin
    0xFFFF, // 5 MTrq
    0xFFFF, // 6 MTcf
    0xFFFF, // 7 PTin
    0xFFF2, // 8 DPum
    0xFFF1, // 9 RJum
    0xFFFF, // 10 AUrq
    0xFF50, // 11 AUcf
    0xFFF2, // 12 DUrq
    0xFFF2, // 13 DUin
    0xFF45, // 14 CJrq
    0x4850, // 15 CJcf
    0xFFFF, // 16 CLrq
    0xFFF5, // 17 CCrq
    0xF450, // 18 CCcf
    0xFF45, // 19 CDrq
    0xFFF4, // 20 CDin
    0xFF45, // 21 CArq
    0xFF45, // 22 CAin
    0xFF45, // 23 CErq
    0xFFF4, // 24 CEin
    0xFFFF, // 25 SDrq
    0xFFFF, // 26 SDin
    0xFFFF, // 27 USrq
    0xFFFF, // 28 USin
    0xFF65, // 29 TGrq
    0x3650, // 30 TGcf
    0xFF65, // 31 TIrq
    0x3650, // 32 TIcf
    0xF965, // 33 TVrq
    0xF965, // 34 TVin
    0xF690, // 35 TVrs
    0x3650, // 36 TVcf
    0xFF65, // 37 TPrq
    0xFF65, // 38 TPin
    0xFF65, // 39 TRrq
    0x3650, // 40 TRcf
    0xFF65, // 41 TTrq
    0xF365, // 42 TTcf
];

// The digits of a number's line; of 43 up, those of no field.
fn names_of(number: u32) -> u16
    ensures { result ≡ names_at number }
{
    if 42 < number {
        return 0xFFFF;
    }
    FIELDS[number as usize]
}

// The name of a field by its digit.
fn word_of(digit: u16) -> usize
    ensures { result ≡ word_of digit }
{
    if 10 < digit {
        return NONE;
    }
    FIELD + digit as usize
}

// The word for field i of a message.
pub fn field_word(number: u32, i: usize) -> usize
    ensures { result ≡ field_word number i }
{
    if 3 < i {
        return NONE;
    }
    let names = names_of(number);
    match i {
        0 => word_of(names % 16),
        1 => word_of((names >> 4) % 16),
        2 => word_of((names >> 8) % 16),
        _ => word_of((names >> 12) % 16),
    }
}
