// A reader that remembers the message and the bit that it has reached, and moves on field by field.
#![tactic(auto)]

ghost use Rattle.std.specs.Prelude.{◌≡◌, length};
ghost use Rattle.codec_table.specs.Columns.{field_of};
ghost use Rattle.codec_octets.specs.Places.{behind};
ghost use Rattle.codec_read.specs.Fields.{FieldAt};
ghost use Rattle.codec_cursor.specs.Steps.{Steps};

use codec_octets::{Got, Refusal};
use codec_read::field_at;

// The octets that no bit before this one is in.
fn left_behind(s: &[u8], at: usize) -> usize
    ensures { result ≡ length (behind s.now at) }
{
    let n = at / 8;
    if s.len() <= n {
        return 0;
    }
    if at % 8 == 0 {
        s.len() - n
    } else {
        s.len() - n - 1
    }
}

// A reader remembers the message and the bit that it has reached.
#[derive(Clone, Copy)]
pub struct Reader<'a> {
    pub octets: &'a [u8],
    pub bit: usize,
}

impl<'a> Reader<'a> {
    // A reader at the first bit.
    pub fn new(octets: &'a [u8]) -> Reader<'a>
        ensures { (result.octets ≡ octets.entry) × (result.bit ≡ 0) }
    {
        Reader { octets, bit: 0 }
    }

    // The same message, at another bit.
    pub fn at(self, bit: usize) -> Reader<'a>
        ensures { (result.octets ≡ self.entry.octets) × (result.bit ≡ bit) }
    {
        Reader {
            octets: self.octets,
            bit,
        }
    }

    // The field at the bit reached.
    pub fn field(self, kind: u8) -> Result<Got, Refusal>
        ensures { FieldAt self.entry.octets.now self.entry.bit (field_of kind) result }
    {
        field_at(self.octets, self.bit, kind)
    }

    // The octets that no bit before the one reached is in.
    pub fn octets_left(self) -> usize
        ensures { result ≡ length (behind self.entry.octets.now self.entry.bit) }
    {
        left_behind(self.octets, self.bit)
    }

    // A field is read at the bit reached, and the reader moves on; where it is refused, the reader stays.
    pub fn advance(&mut self, kind: u8) -> Result<Got, Refusal>
        ensures { Steps self.old.octets.now self.old.bit (field_of kind) result self.new.bit × (self.new.octets ≡ self.old.octets) }
    {
        let g = field_at(self.octets, self.bit, kind)?;
        self.bit = g.next;
        Ok(g)
    }
}

// A field at a bit of a message, by way of a reader.
pub fn field_of(s: &[u8], bit: usize, kind: u8) -> Result<Got, Refusal>
    ensures { FieldAt s.now bit (field_of kind) result }
{
    Reader::new(s).at(bit).field(kind)
}
