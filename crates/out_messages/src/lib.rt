// The messages of a fixed length that a top provider sends, as their octets by value; and what stands before the users in a record that lists them.
#![tactic(auto)]

ghost use Rattle.std.specs.Prelude.{◌≡◌, List, ◌++◌, ℕ, ◌-◌, ◌/◌, ◌%◌, ◌≤◌, length};
ghost use Rattle.std.proofs.Math.Option.{none, some};
ghost use Rattle.codec_table.specs.Limits.{list_limit};
ghost use Rattle.codec_table.specs.Named.{successful, AUcf, CJcf, CCcf, CDin, TTcf, TVin, TPin, CAin, CEin};
ghost use Rattle.out_records.specs.Records.{wire, record_of};
ghost use Rattle.out_records.specs.Out.{each_two};
ghost use Rattle.out_messages.specs.Confirms.{confirm, number};

use out_records::id_octets;

#[derive(Clone, Copy)]
pub enum Confirm {
    Grab,
    Inhibit,
    Give,
    Release,
}

impl From<Confirm> for u8 {
    ghost from_gives = { λ kind n. n ≡ number kind };

    fn from(kind: Confirm) -> u8 {
        match kind {
            Confirm::Grab => 30,
            Confirm::Inhibit => 32,
            Confirm::Give => 36,
            Confirm::Release => 40,
        }
    }
}

// TGcf, TIcf, TVcf, TRcf.
#[tactic(auto, using(crate::proofs::Confirming::wire_confirm, crate::proofs::Confirming::number_most))]
pub fn token_confirm(kind: Confirm, res: u8, user: u16, token: u16, status: u8) -> [u8; 7]
    ensures { result ≡ wire (confirm kind res user token status) }
{
    let first = u8::from(kind) * 4 + res / 4;
    let user = id_octets(user, 1001);
    let token = id_octets(token, 1);
    [
        first,
        res % 4 * 64,
        user[0],
        user[1],
        token[0],
        token[1],
        status % 8 * 32,
    ]
}

#[tactic(auto, using(out_records::proofs::Wire::wire_TTcf))]
pub fn test_confirm(user: u16, token: u16, status: u8) -> [u8; 6]
    ensures { result ≡ wire (TTcf user token status) }
{
    let user = id_octets(user, 1001);
    let token = id_octets(token, 1);
    [168, user[0], user[1], token[0], token[1], status % 8 * 32]
}

#[tactic(auto, using(out_records::proofs::Wire::wire_TVin))]
pub fn give_indication(giver: u16, token: u16, recipient: u16) -> [u8; 7]
    ensures { result ≡ wire (TVin giver token recipient) }
{
    let giver = id_octets(giver, 1001);
    let token = id_octets(token, 1);
    let recipient = id_octets(recipient, 1001);
    [
        136,
        giver[0],
        giver[1],
        token[0],
        token[1],
        recipient[0],
        recipient[1],
    ]
}

#[tactic(auto, using(out_records::proofs::Wire::wire_TPin))]
pub fn please_indication(user: u16, token: u16) -> [u8; 5]
    ensures { result ≡ wire (TPin user token) }
{
    let user = id_octets(user, 1001);
    let token = id_octets(token, 1);
    [152, user[0], user[1], token[0], token[1]]
}

#[tactic(auto, using(out_records::proofs::Wire::wire_AUcf))]
pub fn attach_confirm(user: u16) -> [u8; 4]
    ensures { result ≡ wire (AUcf successful (some user)) }
{
    let user = id_octets(user, 1001);
    [46, 0, user[0], user[1]]
}

#[tactic(auto, using(out_records::proofs::Wire::wire_no_user))]
pub fn attach_refusal(res: u8) -> [u8; 2]
    ensures { result ≡ wire (AUcf res none) }
{
    [44 + res / 8, res % 8 * 32]
}

#[tactic(auto, using(out_records::proofs::Wire::wire_CJcf))]
pub fn join_confirm(user: u16, asked: u16, channel: u16) -> [u8; 8]
    ensures { result ≡ wire (CJcf successful user asked (some channel)) }
{
    let user = id_octets(user, 1001);
    let asked = id_octets(asked, 0);
    let channel = id_octets(channel, 0);
    [
        62, 0, user[0], user[1], asked[0], asked[1], channel[0], channel[1],
    ]
}

#[tactic(auto, using(out_records::proofs::Wire::wire_no_join))]
pub fn join_refusal(res: u8, user: u16, asked: u16) -> [u8; 6]
    ensures { result ≡ wire (CJcf res user asked none) }
{
    let user = id_octets(user, 1001);
    let asked = id_octets(asked, 0);
    [
        60 + res / 8,
        res % 8 * 32,
        user[0],
        user[1],
        asked[0],
        asked[1],
    ]
}

#[tactic(auto, using(out_records::proofs::Wire::wire_CCcf))]
pub fn convene_confirm(user: u16, channel: u16) -> [u8; 6]
    ensures { result ≡ wire (CCcf successful user (some channel)) }
{
    let user = id_octets(user, 1001);
    let channel = id_octets(channel, 1001);
    [74, 0, user[0], user[1], channel[0], channel[1]]
}

#[tactic(auto, using(out_records::proofs::Wire::wire_no_channel))]
pub fn convene_refusal(res: u8, user: u16) -> [u8; 4]
    ensures { result ≡ wire (CCcf res user none) }
{
    let user = id_octets(user, 1001);
    [72 + res / 8, res % 8 * 32, user[0], user[1]]
}

#[tactic(auto, using(out_records::proofs::Wire::wire_CDin))]
pub fn disband_indication(channel: u16) -> [u8; 3]
    ensures { result ≡ wire (CDin channel) }
{
    let channel = id_octets(channel, 1001);
    [80, channel[0], channel[1]]
}

// What stands before the users in the record of a CAin, or a CEin, of so many users to connection q.
#[tactic(auto, using(out_records::proofs::Wire::start_CAin))]
pub fn admit_start(q: u8, manager: u16, channel: u16, count: u8) -> [u8; 10]
    ensures { (ids : List ℕ) → length ids ≡ count → length ids ≤ list_limit → record_of (wire (CAin manager channel ids)) q ≡ result ++ each_two 1001 ids }
{
    let size = (count as u16 * 2 + 8).to_be_bytes();
    let manager = id_octets(manager, 1001);
    let channel = id_octets(channel, 1001);
    [
        size[0], size[1], 1, q, 88, manager[0], manager[1], channel[0], channel[1], count,
    ]
}

#[tactic(auto, using(out_records::proofs::Wire::start_CEin))]
pub fn expel_start(q: u8, channel: u16, count: u8) -> [u8; 8]
    ensures { (ids : List ℕ) → length ids ≡ count → length ids ≤ list_limit → record_of (wire (CEin channel ids)) q ≡ result ++ each_two 1001 ids }
{
    let size = (count as u16 * 2 + 6).to_be_bytes();
    let channel = id_octets(channel, 1001);
    [size[0], size[1], 1, q, 96, channel[0], channel[1], count]
}
