// What every request does: it sends its records whole or not at all.
#![tactic(auto)]

pub mod confirms;

ghost use Rattle.std.specs.Prelude.{◌≡◌, eqb};
ghost use Rattle.out_records.specs.Records.{record_of};
ghost use Rattle.out_records.specs.Out.{guarded, told};
ghost use Rattle.domain.specs.Numbers.{reply_number};
ghost use Rattle.domain.specs.Effects.{answered};
ghost use Rattle.serve_reply.specs.Whole.{unanswered, whole};

use domain::answer::Answer;
use domain::numbers::Reply;

// A request is ignored.
pub fn ignored() -> Answer
    ensures { result ≡ unanswered }
{
    Answer {
        reply: Reply::Ignored,
        sent: 0,
    }
}

// Nothing was sent, for want of room.
pub fn refused(a: Answer) -> bool
    ensures { result ≡ eqb (reply_number a.reply) 9 }
{
    a.reply == Reply::NoRoom
}

// A message to p, where there is room for its record.
pub fn confirm(out: &mut [u8], p: u8, m: &[u8]) -> Answer
    ensures { answered {A = Unit {0}} result tt out.new ≡ whole (guarded 0 m.now (record_of m.now p)) out.old }
{
    let total = out_records::record_size(m);
    if out.len() < total {
        return Answer {
            reply: Reply::NoRoom,
            sent: 0,
        };
    }
    out_records::put_record(out, p, m);
    Answer {
        reply: Reply::Done,
        sent: total,
    }
}

// A message to each connection of a mask, where there is room for all its records.
pub fn tell(out: &mut [u8], mask: u16, m: &[u8]) -> Answer
    ensures { answered {A = Unit {0}} result tt out.new ≡ whole (guarded 0 m.now (told mask m.now)) out.old }
{
    let total = out_records::told_size(mask, m);
    if out.len() < total {
        return Answer {
            reply: Reply::NoRoom,
            sent: 0,
        };
    }
    out_records::tell(out, 0, mask, m);
    Answer {
        reply: Reply::Done,
        sent: total,
    }
}
