// Answers that need no table: whether a connection is open, and how a message is refused.
#![tactic(auto)]

ghost use Rattle.std.specs.Prelude.{◌≡◌, not, ◌||◌, [], ◌∷◌, ltb, take};
ghost use Rattle.cols_spec.specs.Sets.{has as has_in};
ghost use Rattle.codec_table.specs.Named.{RJum};
ghost use Rattle.out_records.specs.Records.{to};
ghost use Rattle.domain.specs.Numbers.{diagnostic_number, reply_number};
ghost use Rattle.domain.specs.Tables.{Domain};
ghost use Rattle.domain.specs.Effects.{answered, delivers};
ghost use Rattle.domain.specs.Events.{complaint};

use domain::answer::Answer;
use domain::numbers::{Diagnostic, Reply};

// Connection p is open.
pub fn is_open(links: u16, p: u8) -> bool
    ensures { result ≡ not (ltb 15 p || not (has_in links p)) }
{
    p <= 15 && cols_masks::has(links as u64, p)
}

// A refusal: bad encoding and what may not go up are answered by an RJum, all else by nothing.
pub fn refuse(p: u8, reply: Reply, octets: &[u8], out: &mut [u8]) -> Answer
    ensures { (d : Domain) → answered result d out.new
        ≡ delivers (reply_number reply) d d (complaint (reply_number reply) p octets.now) out.old }
{
    match reply {
        Reply::BadEncoding => reject(p, reply, Diagnostic::InvalidPer, octets, out),
        Reply::MayNotGoUp => reject(p, reply, Diagnostic::ForbiddenUpward, octets, out),
        _ => Answer { reply, sent: 0 },
    }
}

// An RJum to p with the message's first octets, where there is room for it.
fn reject(p: u8, reply: Reply, diagnostic: Diagnostic, octets: &[u8], out: &mut [u8]) -> Answer
    ensures { (d : Domain) → answered result d out.new
        ≡ delivers (reply_number reply) d d (to p (RJum (diagnostic_number diagnostic) (take 16 octets.now)) ∷ []) out.old }
{
    let mut m = [0u8; 19];
    let n = out_records::lists::reject(&mut m, u8::from(diagnostic), octets);
    let total = n + 4;
    if out.len() < total {
        return Answer {
            reply: Reply::NoRoom,
            sent: 0,
        };
    }
    let sent = out_records::put_record(out, p, &m[..n]);
    Answer { reply, sent }
}
