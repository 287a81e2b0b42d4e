// The provider: every event on every connection of a domain, with any octets and any room for answers. Any contents of the domain are taken.
#![tactic(auto)]

ghost use Rattle.std.specs.Prelude.{◌≡◌, true, not, ◌||◌, ltb};
ghost use Rattle.cols_spec.specs.Sets.{has as has_in};
ghost use Rattle.codec_read_fast.specs.Shortly.{few_ids, NoneRead};
ghost use Rattle.domain.specs.Effects.{answered};
ghost use Rattle.domain.specs.Events.{loses, hears};
ghost use Rattle.domain.specs.Outcomes.{after};
ghost use Rattle.domain_tables.specs.Held.{domain_in};
ghost use Rattle.serve_read.specs.Understood.{understood};

use domain::answer::Answer;
use domain::numbers::Reply;
use domain_tables::Domain;

// Connection p is lost.
pub fn lose(d: &mut Domain, p: u8, out: &mut [u8]) -> Answer
    ensures { answered result (domain_in d.new) out.new ≡ after (domain_in d.old) (loses p) out.old }
{
    if !serve_refuse::is_open(d.links, p) {
        return Answer {
            reply: Reply::NotOpen,
            sent: 0,
        };
    }
    // A loss asks for what a DPum does.
    let number = 8;
    let mut listed = [0u16; 64];
    serve_dispatch::listed_request(d, p, number, 0, 0, &mut listed, 0, out)
}

// A message on connection p: any octets.
pub fn message(d: &mut Domain, p: u8, octets: &[u8], out: &mut [u8]) -> Answer
    ensures { answered result (domain_in d.new) out.new
        ≡ after (domain_in d.old) (hears p (understood octets.now)) out.old }
{
    if !serve_refuse::is_open(d.links, p) {
        return Answer {
            reply: Reply::NotOpen,
            sent: 0,
        };
    }
    if let Some(w) = codec_read_fast::tokens::read_token(octets) {
        return serve_tokens::request(d, p, w.number, w.user, w.token, w.more, out);
    }
    if let Some(q) = codec_read_fast::read_short(octets) {
        return serve_dispatch::brief_request(d, p, q.number, q.first, q.second, out);
    }
    long_message(d, p, octets, out)
}

// A message on an open connection that is not one of a few ids. A function of its own: the list that is lent, and all that works in it, lies on the
// stack for these messages alone.
#[inline(never)]
fn long_message(d: &mut Domain, p: u8, octets: &[u8], out: &mut [u8]) -> Answer
    requires in_use { not (ltb 15 p || not (has_in (domain_in d.old).links p)) ≡ true }
    requires not_brief { NoneRead few_ids octets.now }
    ensures { answered result (domain_in d.new) out.new
        ≡ after (domain_in d.old) (hears p (understood octets.now)) out.old }
{
    let mut listed = [0u16; 64];
    match serve_read::understand(octets, &mut listed) {
        Ok(q) => serve_dispatch::listed_request(
            d,
            p,
            q.number,
            q.first,
            q.second,
            &mut listed,
            q.count,
            out,
        ),
        Err(reply) => serve_refuse::refuse(p, reply, octets, out),
    }
}
