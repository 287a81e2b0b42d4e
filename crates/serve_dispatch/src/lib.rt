// A request on an open connection, by its number, on a domain with any contents. Those about tokens are in `serve_tokens`.
#![tactic(auto)]

ghost use Rattle.std.specs.Prelude.{◌≡◌, take};
ghost use Rattle.domain.specs.Tables.{grant};
ghost use Rattle.domain.specs.Effects.{answered, settle};
ghost use Rattle.domain.specs.Events.{act};
ghost use Rattle.domain_tables.specs.Held.{domain_in};
ghost use Rattle.serve_read.specs.Requests.{brief_request, listed_request};

use domain::answer::Answer;
use domain::numbers::Reply;
use domain_tables::Domain;
use serve_leave::Departure;
use serve_private::Say;

// The requests of a few ids that are not about tokens: AUrq, CJrq, CCrq, CDrq.
#[tactic(auto, unfolding(serve_read::specs::Requests::brief_request))]
pub fn brief_request(
    d: &mut Domain,
    p: u8,
    number: u32,
    first: u16,
    second: u16,
    out: &mut [u8],
) -> Answer
    ensures { answered result (domain_in d.new) out.new
        ≡ settle (domain_in d.old) (act (grant (domain_in d.old).channels) (domain_in d.old) p (brief_request number first second)) out.old }
{
    match number {
        10 => serve_channels::attach(d, p, out),
        14 => serve_channels::join(d, p, first, second, out),
        17 => serve_private::convene(d, p, first, out),
        _ => serve_private::disband(d, p, first, second, out),
    }
}

// The requests with a list of ids, and EDrq, DPum and RJum. All but DUrq that leave close; the list lent is worked in.
pub fn listed_request(
    d: &mut Domain,
    p: u8,
    number: u32,
    first: u16,
    second: u16,
    listed: &mut [u16; 64],
    count: usize,
    out: &mut [u8],
) -> Answer
    ensures { answered result (domain_in d.new) out.new
        ≡ settle (domain_in d.old) (act (grant (domain_in d.old).channels) (domain_in d.old) p (listed_request number first second (take count listed.old))) out.old }
{
    let n = usize::min(count, 64);
    match number {
        1 => Answer {
            reply: Reply::Done,
            sent: 0,
        },
        16 => serve_channels::leave_channels(d, p, &listed[..n], out),
        21 | 23 => {
            let s = if number == 21 {
                Say::Admits(first, second)
            } else {
                Say::Expels(first, second)
            };
            serve_private::revise(d, p, s, &mut listed[..n], out)
        }
        _ => {
            let is_detach = number == 12;
            let departure = if is_detach {
                Departure::Detaches((first % 8) as u8)
            } else {
                Departure::Closes
            };
            serve_leave::depart(d, p, departure, listed, count, out)
        }
    }
}
