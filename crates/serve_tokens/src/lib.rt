// Requests about tokens: TGrq, TIrq, TRrq, TVrq, TVrs, TPrq, TTrq. Each decides, refuses what has no room, then stores and sends.
#![tactic(auto)]

ghost use Rattle.std.specs.Prelude.{◌≡◌, ℕ, eqb, if◌then◌else◌};
ghost use Rattle.cols_spec.specs.Places.{At, find};
ghost use Rattle.domain.specs.Numbers.{reply_number};
ghost use Rattle.domain.specs.Tables.{Users as UserTable, Tokens as TokenTable, Domain as DomainTables, put_tokens, attached, state};
ghost use Rattle.domain.specs.Effects.{Effect, settle, answered, within};
ghost use Rattle.domain.specs.Passing.{please as please_of, test as test_of};
ghost use Rattle.domain.specs.Events.{act, tokens_full};
ghost use Rattle.domain_tables.specs.Held.{domain_in, users_in, tokens_in};
ghost use Rattle.domain_tables.specs.Numbered.{placed};
ghost use Rattle.serve_read.specs.Requests.{token_request};
ghost use Rattle.serve_token_rules.specs.Deeds.{Tells, Does, fated};
ghost use Rattle.serve_tokens.specs.Wanting.{wanted};

use domain::answer::Answer;
use domain::numbers::Reply;
use domain::token::Holding;
use domain_tables::{Domain, Tokens, Users};
use serve_token_rules::{Ask, Deed, Fate};

// What a request about a token wants: its status; that those who have it are told; or that it changes.
#[derive(Clone, Copy)]
enum Wanted {
    Test,
    Please,
    Change(Ask),
}

// What becomes of token k, which stands at a place or nowhere, is stored.
fn keep(tokens: &mut Tokens, at: Option<usize>, k: u16, fate: Fate)
    ensures { placed at ≡ find tokens.old.ids k → tokens_in tokens.new ≡ fated (tokens_in tokens.old) k fate }
{
    if let Fate::Turns(t) = fate {
        tokens.put_at(at, k, t);
    }
}

// Who is to be told of a deed is told, where there is room.
fn deliver(deed: Deed, out: &mut [u8]) -> Answer
    ensures { (before after : TokenTable) (e : Effect TokenTable) → Tells deed after e
        → answered result (if eqb (reply_number result.reply) 9 then before else after) out.new ≡ settle before e out.old }
{
    match deed.told {
        Some(told) => serve_reply::confirm(out, told.q, &told.m),
        None => Answer {
            reply: Reply::Done,
            sent: 0,
        },
    }
}

// A deed about token k is done: it is sent, or there is no room for it, and stored.
fn carry(tokens: &mut Tokens, at: Option<usize>, k: u16, deed: Deed, out: &mut [u8]) -> Answer
    requires { placed at ≡ find tokens.old.ids k }
    ensures { (e : Effect TokenTable) → Does (tokens_in tokens.old) k deed e
        → answered result (tokens_in tokens.new) out.new ≡ settle (tokens_in tokens.old) e out.old }
{
    if let Fate::Ignored = deed.fate {
        return Answer {
            reply: Reply::Ignored,
            sent: 0,
        };
    }
    let a = deliver(deed, out);
    if a.reply == Reply::NoRoom {
        return a;
    }
    keep(tokens, at, k, deed.fate);
    a
}

// TTrq by u on p, at place i, for token k in state h.
fn test(p: u8, u: u16, i: u8, k: u16, h: Holding, out: &mut [u8]) -> Answer
    ensures { (us : UserTable) (ts : TokenTable) → h ≡ state ts k → attached us p u ≡ At i
        → answered result ts out.new ≡ settle ts (test_of us ts p u k) out.old }
{
    let status = u8::from(domain_state::token::status(h, i));
    let m = out_messages::test_confirm(u, k, status);
    serve_reply::confirm(out, p, &m)
}

// TPrq by u for token k in state h.
fn please(users: &Users, u: u16, k: u16, h: Holding, out: &mut [u8]) -> Answer
    ensures { let us = users_in users.now in
        ((ts : TokenTable) (p i : ℕ) → h ≡ state ts k → attached us p u ≡ At i
        → answered result ts out.new ≡ settle ts (please_of us ts p u k) out.old) }
{
    let mask = users.hosts(domain_state::token::party(h));
    let m = out_messages::please_indication(u, k);
    serve_reply::tell(out, mask, &m)
}

// What a request wants, by its number. `more` is the recipient of a TVrq, 33, or the result of a TVrs, 35.
#[tactic(auto, unfolding(serve_read::specs::Requests::token_request, serve_read::specs::Requests::pass_request, domain::specs::Events::act, domain::specs::Events::tokens_full))]
fn wanted_by(number: u32, more: u16) -> Wanted
    ensures { (u k new : ℕ) (d : DomainTables) (p : ℕ) → act new d p (token_request number u k more)
        ≡ within (put_tokens d) (wanted result (tokens_full d) d.users d.tokens p u k) }
{
    match number {
        29 => Wanted::Change(Ask::Grab),
        31 => Wanted::Change(Ask::Inhibit),
        33 => Wanted::Change(Ask::Offer(more)),
        35 => Wanted::Change(Ask::Answer((more % 16) as u8)),
        37 => Wanted::Please,
        41.. => Wanted::Test,
        _ => Wanted::Change(Ask::Release),
    }
}

// Each of these requests, by its number: the user and the token are sought, then it is told apart.
pub fn request(
    d: &mut Domain,
    p: u8,
    number: u32,
    u: u16,
    k: u16,
    more: u16,
    out: &mut [u8],
) -> Answer
    ensures { (new : ℕ) → answered result (domain_in d.new) out.new
        ≡ settle (domain_in d.old) (act new (domain_in d.old) p (token_request number u k more)) out.old }
{
    let Some(i) = d.users.attached(p, u) else {
        return Answer {
            reply: Reply::Ignored,
            sent: 0,
        };
    };
    let at = d.tokens.find(k);
    match wanted_by(number, more) {
        Wanted::Test => test(p, u, i, k, d.tokens.state_at(at), out),
        Wanted::Please => please(&d.users, u, k, d.tokens.state_at(at), out),
        Wanted::Change(ask) => {
            let most = d.limits.tokens;
            let deed = serve_token_rules::decide(&d.users, &d.tokens, most, p, u, i, k, at, ask);
            carry(&mut d.tokens, at, k, deed, out)
        }
    }
}
