// What comes of a request about a token, decided on the tables as they are: nothing is stored yet, and nothing sent.
#![tactic(auto)]

ghost use Rattle.std.specs.Prelude.{◌≡◌, true, [], ◌∷◌, get_or, if◌then◌else◌};
ghost use Rattle.cols_spec.specs.Places.{At, Nowhere, find as find_in};
ghost use Rattle.codec_table.specs.Named.{TVin};
ghost use Rattle.out_records.specs.Records.{to, wire};
ghost use Rattle.out_messages.specs.Confirms.{confirm as confirm_of};
ghost use Rattle.domain.specs.Numbers.{result_number};
ghost use Rattle.domain.specs.Tokens.{turned_of, status as status_of, grabbed_by};
ghost use Rattle.domain.specs.Tables.{Tokens as TokenTable, attached, at_limit, is_free, state, set_token};
ghost use Rattle.domain.specs.Passing.{turn as turn_of, answer as answer_of, informed};
ghost use Rattle.domain.specs.Effects.{done};
ghost use Rattle.domain_tables.specs.Held.{users_in};
ghost use Rattle.domain_tables.specs.Numbered.{placed};
ghost use Rattle.serve_token_rules.specs.Deeds.{Does, asked};
ghost use Rattle.serve_token_rules.specs.Attempts.{refusal, standing, attempted, kind_of};

use domain::numbers;
use domain::token::{Holding, Token};
use domain_tables::{Tokens, Users};
use out_messages::Confirm;

// What is asked for: the token for one user alone, or together with others; its end; that it goes to a user; and what that user answers.
#[derive(Clone, Copy)]
pub enum Ask {
    Grab,
    Inhibit,
    Release,
    Offer(u16),
    Answer(u8),
}

// The request is ignored, or the token stays as it is, or turns to a state, whose cell this is.
#[derive(Clone, Copy)]
pub enum Fate {
    Ignored,
    Stays,
    Turns(Token),
}

// The connection that is told, and the octets of its message.
#[derive(Clone, Copy)]
pub struct Told {
    pub q: u8,
    pub m: [u8; 7],
}

// What is done: what becomes of the token, and who is told of it, if anybody is.
#[derive(Clone, Copy)]
pub struct Deed {
    pub fate: Fate,
    pub told: Option<Told>,
}

// Where the token is free, whether the limit is reached: the table is counted for no other.
fn full_for(h: Holding, limit: u8, tokens: &Tokens) -> bool
    ensures { is_free h ≡ true → result ≡ at_limit limit tokens.now.ids }
{
    if domain_state::token::free(h) {
        return domain_tables::at_limit(limit, &tokens.ids);
    }
    false
}

// The octets of a confirm, with the status of h for the user at place i.
fn confirm(kind: Confirm, res: u8, user: u16, token: u16, h: Holding, i: u8) -> [u8; 7]
    ensures { result ≡ wire (confirm_of kind res user token (status_of h i)) }
{
    let status = u8::from(domain_state::token::status(h, i));
    out_messages::token_confirm(kind, res, user, token, status)
}

// What a request by u, at place i, makes of token k in state h is confirmed to p.
fn turned(
    kind: Confirm,
    p: u8,
    u: u16,
    i: u8,
    k: u16,
    h: Holding,
    t: Result<Holding, numbers::Result>,
) -> Deed
    ensures { (ts : TokenTable) → h ≡ state ts k → Does ts k result (turn_of ts p u i k (confirm_of kind) (turned_of t)) }
{
    match t {
        Ok(after) => Deed {
            fate: Fate::Turns(Token::from(after)),
            told: Some(Told {
                q: p,
                m: confirm(kind, 0, u, k, after, i),
            }),
        },
        Err(why) => Deed {
            fate: Fate::Stays,
            told: Some(Told {
                q: p,
                m: confirm(kind, u8::from(why), u, k, h, i),
            }),
        },
    }
}

// The place of the recipient of an offer of a token in state h by the user at place i, who must have grabbed it.
fn recipient_at(users: &Users, h: Holding, i: u8, recipient: u16) -> Option<u8>
    ensures { placed result ≡ (if grabbed_by h i then find_in users.now.ids recipient else Nowhere) }
{
    if !domain_state::token::has_grabbed(h, i) {
        return None;
    }
    let j = cols_find::find(&users.ids, recipient);
    if j < 64 { Some(j as u8) } else { None }
}

// Token k is being given by u, at place i, to the recipient at place j, who is told.
fn given(users: &Users, u: u16, i: u8, k: u16, j: u8, recipient: u16) -> Deed
    ensures { (ts : TokenTable) → Does ts k result (done (set_token ts k (Holding.Giving i j)) (to (get_or users.now.links j 16) (TVin u k recipient) ∷ [])) }
{
    Deed {
        fate: Fate::Turns(Token::from(Holding::Giving(i, j))),
        told: Some(Told {
            q: users.link(j),
            m: out_messages::give_indication(u, k, recipient),
        }),
    }
}

// What a request that is confirmed to its asker makes of a token, the state that it was in, and the confirm's kind.
#[derive(Clone, Copy)]
struct Outcome {
    kind: Confirm,
    before: Holding,
    turned: Result<Holding, numbers::Result>,
}

// Why an offer by the user at place i, of a token in state h, is not passed on.
fn offer_fails(h: Holding, i: u8) -> numbers::Result
    ensures { result_number result ≡ refusal h i }
{
    if domain_state::token::has_grabbed(h, i) {
        return numbers::Result::NoSuchUser;
    }
    numbers::Result::TokenNotPossessed
}

// Any request but an answer, by the user at place i, for the token at a place or nowhere; an offer is one that is not passed on. The state is made
// out behind the request: so the two are told apart by one jump each.
fn attempt(tokens: &Tokens, at: Option<usize>, limit: u8, i: u8, ask: Ask) -> Outcome
    ensures { (result.kind ≡ kind_of ask) × (result.before ≡ standing tokens.now at)
        × (turned_of result.turned ≡ attempted ask (at_limit limit tokens.now.ids) result.before i) }
{
    match ask {
        Ask::Grab => {
            let h = tokens.state_at(at);
            Outcome {
                kind: Confirm::Grab,
                before: h,
                turned: domain_state::token::grab(full_for(h, limit, tokens), h, i),
            }
        }
        Ask::Inhibit => {
            let h = tokens.state_at(at);
            Outcome {
                kind: Confirm::Inhibit,
                before: h,
                turned: domain_state::token::inhibit(full_for(h, limit, tokens), h, i),
            }
        }
        Ask::Release => {
            let h = tokens.state_at(at);
            Outcome {
                kind: Confirm::Release,
                before: h,
                turned: domain_state::token::release(h, i),
            }
        }
        _ => {
            let h = tokens.state_at(at);
            Outcome {
                kind: Confirm::Give,
                before: h,
                turned: Err(offer_fails(h, i)),
            }
        }
    }
}

// Token k, which was in state h, is then in another; a giver is told the result.
fn concluded(users: &Users, res: u8, k: u16, h: Holding, next: Holding) -> Deed
    ensures { (ts : TokenTable) → Does ts k result (done (set_token ts k next) (informed (users_in users.now) res k h next)) }
{
    let fate = Fate::Turns(Token::from(next));
    if let Holding::Giving(g, _) = h {
        return Deed {
            fate,
            told: Some(Told {
                q: users.link(g),
                m: confirm(Confirm::Give, res, users.name(g), k, next, g),
            }),
        };
    }
    Deed { fate, told: None }
}

// TVrs by the user at place i for token k in state h: any result but 0 declines.
fn answer_offer(users: &Users, p: u8, u: u16, i: u8, k: u16, h: Holding, res: u8) -> Deed
    ensures { let us = users_in users.now in
        ((ts : TokenTable) → h ≡ state ts k → attached us p u ≡ At i → Does ts k result (answer_of us ts p res u k)) }
{
    if domain_state::token::is_offered(h, i) {
        let next = domain_state::token::responded(res == 0, h, i);
        return concluded(users, res, k, h, next);
    }
    Deed {
        fate: Fate::Ignored,
        told: None,
    }
}

// What comes of a request by u on p, at place i, for token k, which stands at a place or nowhere.
pub fn decide(
    users: &Users,
    tokens: &Tokens,
    limit: u8,
    p: u8,
    u: u16,
    i: u8,
    k: u16,
    at: Option<usize>,
    ask: Ask,
) -> Deed
    ensures { let us = users_in users.now in
        ((ts : TokenTable) → standing tokens.now at ≡ state ts k → attached us p u ≡ At i
        → Does ts k result (asked ask (at_limit limit tokens.now.ids) us ts p u k)) }
{
    if let Ask::Answer(result) = ask {
        return answer_offer(users, p, u, i, k, tokens.state_at(at), result);
    }
    if let Ask::Offer(recipient) = ask {
        if let Some(j) = recipient_at(users, tokens.state_at(at), i, recipient) {
            return given(users, u, i, k, j, recipient);
        }
    }
    let t = attempt(tokens, at, limit, i, ask);
    turned(t.kind, p, u, i, k, t.before, t.turned)
}
