// Who holds or is offered which token: the changes that a frame made, and the table.
#![tactic(auto)]

ghost use Rattle.std.specs.Prelude.{◌≡◌, ◌∷◌, ◌<◌, get_or};
ghost use Rattle.cols_spec.specs.Sets.{has};
ghost use Rattle.cols_spec.specs.Places.{in_order};
ghost use Rattle.domain_tables.specs.Held.{tokens_in};
ghost use Rattle.trace_io.specs.Waiting.{SaysTo};
ghost use Rattle.explain_message.specs.Messages.{id_texts};
ghost use Rattle.explain_tokens.specs.Holders.{over, picked_from, holding_texts, token_texts, state_texts, changed_at, changed_ids, change_texts, table_texts};

use domain::token::Holding;
use domain_tables::{Tokens, Users};
use trace_io::lines::Lines;

// The ids of a column, ascending, each behind a space.
fn put_rising<const N: usize>(lines: &mut Lines<N>, ids: &[u16])
    ensures { SaysTo lines.old (over id_texts (in_order ids.now)) lines.new }
{
    let mut low: u16 = 0;
    for _ in 0..ids.len() {
        let k = cols_walk::next(ids, low);
        if k == 0 {
            return;
        }
        explain_message::message::put_id(lines, k);
        low = k;
    }
}

// The ids of the users at the places of a set.
fn members(users: &Users, us: u64) -> [u16; 64]
    ensures { result ≡ picked_from (has us) 0 users.now.ids }
{
    let mut ids = [0u16; 64];
    for i in 0..64 {
        ids[i] = cols_find::if_so(cols_masks::has(us, i as u8), users.ids[i]);
    }
    ids
}

// A user's id behind a text.
fn put_user<const N: usize>(lines: &mut Lines<N>, text: &[u8], users: &Users, i: u8)
    ensures { SaysTo lines.old (text.now ∷ id_texts (get_or users.now.ids i 0)) lines.new }
{
    lines.say(text);
    explain_message::message::put_id(lines, users.name(i));
}

// The state of a token.
fn put_holding<const N: usize>(lines: &mut Lines<N>, users: &Users, h: Holding)
    ensures { SaysTo lines.old (holding_texts users.now.ids h) lines.new }
{
    match h {
        Holding::Free => lines.say(b"free"),
        Holding::Grabbed(g) => put_user(lines, b"grabbed by", users, g),
        Holding::Inhibited(us) => {
            lines.say(b"inhibited by");
            put_rising(lines, &members(users, us));
        }
        Holding::Giving(g, r) => {
            put_user(lines, b"giving from", users, g);
            put_user(lines, b" to", users, r);
        }
        Holding::Given(r) => put_user(lines, b"given to", users, r),
    }
}

// A token's line.
fn put_token<const N: usize>(lines: &mut Lines<N>, users: &Users, k: u16, h: Holding)
    ensures { SaysTo lines.old (token_texts users.now.ids k h) lines.new }
{
    lines.say(b"  token ");
    lines.say_number(u64::from(k));
    lines.say(b": ");
    put_holding(lines, users, h);
    lines.say(b"\n");
}

// A line for each token of a list, ascending.
fn put_tokens<const N: usize>(lines: &mut Lines<N>, users: &Users, tokens: &Tokens, list: &[u16])
    ensures { SaysTo lines.old (over (state_texts users.now.ids (tokens_in tokens.now)) (in_order list.now)) lines.new }
{
    let mut low: u16 = 0;
    for _ in 0..list.len() {
        let k = cols_walk::next(list, low);
        if k == 0 {
            return;
        }
        put_token(lines, users, k, tokens.state(k));
        low = k;
    }
}

// The numbers at a place are others in two tables.
fn differs(old: &Tokens, tokens: &Tokens, i: usize) -> bool
    requires { i < 64 }
    ensures { result ≡ changed_at (tokens_in old.now) (tokens_in tokens.now) i }
{
    (old.ids[i] != tokens.ids[i])
        | (old.states[i] != tokens.states[i])
        | (old.values[i] != tokens.values[i])
}

// The ids of the places that changed since, before and after.
fn changes(old: &Tokens, tokens: &Tokens) -> [u16; 128]
    ensures { result ≡ changed_ids (tokens_in old.now) (tokens_in tokens.now) }
{
    let mut list = [0u16; 128];
    for i in 0..64 {
        let told = differs(old, tokens, i);
        list[i] = cols_find::if_so(told, old.ids[i]);
        list[64 + i] = cols_find::if_so(told, tokens.ids[i]);
    }
    list
}

// A line for each token that changed since, ascending; the table before becomes the one after.
pub fn put_changes<const N: usize>(
    lines: &mut Lines<N>,
    users: &Users,
    tokens: &Tokens,
    old: &mut Tokens,
)
    ensures { SaysTo lines.old (change_texts users.now.ids (tokens_in old.old) (tokens_in tokens.now)) lines.new
        × (old.new ≡ tokens.now) }
{
    let list = changes(old, tokens);
    old.ids.copy_from_slice(&tokens.ids);
    old.states.copy_from_slice(&tokens.states);
    old.values.copy_from_slice(&tokens.values);
    put_tokens(lines, users, tokens, &list);
}

// The table: how many tokens are in use, and a line for each.
pub fn put_table<const N: usize>(lines: &mut Lines<N>, users: &Users, tokens: &Tokens)
    ensures { SaysTo lines.old (table_texts users.now.ids (tokens_in tokens.now)) lines.new }
{
    lines.say(b"tokens in use: ");
    lines.say_number(cols_find::used(&tokens.ids) as u64);
    lines.say(b"\n");
    put_tokens(lines, users, tokens, &tokens.ids);
}
