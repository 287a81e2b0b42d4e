// The tokens once some users have left.
ghost use Rattle.std.specs.Prelude.{◌≡◌};
ghost use Rattle.domain.specs.Tables.{sweep_tokens};
ghost use Rattle.domain.specs.Tokens.{lose};
ghost use Rattle.domain_tables.specs.Held.{tokens_in};

use domain::token::Token;
use domain_tables::Tokens;

// The users at the places of a mask leave; a token that is free then has no place.
pub fn leave(tokens: &mut Tokens, gone: u64)
    ensures { tokens_in tokens.new ≡ sweep_tokens (lose gone) (tokens_in tokens.old) }
{
    let mut j = cols_walk::used_from(&tokens.ids, 0);
    while j < 64 {
        let k = tokens.ids[j];
        let h = domain_state::token::lose(gone, tokens.state_at(Some(j)));
        tokens.put_at(Some(j), k, Token::from(h));
        j = cols_walk::used_from(&tokens.ids, j + 1);
    }
}
