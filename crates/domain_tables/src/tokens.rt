// Tokens: the id and state of each place.
ghost use Rattle.std.specs.Prelude.{◌≡◌, get_or, set};
ghost use Rattle.cols_spec.specs.Places.{load, find as find_in};
ghost use Rattle.domain_tables.specs.Held.{token_cells_in, tokens_in};
ghost use Rattle.domain_tables.specs.Numbered.{placed, set_at};
ghost use Rattle.domain.specs.Cells.{hold, no_token};
ghost use Rattle.domain.specs.Tables.{state as state_in};

use domain::token::{Holding, Token};

#[repr(C)]
#[derive(Clone, Copy)]
pub struct Tokens {
    pub ids: [u16; 64],
    pub states: [u8; 64],
    pub values: [u64; 64],
}

impl Tokens {
    // The place of token k.
    pub fn find(&self, k: u16) -> Option<usize>
        ensures { placed result ≡ find_in self.now.ids k }
    {
        let i = cols_find::find(&self.ids, k);
        if i < 64 { Some(i) } else { None }
    }

    // The state of the token at a place; at none, or where there is no such place, it is free.
    pub fn state_at(&self, place: Option<usize>) -> Holding
        ensures { result ≡ hold (load (token_cells_in self.now) (placed place) no_token) }
    {
        match place {
            Some(i) => self.held_at(i),
            None => Holding::Free,
        }
    }

    fn held_at(&self, i: usize) -> Holding
        ensures { result ≡ hold (get_or (token_cells_in self.now) i no_token) }
    {
        if i < 64 {
            return Holding::from(Token {
                mode: self.states[i],
                value: self.values[i],
            });
        }
        Holding::Free
    }

    // The state of token k.
    pub fn state(&self, k: u16) -> Holding
        ensures { result ≡ state_in (tokens_in self.now) k }
    {
        self.state_at(self.find(k))
    }

    // Token k, which stands at a place or nowhere, has this cell; a free token, whose mode is 0, has no place.
    pub fn put_at(&mut self, place: Option<usize>, k: u16, t: Token)
        ensures { tokens_in self.new ≡ set_at (tokens_in self.old) (placed place) k t }
    {
        if t.mode == 0 {
            if let Some(i) = place {
                self.store(i, 0, t);
            }
            return;
        }
        let j = match place {
            Some(i) => i,
            None => cols_find::spare(&self.ids),
        };
        self.store(j, k, t);
    }

    // An id and its state at place i; where there is no such place nothing changes.
    fn store(&mut self, i: usize, id: u16, t: Token)
        ensures ids { self.new.ids ≡ set self.old.ids i id }
        ensures cells { token_cells_in self.new ≡ set (token_cells_in self.old) i t }
    {
        if i < 64 {
            self.ids[i] = id;
            self.states[i] = t.mode;
            self.values[i] = t.value;
        }
    }
}
