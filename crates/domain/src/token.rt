// One token as its columns hold it, and its state.
ghost use Rattle.std.specs.Prelude.{◌≡◌};
ghost use Rattle.domain.specs.Cells.{hold, token_of};

// As its columns hold it: mode 1 grabbed, 2 inhibited, 3 giving, 4 given; the value is the user, the inhibitors, or giver * 64 + recipient.
#[derive(Clone, Copy)]
pub struct Token {
    pub mode: u8,
    pub value: u64,
}

#[derive(Clone, Copy)]
pub enum Holding {
    Free,
    Grabbed(u8),
    Inhibited(u64),
    Giving(u8, u8),
    Given(u8),
}

impl From<Token> for Holding {
    ghost from_gives = { λ t h. h ≡ hold t };

    #[tactic(auto, unfolding(crate::specs::Cells::hold))]
    fn from(t: Token) -> Holding {
        match t.mode {
            1 => Holding::Grabbed((t.value % 64) as u8),
            2 => Holding::Inhibited(t.value),
            3 => Holding::Giving((t.value / 64 % 64) as u8, (t.value % 64) as u8),
            4 => Holding::Given((t.value % 64) as u8),
            _ => Holding::Free,
        }
    }
}

impl From<Holding> for Token {
    ghost from_gives = { λ h t. t ≡ token_of h };

    #[tactic(auto, unfolding(crate::specs::Cells::token_of))]
    fn from(h: Holding) -> Token {
        match h {
            Holding::Free => Token { mode: 0, value: 0 },
            Holding::Grabbed(g) => Token {
                mode: 1,
                value: u64::from(g),
            },
            Holding::Inhibited(us) => Token { mode: 2, value: us },
            Holding::Giving(g, r) => Token {
                mode: 3,
                value: u64::from(g) * 64 + u64::from(r),
            },
            Holding::Given(r) => Token {
                mode: 4,
                value: u64::from(r),
            },
        }
    }
}
