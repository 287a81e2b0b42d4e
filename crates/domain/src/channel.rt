// A channel's place.
ghost use Rattle.std.specs.Prelude.{◌≡◌};
ghost use Rattle.domain.specs.Cells.{kind};

// As its columns hold it: role 1 static, 2 user id, 3 private, 4 assigned; of a private one the manager's place and the admitted users; the
// connections joined.
#[derive(Clone, Copy)]
pub struct Channel {
    pub role: u8,
    pub chair: u8,
    pub guests: u64,
    pub marks: u16,
}

#[derive(Clone, Copy)]
pub enum Kind {
    Static,
    User,
    Private(u8, u64),
    Assigned,
}

impl From<Channel> for Kind {
    ghost from_gives = { λ ch k. k ≡ kind ch };

    #[tactic(auto, unfolding(crate::specs::Cells::kind))]
    fn from(ch: Channel) -> Kind {
        match ch.role {
            2 => Kind::User,
            3 => Kind::Private(ch.chair, ch.guests),
            4 => Kind::Assigned,
            _ => Kind::Static,
        }
    }
}
