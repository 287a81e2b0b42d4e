// One token: its state, its status for a user, and what a request by the user at place u makes of it.
ghost use Rattle.std.specs.Prelude.{◌≡◌};
ghost use Rattle.domain.specs.Tables.{is_free};
ghost use Rattle.domain.specs.Tokens.{status as status_of, grab as grab_of, inhibit as inhibit_of, release as release_of, grabbed_by, offered_to, responded as answered_of, party as party_of, lose as lose_of, lose_offer, inhibited as inhibited_of, turned_of};
ghost use Rattle.domain.specs.Numbers.{status_number};

use cols_masks::Mask;
use domain::numbers;
use domain::numbers::Status;
use domain::token::Holding;

#[tactic(auto, unfolding(domain::specs::Tables::is_free))]
pub fn free(h: Holding) -> bool
    ensures { result ≡ is_free h }
{
    matches!(h, Holding::Free)
}

#[tactic(auto, unfolding(domain::specs::Tokens::status))]
pub fn status(h: Holding, u: u8) -> Status
    ensures { status_number result ≡ status_of h u }
{
    match h {
        Holding::Free => Status::NotInUse,
        Holding::Grabbed(g) => if g == u {
            Status::SelfGrabbed
        } else {
            Status::OtherGrabbed
        },
        Holding::Inhibited(us) => if cols_masks::has(us, u) {
            Status::SelfInhibited
        } else {
            Status::OtherInhibited
        },
        Holding::Giving(g, r) => {
            if g == u {
                return Status::SelfGiving;
            }
            if r == u {
                Status::SelfRecipient
            } else {
                Status::OtherGiving
            }
        }
        Holding::Given(r) => if r == u {
            Status::SelfRecipient
        } else {
            Status::OtherGiving
        },
    }
}

// TGrq.
#[tactic(auto, unfolding(domain::specs::Tokens::grab))]
pub fn grab(full: bool, h: Holding, u: u8) -> Result<Holding, numbers::Result>
    ensures { turned_of result ≡ grab_of full h u }
{
    match h {
        Holding::Free => if full {
            Err(numbers::Result::TooManyTokens)
        } else {
            Ok(Holding::Grabbed(u))
        },
        Holding::Inhibited(us) => if us == u64::only(u) {
            Ok(Holding::Grabbed(u))
        } else {
            Err(numbers::Result::TokenNotAvailable)
        },
        Holding::Grabbed(_) | Holding::Giving(_, _) | Holding::Given(_) => Err(
            numbers::Result::TokenNotAvailable,
        ),
    }
}

// TIrq.
#[tactic(auto, unfolding(domain::specs::Tokens::inhibit))]
pub fn inhibit(full: bool, h: Holding, u: u8) -> Result<Holding, numbers::Result>
    ensures { turned_of result ≡ inhibit_of full h u }
{
    match h {
        Holding::Free => if full {
            Err(numbers::Result::TooManyTokens)
        } else {
            Ok(Holding::Inhibited(u64::only(u)))
        },
        Holding::Grabbed(g) => if g == u {
            Ok(Holding::Inhibited(u64::only(u)))
        } else {
            Err(numbers::Result::TokenNotAvailable)
        },
        Holding::Inhibited(us) => Ok(Holding::Inhibited(us.with(u))),
        Holding::Giving(_, _) | Holding::Given(_) => Err(numbers::Result::TokenNotAvailable),
    }
}

// TRrq.
#[tactic(auto, unfolding(domain::specs::Tokens::release))]
pub fn release(h: Holding, u: u8) -> Result<Holding, numbers::Result>
    ensures { turned_of result ≡ release_of h u }
{
    match h {
        Holding::Grabbed(g) => if g == u {
            Ok(Holding::Free)
        } else {
            Err(numbers::Result::TokenNotPossessed)
        },
        Holding::Inhibited(us) => if cols_masks::has(us, u) {
            Ok(inhibited(us.without(u)))
        } else {
            Err(numbers::Result::TokenNotPossessed)
        },
        Holding::Giving(g, r) => if g == u {
            Ok(Holding::Given(r))
        } else {
            Err(numbers::Result::TokenNotPossessed)
        },
        Holding::Free | Holding::Given(_) => Err(numbers::Result::TokenNotPossessed),
    }
}

// Inhibited by a set, free if it is empty.
#[tactic(auto, unfolding(domain::specs::Tokens::inhibited))]
pub fn inhibited(us: u64) -> Holding
    ensures { result ≡ inhibited_of us }
{
    if us == 0 {
        Holding::Free
    } else {
        Holding::Inhibited(us)
    }
}

// TVrq asks whether u has grabbed it, TVrs whether it is giving or given to u.
#[tactic(auto, unfolding(domain::specs::Tokens::grabbed_by))]
pub fn has_grabbed(h: Holding, u: u8) -> bool
    ensures { result ≡ grabbed_by h u }
{
    match h {
        Holding::Grabbed(g) => g == u,
        _ => false,
    }
}

#[tactic(auto, unfolding(domain::specs::Tokens::offered_to))]
pub fn is_offered(h: Holding, u: u8) -> bool
    ensures { result ≡ offered_to h u }
{
    match h {
        Holding::Giving(_, r) | Holding::Given(r) => r == u,
        _ => false,
    }
}

// TVrs by u.
#[tactic(auto, unfolding(domain::specs::Tokens::responded))]
pub fn responded(accepts: bool, h: Holding, u: u8) -> Holding
    ensures { result ≡ answered_of accepts h u }
{
    if accepts {
        return Holding::Grabbed(u);
    }
    match h {
        Holding::Giving(g, _) => Holding::Grabbed(g),
        Holding::Given(_) => Holding::Free,
        _ => h,
    }
}

// TPrq tells the grabber, the inhibitors, giver and recipient.
#[tactic(auto, unfolding(domain::specs::Tokens::party))]
pub fn party(h: Holding) -> u64
    ensures { result ≡ party_of h }
{
    match h {
        Holding::Free => 0,
        Holding::Grabbed(u) | Holding::Given(u) => u64::only(u),
        Holding::Inhibited(us) => us,
        Holding::Giving(g, r) => u64::only(g).with(r),
    }
}

// The users at the places of a mask leave, as a set.
#[tactic(auto, unfolding(domain::specs::Tokens::lose))]
pub fn lose(gone: u64, h: Holding) -> Holding
    ensures { result ≡ lose_of gone h }
{
    match h {
        Holding::Free => h,
        Holding::Grabbed(u) | Holding::Given(u) => if cols_masks::has(gone, u) {
            Holding::Free
        } else {
            h
        },
        Holding::Inhibited(us) => inhibited(us.minus(gone)),
        Holding::Giving(g, r) => lose_offer(
            cols_masks::has(gone, g),
            cols_masks::has(gone, r),
            g,
            r,
        ),
    }
}

// Giving without the giver is given, without the recipient grabbed by the giver, without both free.
#[tactic(auto, unfolding(domain::specs::Tokens::lose_offer))]
fn lose_offer(giver: bool, recipient: bool, g: u8, r: u8) -> Holding
    ensures { result ≡ lose_offer giver recipient g r }
{
    match (giver, recipient) {
        (true, true) => Holding::Free,
        (true, false) => Holding::Given(r),
        (false, true) => Holding::Grabbed(g),
        (false, false) => Holding::Giving(g, r),
    }
}
