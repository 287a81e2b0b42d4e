// The confirms of AUrq, CJrq and CCrq, each sent to p where there is room: successful with the id, or a result and no id.
ghost use Rattle.std.specs.Prelude.{◌≡◌, [], ◌∷◌};
ghost use Rattle.codec_table.specs.Named.{AUcf, CJcf, CCcf};
ghost use Rattle.out_records.specs.Records.{to};
ghost use Rattle.domain.specs.Effects.{answered, delivers};
ghost use Rattle.serve_reply.specs.Granted.{code, id};

use crate::confirm;
use domain::answer::Answer;
use domain::numbers;

// AUcf.
pub fn user(out: &mut [u8], p: u8, granted: Result<u16, numbers::Result>) -> Answer
    ensures { answered {A = Unit {0}} result tt out.new ≡ delivers 0 tt tt (to p (AUcf (code granted) (id granted)) ∷ []) out.old }
{
    match granted {
        Ok(u) => confirm(out, p, &out_messages::attach_confirm(u)),
        Err(res) => confirm(out, p, &out_messages::attach_refusal(u8::from(res))),
    }
}

// CJcf.
pub fn join(
    out: &mut [u8],
    p: u8,
    u: u16,
    asked: u16,
    granted: Result<u16, numbers::Result>,
) -> Answer
    ensures { answered {A = Unit {0}} result tt out.new ≡ delivers 0 tt tt (to p (CJcf (code granted) u asked (id granted)) ∷ []) out.old }
{
    match granted {
        Ok(c) => confirm(out, p, &out_messages::join_confirm(u, asked, c)),
        Err(res) => confirm(out, p, &out_messages::join_refusal(u8::from(res), u, asked)),
    }
}

// CCcf.
pub fn convene(out: &mut [u8], p: u8, u: u16, granted: Result<u16, numbers::Result>) -> Answer
    ensures { answered {A = Unit {0}} result tt out.new ≡ delivers 0 tt tt (to p (CCcf (code granted) u (id granted)) ∷ []) out.old }
{
    match granted {
        Ok(c) => confirm(out, p, &out_messages::convene_confirm(u, c)),
        Err(res) => confirm(out, p, &out_messages::convene_refusal(u8::from(res), u)),
    }
}
