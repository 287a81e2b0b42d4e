// Traces in memory that C lends.
ghost use Rattle.std.specs.Prelude.{◌≡◌};
ghost use Rattle.salvage.specs.Answer.{salvaged};

use salvage::Salvaged;

// Writes the frames of a torn trace that can be kept into `out`, and start and length of each span cut out into `list`.
#[unsafe(no_mangle)]
pub extern "C" fn ladlestorm_raw_salvage(trace: &[u8], out: &mut [u8], list: &mut [u8]) -> Salvaged
    ensures { (result, out.new, list.new) ≡ salvaged trace.now out.old list.old }
{
    salvage::salvage(trace, out, list)
}
