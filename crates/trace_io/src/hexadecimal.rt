// Octets in hexadecimal, collected as lines are.
ghost use Rattle.std.specs.Prelude.{◌≡◌, [], ◌∷◌};
ghost use Rattle.trace_io.specs.Lines.{each};
ghost use Rattle.trace_io.specs.Hexadecimal.{digit_of, octet_text, octet_texts};
ghost use Rattle.trace_io.specs.Waiting.{SaysTo};

use crate::lines::Lines;

// A digit of an octet in hexadecimal.
fn digit(n: u8) -> u8
    ensures { result ≡ digit_of n }
{
    if n < 10 {
        b'0' + n
    } else {
        b'A' + (n - 10) % 6
    }
}

impl<const N: usize> Lines<N> {
    // Says an octet, behind a space where it is to stand apart.
    fn say_octet(&mut self, octet: u8, apart: bool)
        ensures { SaysTo self.old (octet_text apart octet ∷ []) self.new }
    {
        let high = digit(octet / 16);
        let low = digit(octet % 16);
        if apart {
            self.say(&[b' ', high, low]);
            return;
        }
        self.say(&[high, low]);
    }

    // Says octets one behind the other.
    pub fn say_octets(&mut self, octets: &[u8], apart: bool)
        ensures { SaysTo self.old (each (octet_texts apart) 0 octets.now) self.new }
    {
        for octet in octets {
            self.say_octet(*octet, apart);
        }
    }
}
