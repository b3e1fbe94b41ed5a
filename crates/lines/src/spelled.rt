// How an element of a list stands on a line: a number in decimal, a byte in hexadecimal.
ghost use Rattle.std.specs.Prelude.{◌≡◌, List, ℕ, ◌<◌};
ghost use Rattle.lines.specs.Text.{held, laid, decimal, signed_decimal, hex_digit, hexadecimal};

use crate::Line;

pub trait Spelled: Copy {
    ghost spelling: { Self → List ℕ };

    fn spell(self, line: Line) -> Line
        ensures { held result ≡ laid (held line) (spelling self) };
}

impl Spelled for u32 {
    ghost spelling = { decimal };

    fn spell(self, line: Line) -> Line {
        line.number(self as u64)
    }
}

impl Spelled for i32 {
    ghost spelling = { signed_decimal };

    fn spell(self, line: Line) -> Line {
        let digits = self.unsigned_abs() as u64;
        if self < 0 {
            line.words(b"-").number(digits)
        } else {
            line.number(digits)
        }
    }
}

impl Spelled for u8 {
    ghost spelling = { hexadecimal };

    fn spell(self, line: Line) -> Line {
        line.words(&[digit(self / 16), digit(self % 16)])
    }
}

fn digit(d: u8) -> u8
    requires { d < 16 }
    ensures { result ≡ hex_digit d }
{
    if d < 10 { b'0' + d } else { b'A' - 10 + d }
}
