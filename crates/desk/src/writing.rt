// Writing into a line, part after part.
ghost use Rattle.std.specs.Prelude.{◌≡◌, []};
ghost use Rattle.desk.specs.Lines.{pushed, pushed_all, line_of};
ghost use Rattle.desk.specs.Text.{digit, digits, decimal, spaced};

use crate::Line;

fn digit(number: u64) -> u8
    ensures { result ≡ digit number }
{
    b'0' + (number % 10) as u8
}

// Not by `write!`: its contract says what an `Ok` wrote and nothing of an `Err`, and a line has no `Err` to give.
impl Line {
    pub(crate) fn blank() -> Line
        ensures { result ≡ line_of [] }
    {
        Line {
            bytes: [0; 128],
            length: 0,
        }
    }

    // One byte more, while there is room.
    fn push(&mut self, byte: u8)
        ensures { self.new ≡ pushed self.old byte }
    {
        if self.length < 128 {
            self.bytes[self.length] = byte;
            self.length += 1;
        }
    }

    pub(crate) fn push_text(&mut self, text: &[u8])
        ensures { self.new ≡ pushed_all self.old text.now }
    {
        for &byte in text {
            self.push(byte);
        }
    }

    fn push_digits(&mut self, most: usize, number: u64)
        ensures { self.new ≡ pushed_all self.old (digits most number) }
    {
        if most == 0 {
            return;
        }
        if number >= 10 {
            self.push_digits(most - 1, number / 10);
        }
        self.push(digit(number));
    }

    pub(crate) fn push_number(&mut self, number: u64)
        ensures { self.new ≡ pushed_all self.old (decimal number) }
    {
        self.push_digits(20, number);
    }

    // Each number after a space.
    pub(crate) fn push_spaced(&mut self, numbers: &[u64])
        ensures { self.new ≡ pushed_all self.old (spaced numbers.now) }
    {
        for &number in numbers {
            self.push(b' ');
            self.push_number(number);
        }
    }
}
