// A line's numbers, in hexadecimal with blanks between them.
ghost use Rattle.std.specs.Prelude.{◌<◌, IfSome};

/// The numbers of a line, as its bytes come.
#[derive(Drop)]
pub struct Line {
    // where a line leaves numbers out, those of the lines before it stand
    numbers: [u32; 128],
    count: usize,
    // the number whose digits are being read
    open: Option<u32>,
}

/// The numbers of a line, one after another: 0 behind the last.
// 0 and no `None` behind the last: every reader would take it for 0.
#[derive(Clone, Copy)]
pub struct Numbers<'a> {
    rest: &'a [u32],
}

impl Line {
    pub fn new() -> Line {
        Line {
            numbers: [0; 128],
            count: 0,
            open: None,
        }
    }

    /// Whether a byte ends a line that has numbers. Of a number eight digits count.
    pub fn ends_at(&mut self, c: u8) -> bool {
        if let Some(digit) = digit(c) {
            let value = self.open.unwrap_or(0);
            self.open = Some(value % 0x1000_0000 * 16 + digit);
            return false;
        }
        if let Some(value) = self.open.take() {
            if let Some(place) = self.numbers.get_mut(self.count) {
                *place = value;
            }
            self.count = self.count.saturating_add(1);
        }
        c == b'\n' && self.count != 0
    }

    pub fn numbers(&self) -> Numbers<'_> {
        Numbers {
            rest: &self.numbers,
        }
    }

    /// The next line.
    pub fn clear(&mut self) {
        self.count = 0;
    }
}

impl Numbers<'_> {
    pub fn next(&mut self) -> u32 {
        match self.rest {
            [first, rest @ ..] => {
                self.rest = rest;
                *first
            }
            [] => 0,
        }
    }
}

// std's digits take capitals too.
fn digit(c: u8) -> Option<u32>
    ensures { IfSome result (λ digit. digit < 16) }
{
    match c {
        b'0'..=b'9' => Some((c - b'0') as u32),
        b'a'..=b'f' => Some((c - b'a') as u32 + 10),
        _ => None,
    }
}
