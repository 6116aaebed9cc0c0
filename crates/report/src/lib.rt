// Writes a report into a lent buffer.
//
// Where the buffer ends, bytes are left out and places go on, so that the last place is the length of the whole text.
#![tactic(auto)]

ghost use Rattle.std.specs.Prelude.{◌≡◌, ◌≤◌, [], ◌∷◌, length, decimal};
ghost use Rattle.report.specs.Buffers.{overlay};
ghost use Rattle.report.specs.Degrees.{listed};
ghost use Rattle.report.specs.Lines.{line, numbers, report_text};
ghost use Rattle.report.specs.Pens.{Fits, Writes};

// A number for each degree from 0 to a top; past degree 8 there is none. Counts are copied, and the library's vector
// cannot be.
#[derive(Clone, Copy)]
pub struct ByDegree {
    pub numbers: [usize; 9],
    pub top: usize,
}

impl ByDegree {
    fn listed(&self) -> &[usize]
        ensures is { result.now ≡ listed self.now }
        ensures few { length result.now ≤ 9 }
    {
        let all = &self.numbers[..];
        &all[0..self.top.min(8) + 1]
    }
}

// A buffer, and the place in it where the next byte goes.
#[derive(Drop)]
struct Pen<'a> {
    out: &'a mut [u8],
    at: usize,
}

impl Pen<'_> {
    fn put_byte(&mut self, byte: u8)
        requires { Fits self.old (byte ∷ []) }
        ensures { Writes self.old self.new (byte ∷ []) }
    {
        // kept as a test and a write: of a slice after `get_mut` a proof knows the length and no element
        if self.at < self.out.len() {
            self.out[self.at] = byte;
        }
        self.at += 1;
    }

    fn put(&mut self, text: &[u8])
        requires { Fits self.old text.now }
        ensures { Writes self.old self.new text.now }
    {
        for byte in text {
            self.put_byte(*byte);
        }
    }

    fn put_number(&mut self, n: usize)
        requires { Fits self.old (decimal n) }
        ensures { Writes self.old self.new (decimal n) }
    {
        let mut digits = itoa::Buffer::new();
        self.put(digits.format(n).as_bytes());
    }

    // A space before each.
    fn put_numbers(&mut self, ns: &[usize])
        requires { Fits self.old (numbers ns.now) }
        ensures { Writes self.old self.new (numbers ns.now) }
    {
        for n in ns {
            self.put_byte(b' ');
            self.put_number(*n);
        }
    }

    fn put_line(&mut self, word: &[u8], ns: &[usize])
        requires { Fits self.old (line word.now ns.now) }
        ensures { Writes self.old self.new (line word.now ns.now) }
    {
        self.put(word);
        self.put_numbers(ns);
        self.put_byte(b'\n');
    }

    // The lines field, form and cells.
    fn put_report(&mut self, order: usize, form: usize, cells: &[usize])
        requires { Fits self.old (report_text order form cells.now) }
        ensures { Writes self.old self.new (report_text order form cells.now) }
    {
        self.put_line(b"field", &[order]);
        self.put_line(b"form", &[form]);
        self.put_line(b"cells", cells);
    }
}

// Writes the report as far as the buffer goes; the answer is the length of the whole text. The order and the form are
// numbers here: of a type, only its number would be printed.
pub fn write_report(out: &mut [u8], order: usize, form: usize, cells: &ByDegree) -> usize
    ensures place { result ≡ length (report_text order form (listed cells.now)) }
    ensures bytes { out.new ≡ overlay out.old
        (report_text order form (listed cells.now)) }
{
    let mut pen = Pen { out, at: 0 };
    let counts = cells.listed();
    pen.put_report(order, form, counts);
    pen.at
}
