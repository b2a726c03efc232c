// The report: bytes appended at a position that counts on past the end of the buffer, where they are dropped. Codes stand as the bytes that they
// are in document 01, where they are reported.
#![tactic(auto)]

ghost use Rattle.std.specs.Prelude.{◌≡◌, ◌-◌, ◌≤◌, [], ◌∷◌, ◌++◌, length, take, replicate};
ghost use Rattle.definitions.specs.Place.{straddle_conflict};
ghost use Rattle.definitions.specs.Stream.{bytes};
ghost use Rattle.report.specs.Emitted.{Emitted, TakenBack};

// A lent buffer, and where the report goes on.
#[derive(Drop)]
pub struct Report<'a> {
    pub buffer: &'a mut [u8],
    pub at: usize,
}

impl Report<'_> {
    // One byte more.
    pub fn byte(&mut self, b: u8)
        ensures { Emitted self.old (b ∷ []) self.new }
    {
        if self.at < self.buffer.len() {
            self.buffer[self.at] = b;
        }
        self.at = self.at.wrapping_add(1);
    }

    // Four bytes more, the lowest first.
    pub fn word(&mut self, v: u32)
        ensures { Emitted self.old (bytes 4 v) self.new }
    {
        let [b0, b1, b2, b3] = v.to_le_bytes();
        self.byte(b0);
        self.byte(b1);
        self.byte(b2);
        self.byte(b3);
    }

    // 31 and the entry's offset.
    pub fn of_entry(&mut self, offset: u32)
        ensures { Emitted self.old (0x31 ∷ bytes 4 offset) self.new }
    {
        self.byte(0x31);
        self.word(offset);
    }

    // 36, the entry's offset and b's.
    pub fn straddle(&mut self, o: u32, d: u32)
        ensures { Emitted self.old (straddle_conflict o d) self.new }
    {
        self.byte(0x36);
        self.word(o);
        self.word(d);
    }

    // Back to `to`, if nothing was reported behind `behind`: so a heading with nothing behind it is taken back.
    pub fn take_back(&mut self, behind: usize, to: usize)
        ensures { TakenBack behind to self.old self.new }
    {
        if self.at == behind {
            self.at = to;
        }
    }
}

// Zeros from `from` to the buffer's end: also of a buffer that no report was begun in, so it is no method.
pub fn zero(rep: &mut [u8], from: usize)
    requires { from ≤ length rep.old }
    ensures { rep.new ≡ take from rep.old ++ replicate (length rep.old - from) 0 }
{
    rep[from..].fill(0);
}
