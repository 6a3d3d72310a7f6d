// A code word: its parts, and what a kind leaves unused.
ghost use Rattle.std.specs.Prelude.{◌≡◌, ◌+◌, ◌/◌, ◌%◌, ◌<◌, ◌^◌};
ghost use Rattle.machine.specs.Word.{part_of, opcode_of, rd_of, rs_of, rt_of, low_of};

// A word of the code, and the pc where it stands.
#[derive(Clone, Copy)]
pub struct Word {
    pub bits: u32,
    pub pc: usize,
    pub ghost followed: { pc + 1 < 2 ^ 64 },
}

impl Word {
    // Four bits of it, from bit `at` up.
    fn part(self, at: u32) -> usize
        requires { at < 32 }
        ensures { result ≡ part_of self.bits at }
    {
        ((self.bits >> at) & 15) as usize
    }

    pub fn opcode(self) -> usize
        ensures { result ≡ opcode_of self.bits }
    {
        self.part(28)
    }

    pub fn rd(self) -> usize
        ensures { result ≡ rd_of self.bits }
    {
        self.part(24)
    }

    pub fn rs(self) -> usize
        ensures { result ≡ rs_of self.bits }
    {
        self.part(20)
    }

    pub fn rt(self) -> usize
        ensures { result ≡ rt_of self.bits }
    {
        self.part(16)
    }

    // The low half.
    pub fn low(self) -> u16
        ensures { result ≡ low_of self.bits }
    {
        (self.bits & 0xffff) as u16
    }

    // What halt, jmp and bnz leave unused: 0 where it is.

    pub fn unused_by_halt(self) -> usize
        ensures { result ≡ self.bits % 2 ^ 28 }
    {
        (self.bits & 0x0fff_ffff) as usize
    }

    pub fn unused_by_jmp(self) -> usize
        ensures { result ≡ self.bits / 2 ^ 16 % 2 ^ 12 }
    {
        ((self.bits >> 16) & 0x0fff) as usize
    }

    pub fn unused_by_bnz(self) -> usize
        ensures { result ≡ rd_of self.bits + rt_of self.bits }
    {
        self.rd() + self.rt()
    }

    // The pc of the word behind it.
    pub fn next(self) -> usize
        ensures { result ≡ self.pc + 1 }
    {
        self.pc + 1
    }
}
