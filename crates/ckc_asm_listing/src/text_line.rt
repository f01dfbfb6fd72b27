ghost use Rattle.std.specs.Prelude.{◌≡◌, ◌+◌, ◌*◌, ◌/◌, ◌%◌, ◌^◌, ◌<◌, ◌≤◌, [], ◌∷◌, ◌++◌, length, take};
ghost use Rattle.std.specs.Fmt.{decimal, signed_decimal};
ghost use Rattle.ckc_asm.specs.Names.{hex, hex_digit, register};

use std::marker::Model;

/// How many bytes a line may have.
const ROOM: usize = 80;

/// A short line of text, which takes no memory.
#[derive(Drop)]
pub struct TextLine {
    room: [u8; 80],
    len: usize,
}

impl Model for TextLine {
    ghost use Rattle.std.specs.Prelude.{List, ℕ, take, ◌≤◌};

    ghost Value = { List ℕ };

    ghost view = { λ l. take l.len l.room };

    ghost invariant = { λ l. l.len ≤ 80 };
}

impl TextLine {
    /// An empty line.
    pub fn new() -> TextLine
        ensures { result ≡ [] }
    {
        TextLine {
            room: [0; ROOM],
            len: 0,
        }
    }

    /// The bytes of the line so far.
    pub fn as_bytes(&self) -> &[u8]
        ensures { result.now ≡ self.now }
    {
        &self.room[..self.len]
    }

    /// Adds a byte.
    pub fn push(&mut self, byte: u8)
        requires { length self.old < 80 }
        ensures { self.new ≡ self.old ++ byte ∷ [] }
    {
        self.room[self.len] = byte;
        self.len += 1;
    }

    /// Adds a text.
    pub fn push_text(&mut self, text: &[u8])
        requires { length self.old + length text.now ≤ 80 }
        ensures { self.new ≡ self.old ++ text.now }
    {
        for byte in text {
            self.push(*byte);
        }
    }

    /// Adds a number in decimal, which has ten digits at most.
    pub fn push_number(&mut self, n: u32)
        requires { length self.old ≤ 70 }
        ensures text { self.new ≡ self.old ++ decimal n }
        ensures length { length self.new ≤ length self.old + 10 }
    {
        self.push_decimal(n);
    }

    /// Adds a number in decimal.
    pub fn push_decimal(&mut self, n: u32)
        requires { length self.old + length (decimal n) ≤ 80 }
        ensures { self.new ≡ self.old ++ decimal n }
    {
        if n >= 10 {
            self.push_decimal(n / 10);
        }
        self.push(48 + (n % 10) as u8);
    }

    /// Adds a signed number in decimal.
    pub fn push_signed(&mut self, z: i32)
        requires { length self.old ≤ 48 }
        ensures text { self.new ≡ self.old ++ signed_decimal z }
        ensures length { length self.new ≤ length self.old + 11 }
    {
        if z < 0 {
            self.push(b'-');
        }
        self.push_number(z.unsigned_abs());
    }

    /// Adds a number as two hexadecimal digits.
    #[tactic(auto, unfolding(ckc_asm::specs::Names::hex))]
    pub fn push_hex_2(&mut self, n: u32)
        requires { length self.old + 2 ≤ 80 }
        ensures text { self.new ≡ self.old ++ hex 2 n }
        ensures length { length self.new ≡ length self.old + 2 }
    {
        self.push(hex_byte(n / 0x10 % 16));
        self.push(hex_byte(n % 16));
    }

    /// Adds a number as five hexadecimal digits.
    #[tactic(auto, unfolding(ckc_asm::specs::Names::hex))]
    pub fn push_hex_5(&mut self, n: u32)
        requires { length self.old + 5 ≤ 80 }
        ensures text { self.new ≡ self.old ++ hex 5 n }
        ensures length { length self.new ≡ length self.old + 5 }
    {
        self.push(hex_byte(n / 0x1_0000 % 16));
        self.push(hex_byte(n / 0x1000 % 16));
        self.push(hex_byte(n / 0x100 % 16));
        self.push_hex_2(n);
    }

    /// Adds a number as eight hexadecimal digits.
    #[tactic(auto, unfolding(ckc_asm::specs::Names::hex))]
    pub fn push_hex_8(&mut self, n: u32)
        requires { length self.old + 8 ≤ 80 }
        ensures text { self.new ≡ self.old ++ hex 8 n }
        ensures length { length self.new ≡ length self.old + 8 }
    {
        self.push(hex_byte(n / 0x1000_0000 % 16));
        self.push(hex_byte(n / 0x100_0000 % 16));
        self.push(hex_byte(n / 0x10_0000 % 16));
        self.push_hex_5(n);
    }

    /// Adds the name of a register.
    pub fn push_register(&mut self, n: u8)
        requires room { length self.old ≤ 48 }
        requires number { n < 32 }
        ensures text { self.new ≡ self.old ++ register n }
        ensures length { length self.new ≤ length self.old + 3 }
    {
        self.push(b'x');
        self.push_decimal(u32::from(n));
    }
}

fn hex_byte(digit: u32) -> u8
    requires { digit < 16 }
    ensures { result ≡ hex_digit digit }
{
    if digit < 10 {
        48 + digit as u8
    } else {
        87 + digit as u8
    }
}
