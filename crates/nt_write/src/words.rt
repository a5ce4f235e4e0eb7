//! The words of a design text: numbers, ranges, constants and names.
ghost use Rattle.std.specs.Prelude.{◌≡◌, ◌<◌, false, decimal};
ghost use Rattle.std.specs.Fmt.{digit_glyph};
ghost use Rattle.nt_core.specs.Text.{range_text, hex_digits, hex_text, constant_text, signed_constant_text, node_name, register_name, memory_name, host_name};

use crate::pen::Pen;
use itoa::Buffer;
use xt_base::{Item, Sink};
use xt_bits::Bits;

/// The hexadecimal digit for a number below 16, in lower case.
fn glyph(digit: u8) -> u8
    requires { digit < 16 }
    ensures { result ≡ digit_glyph false digit }
{
    if digit < 10 {
        b'0' + digit
    } else {
        b'a' + (digit - 10)
    }
}

impl<'a, S: Sink> Pen<'a, S> {
    ghost use Rattle.nt_write.specs.Pen.{Takes};

    /// Takes a number in decimal.
    pub fn number(&mut self, number: usize)
        ensures { Takes S.written S.faults self.old self.new (decimal number) }
    {
        let mut digits = Buffer::new();
        self.put(digits.format(number).as_bytes());
    }

    /// Takes the range of a width in bits; nothing for one bit.
    pub fn range(&mut self, width: u32)
        ensures { Takes S.written S.faults self.old self.new (range_text width) }
    {
        if width != 1 {
            self.put(b"[");
            self.number(width.saturating_sub(1) as usize);
            self.put(b":0] ");
        }
    }

    /// Takes a constant.
    pub fn constant(&mut self, constant: Bits)
        ensures { Takes S.written S.faults self.old self.new (constant_text constant) }
    {
        self.number(constant.width() as usize);
        self.put(b"'h");
        self.value(constant);
    }

    /// Takes a signed constant.
    pub fn signed_constant(&mut self, constant: Bits)
        ensures { Takes S.written S.faults self.old self.new (signed_constant_text constant) }
    {
        self.number(constant.width() as usize);
        self.put(b"'sh");
        self.value(constant);
    }

    /// Takes the value of a constant, with a digit for each four bits of its width.
    fn value(&mut self, constant: Bits)
        ensures { Takes S.written S.faults self.old self.new (hex_text constant) }
    {
        self.hex((constant.width() + 3) / 4, constant.value());
    }

    /// Takes so many of the lowest hexadecimal digits of a number.
    fn hex(&mut self, count: u32, number: Item)
        ensures { Takes S.written S.faults self.old self.new (hex_digits count number) }
    {
        if count > 0 {
            self.hex(count - 1, number / 16);
            self.put(&[glyph((number % 16) as u8)]);
        }
    }

    /// Takes the name of a node.
    pub fn node(&mut self, node: usize)
        ensures { Takes S.written S.faults self.old self.new (node_name node) }
    {
        self.put(b"xtc_n");
        self.number(node);
    }

    /// Takes the name of a register.
    pub fn register(&mut self, register: usize)
        ensures { Takes S.written S.faults self.old self.new (register_name register) }
    {
        self.put(b"xtc_r");
        self.number(register);
    }

    /// Takes the name of a memory.
    pub fn memory(&mut self, memory: usize)
        ensures { Takes S.written S.faults self.old self.new (memory_name memory) }
    {
        self.put(b"xtc_m");
        self.number(memory);
    }

    /// Takes what the names of a process's pins begin with.
    pub fn host(&mut self, process: u32)
        ensures { Takes S.written S.faults self.old self.new (host_name process) }
    {
        self.put(b"xtc_p");
        self.number(process as usize);
    }
}
