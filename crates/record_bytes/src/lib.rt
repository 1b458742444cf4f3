// Numbers of one, two and four bytes, least byte first.
#![tactic(auto)]

ghost use Rattle.std.specs.Prelude.{◌+◌, ◌<◌, ◌≤◌, length};
ghost use Rattle.record_bytes.specs.Bytes.{Read, byte_at, half_at, word_at};

// Where a record's kind, file, line and column stand in it, after its length.
pub const KIND: usize = 4;

pub const FILE: usize = 6;

pub const LINE: usize = 8;

pub const COLUMN: usize = 12;

// Where a record's head ends, its first field and its second: the next field, or what the record holds, starts there.
pub const HEAD_END: usize = 16;

pub const FIELD_END: usize = 20;

pub const FIELDS_END: usize = 24;

// Bytes of a field.
pub const FIELD: usize = 4;

// The byte at `at`.
pub fn byte(s: &[u8], at: usize) -> u32
    requires { at < length s.now }
    ensures { Read (byte_at s.now at) 8 result }
{
    s[at] as u32
}

// The two bytes at `at`.
pub fn half(s: &[u8], at: usize) -> u32
    requires { at + 2 ≤ length s.now }
    ensures { Read (half_at s.now at) 16 result }
{
    u16::from_le_bytes([s[at], s[at + 1]]) as u32
}

// The four bytes at `at`.
pub fn word(s: &[u8], at: usize) -> u32
    requires { at + 4 ≤ length s.now }
    ensures { Read (word_at s.now at) 32 result }
{
    u32::from_le_bytes([s[at], s[at + 1], s[at + 2], s[at + 3]])
}

// The four bytes at `at`, as a length.
pub fn length_at(s: &[u8], at: usize) -> usize
    requires { at + 4 ≤ length s.now }
    ensures { Read (word_at s.now at) 32 result }
{
    word(s, at) as usize
}
