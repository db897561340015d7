// The bytes underneath: a writer over a lent buffer, little-endian numbers, and the refusals that every crate above answers with.
#![tactic(auto)]

ghost use Rattle.std.specs.Prelude.{◌≡◌, [], ◌∷◌, ◌+◌, ◌≤◌, ◌<◌, length};
ghost use Rattle.wire.specs.Put.{over};
ghost use Rattle.wire.specs.Puts.{Puts};
ghost use Rattle.wire.specs.Refusal.{number_of, refused_by};
ghost use Rattle.wire.specs.Le.{le_bytes, u16_at, u32_at, u64_at};
ghost use Rattle.wire.specs.Decimal.{decimal};
ghost use Rattle.wire.specs.Record.{head_bytes};

/// Why a call is refused: document 01's R1 to R10.
#[derive(Clone, Copy, Drop, PartialEq, Eq, Debug)]
pub enum Refusal {
    TableTooLong = 1,
    RecordCutShort = 2,
    UnknownKind = 3,
    WrongPayload = 4,
    WrongRange = 5,
    TooManyTokens = 6,
    TooManyBrackets = 7,
    NoRoom = 8,
    NotASchema = 9,
    NotAName = 10,
}

impl Refusal {
    pub fn number(self) -> u16
        ensures { result ≡ number_of self }
    {
        self as u16
    }
}

/// A refusal, and the offset of the record at fault, 0 where none is.
#[derive(Clone, Copy, Drop, PartialEq, Eq, Debug)]
pub struct Refused {
    pub refusal: Refusal,
    // Every refusal has an offset, for callers in C too.
    pub offset: usize,
}

impl From<Refusal> for Refused {
    ghost from_gives = { λ refusal r. r ≡ refused_by refusal };

    fn from(refusal: Refusal) -> Refused {
        Refused { refusal, offset: 0 }
    }
}

// Measuring takes the place past the end, so that it is no slice's length.
/// A lent buffer and the place in it that comes next: bytes are laid over it from there on, and what falls past its end is dropped.
#[derive(Drop)]
pub struct Writer<'a> {
    pub out: &'a mut [u8],
    pub at: usize,
}

impl<'a> Writer<'a> {
    pub fn new(out: &'a mut [u8]) -> Writer<'a>
        ensures same { result.out.ghost_name ≡ out.entry.ghost_name }
        ensures bytes { result.out.now ≡ out.old }
        ensures place { result.at ≡ 0 }
    {
        Writer { out, at: 0 }
    }

    pub fn put_byte(&mut self, b: u8)
        ensures { Puts self.old (b ∷ []) self.new }
    {
        let at = self.at;
        if at < self.out.len() {
            self.out[at] = b;
            self.at = at + 1;
        } else {
            self.at = at.saturating_add(1);
        }
    }

    pub fn put_slice(&mut self, s: &[u8])
        ensures { Puts self.old s.now self.new }
    {
        lay(self.out, self.at, s);
        self.at = self.at.saturating_add(s.len());
    }

    pub fn put_u16(&mut self, n: u16)
        ensures { Puts self.old (le_bytes 2 n) self.new }
    {
        self.put_slice(&u16::to_le_bytes(n));
    }

    fn put_u32(&mut self, n: u32)
        ensures { Puts self.old (le_bytes 4 n) self.new }
    {
        self.put_slice(&u32::to_le_bytes(n));
    }

    pub fn put_u64(&mut self, n: u64)
        ensures { Puts self.old (le_bytes 8 n) self.new }
    {
        self.put_slice(&u64::to_le_bytes(n));
    }

    pub fn put_head(&mut self, size: u16, kind: u16, start: u32, end: u32)
        ensures { Puts self.old (head_bytes size kind start end) self.new }
    {
        self.put_u16(size);
        self.put_u16(kind);
        self.put_u32(start);
        self.put_u32(end);
    }

    // The digits are laid from the last one down, then put as one slice.
    pub fn put_decimal(&mut self, n: u64)
        ensures { Puts self.old (decimal n) self.new }
    {
        // A u64 has at most 20 digits.
        let mut digits = [0u8; 20];
        let mut i = 19;
        let mut m = n;
        while 10 <= m {
            digits[i] = b'0' + (m % 10) as u8;
            m /= 10;
            i -= 1;
        }
        digits[i] = b'0' + m as u8;
        self.put_slice(&digits[i..]);
    }
}

// Room is tested once, so that a slice that fits is one copy and a slice that is only measured costs nothing.
fn lay(out: &mut [u8], at: usize, s: &[u8])
    ensures { out.new ≡ over out.old at s.now }
{
    if out.len() <= at {
        return;
    }
    let room = out.len() - at;
    if s.len() <= room {
        copy(&mut out[at..at + s.len()], s);
    } else {
        copy(&mut out[at..], &s[..room]);
    }
}

/// The library's `copy_from_slice` is compiled to a call of `memmove`, a name that the archive for C would ask of its users.
pub fn copy<T: Copy>(to: &mut [T], s: &[T])
    requires { length to.old ≡ length s.now }
    ensures { to.new ≡ s.now }
{
    for i in 0..s.len() {
        to[i] = s[i];
    }
}

pub fn u16_at(s: &[u8], at: usize) -> u16
    requires { at + 2 ≤ length s.now }
    ensures { result ≡ u16_at s.now at }
{
    u16::from_le_bytes([s[at], s[at + 1]])
}

pub fn u32_at(s: &[u8], at: usize) -> u32
    requires { at + 4 ≤ length s.now }
    ensures { result ≡ u32_at s.now at }
{
    u32::from(u16_at(s, at)) + (u32::from(u16_at(s, at + 2)) << 16)
}

pub fn u64_at(s: &[u8], at: usize) -> u64
    requires { at + 8 ≤ length s.now }
    ensures { result ≡ u64_at s.now at }
{
    u64::from(u32_at(s, at)) + (u64::from(u32_at(s, at + 4)) << 32)
}
