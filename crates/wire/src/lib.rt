// What the crate's wire derive and its text formatting did, written out: fields of a byte, numbers of
// several bytes, copying, and images and text into lent room. Every function is total.
#![tactic(auto)]

ghost use Rattle.std.specs.Prelude.{◌≡◌, cond, [], ◌∷◌, ◌++◌, ◌<◌, ◌≤◌, ◌^◌, ◌/◌, get_or, take, drop};
ghost use Rattle.wire.specs.Field.{flag_at};
ghost use Rattle.wire.specs.Image.{not_long};
ghost use Rattle.wire.specs.Outcome.{number_of, outcome_by, when, decide};
ghost use Rattle.wire.specs.Number.{little_at, big_at};
ghost use Rattle.wire.specs.Room.{over, InRoom, text_in};
ghost use Rattle.wire.specs.Text.{glyph_of, digits_of, places_of, decimal_of, page, page_of, text_of, Puts};

// The flag at bit `shift` of a byte; a byte has none above 7.
pub fn flag(byte: u8, shift: u8) -> bool
    ensures { result ≡ flag_at byte shift }
{
    if 7 < shift {
        return false;
    }
    (byte >> shift) & 1 == 1
}

// A byte of a slice, 0 past its end.
pub fn byte_at(bytes: &[u8], at: usize) -> u8
    ensures { result ≡ get_or bytes.now at 0 }
{
    bytes.get(at).copied().unwrap_or(0)
}

// The front of a slice, as far as it goes.
pub fn front(bytes: &[u8], count: usize) -> &[u8]
    ensures { result.now ≡ take count bytes.now }
{
    &bytes[..count.min(bytes.len())]
}

// What stands in a slice from a place on; nothing past its end.
pub fn behind(bytes: &[u8], at: usize) -> &[u8]
    ensures { result.now ≡ drop at bytes.now }
{
    &bytes[at.min(bytes.len())..]
}

// Two bytes as a number, the low one first.
pub fn le16(a: u8, b: u8) -> u16
    ensures { result ≡ little_at (a ∷ b ∷ []) 0 2 }
{
    u16::from_le_bytes([a, b])
}

// Two bytes as a number, the high one first.
pub fn be16(a: u8, b: u8) -> u16
    ensures { result ≡ big_at (a ∷ b ∷ []) 0 2 }
{
    u16::from_be_bytes([a, b])
}

// Copies `from` over the front of `to`, as far as both go.
pub fn copy(from: &[u8], to: &mut [u8])
    ensures { to.new ≡ over from.now to.old }
{
    let n = from.len().min(to.len());
    to[..n].copy_from_slice(&from[..n]);
}

// Why a call is refused. Each reason has the number that documents 01 and 02 give it.
#[derive(Clone, Copy, Debug, PartialEq, Eq)]
pub enum Reason {
    AreaLength = 1,
    SheetLength = 2,
    SheetVersion = 3,
    SheetRule = 4,
    UnnamedControl = 5,
    TooManyBits = 6,
    NoEntry = 7,
    EntryTooLong = 8,
    PastLastAddress = 9,
    BelowGroup = 10,
    NotWholeBytes = 11,
    RoomTooShort = 12,
    FieldTooWide = 13,
    PortionRoom = 14,
    EntryInTheWay = 15,
    DumpCutShort = 16,
    DumpRecords = 17,
    BadPairs = 18,
}

impl Reason {
    // Its number.
    pub fn number(self) -> u8
        ensures { result ≡ number_of self }
    {
        self as u8
    }
}

// A text goes into the room whole, or not at all.
pub fn write_text(text: &[u8], room: &mut [u8]) -> Result<usize, Reason>
    ensures { InRoom (text_in text.now room.old) text.now room.old result room.new }
{
    if room.len() < text.len() {
        return Err(Reason::RoomTooShort);
    }
    copy(text, room);
    Ok(text.len())
}

// Lent bytes as an image of N bytes, if they are N.
pub fn image_in<const N: usize>(buf: &[u8]) -> Result<[u8; N], Reason>
    ensures { outcome_by (λ image. image) result ≡ decide (when 1 (not_long N buf.now) ∷ []) buf.now }
{
    <[u8; N]>::try_from(buf).map_err(|_| Reason::AreaLength)
}

// A record's image into lent room of N bytes, unless a number of the record is too wide for its field.
pub fn write_image<const N: usize>(
    image: [u8; N],
    too_wide: bool,
    buf: &mut [u8],
) -> Result<usize, Reason>
    ensures { InRoom (decide (when 1 (not_long N buf.old) ∷ when 13 too_wide ∷ []) N) image.entry buf.old result buf.new }
{
    if buf.len() != N {
        return Err(Reason::AreaLength);
    }
    if too_wide {
        return Err(Reason::FieldTooWide);
    }
    buf.copy_from_slice(&image);
    Ok(N)
}

// The character of a digit below 16.
fn glyph(digit: u8) -> u8
    requires { digit < 16 }
    ensures { result ≡ glyph_of digit }
{
    if digit < 10 {
        return 48 + digit;
    }
    87 + digit
}

// How many decimal digits a number takes, and the weight of the first of them.
#[derive(Clone, Copy)]
struct Weight {
    count: u32,
    power: u32,
}

fn places(x: u16) -> Weight
    ensures { (result.count ≡ places_of x) × (result.power ≡ 10 ^ result.count / 10) }
{
    if x < 10 {
        return Weight { count: 1, power: 1 };
    }
    if x < 100 {
        return Weight {
            count: 2,
            power: 10,
        };
    }
    if x < 1000 {
        return Weight {
            count: 3,
            power: 100,
        };
    }
    if x < 10000 {
        return Weight {
            count: 4,
            power: 1000,
        };
    }
    Weight {
        count: 5,
        power: 10000,
    }
}

// Text that is typed into lent room, from its front, and how long it is by now; past the room's end nothing is typed.
// Typing is inlined: a call that is handed the text would load and store how long it is for each byte.
#[derive(Drop)]
pub struct Text<'a> {
    pub room: &'a mut [u8],
    pub len: usize,
}

impl<'a> Text<'a> {
    // No text yet.
    #[inline(always)]
    pub fn new(room: &'a mut [u8]) -> Text<'a>
        ensures same_reference { result.room.ghost_name ≡ room.entry.ghost_name }
        ensures blank { page_of result ≡ page room.old 0 }
    {
        Text { room, len: 0 }
    }

    // What is typed goes into the room whole, or not at all.
    pub fn write(&self, room: &mut [u8]) -> Result<usize, Reason>
        ensures { InRoom (text_in (text_of self.now) room.old) (text_of self.now) room.old result room.new }
    {
        write_text(front(self.room, self.len), room)
    }

    // One byte more.
    #[inline(always)]
    pub fn put_byte(&mut self, byte: u8)
        ensures { Puts self.old self.new (byte ∷ []) }
    {
        if self.len < self.room.len() {
            self.room[self.len] = byte;
            self.len += 1;
        }
    }

    // Each byte of a text in turn.
    #[inline(always)]
    pub fn put_bytes(&mut self, text: &[u8])
        ensures { Puts self.old self.new text.now }
    {
        for &byte in text {
            self.put_byte(byte);
        }
    }

    // The last `count` digits of x; `power` is the weight of the first of them.
    #[inline(always)]
    fn put_digits(&mut self, x: u32, base: u32, power: u32, count: u32)
        requires { (1 < base) × (base ≤ 16) × (power ≡ base ^ count / base) }
        ensures { Puts self.old self.new (digits_of base count x) }
    {
        let mut weight = power;
        for _ in 0..count {
            let digit = x / weight % base;
            // below the base, which is 16 at most
            self.put_byte(glyph(digit as u8));
            weight /= base;
        }
    }

    // A label and the last `count` hexadecimal digits; `power` is the weight of the first of them.
    #[inline(always)]
    fn put_hex(&mut self, label: &[u8], x: u32, power: u32, count: u32)
        requires { power ≡ 16 ^ count / 16 }
        ensures { Puts self.old self.new (label.now ++ digits_of 16 count x) }
    {
        self.put_bytes(label);
        self.put_digits(x, 16, power, count);
    }

    // A label, which ends in 0x, and a number as four hexadecimal digits.
    #[inline(always)]
    pub fn put_hex4(&mut self, label: &[u8], x: u16)
        ensures { Puts self.old self.new (label.now ++ digits_of 16 4 x) }
    {
        // a cast: of the library's From the proof knows no bound
        self.put_hex(label, x as u32, 0x1000, 4);
    }

    // A label, which ends in 0x, and a number as eight hexadecimal digits.
    #[inline(always)]
    pub fn put_hex8(&mut self, label: &[u8], x: u32)
        ensures { Puts self.old self.new (label.now ++ digits_of 16 8 x) }
    {
        self.put_hex(label, x, 0x1000_0000, 8);
    }

    // A label and a number in decimal, with no zero in front.
    #[inline(always)]
    pub fn put_decimal(&mut self, label: &[u8], x: u16)
        ensures { Puts self.old self.new (label.now ++ decimal_of x) }
    {
        let p = places(x);
        self.put_bytes(label);
        // a cast: of the library's From the proof knows no bound
        self.put_digits(x as u32, 10, p.power, p.count);
    }

    // The one text or the other.
    #[inline(always)]
    pub fn put_either(&mut self, first: bool, one: &[u8], other: &[u8])
        ensures { Puts self.old self.new (cond first one.now other.now) }
    {
        self.put_bytes(if first { one } else { other });
    }
}
