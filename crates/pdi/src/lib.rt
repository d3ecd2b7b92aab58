// src/pdi.rs: offsets and segments of the process data image, and the two units that they are counted in.
#![tactic(auto)]

ghost use Rattle.std.specs.Prelude.{◌≡◌};
ghost use Rattle.wire.specs.Room.{InRoom, text_in};
ghost use Rattle.wire.specs.Text.{Puts};
ghost use Rattle.pdi.specs.Unit.{rounded_up, rounded_of};
ghost use Rattle.pdi.specs.Offset.{offset_at, incremented, incremented_byte_aligned, moved_of};
ghost use Rattle.pdi.specs.Segment.{segment, len_of, less_group, placed_of, segment_text};

use wire::{Reason, Text};

// A length in bits: the source's `bit_len`, wide enough for every exact sum, of which the largest is 4,261,413,375.
#[derive(Clone, Copy, Debug, PartialEq, Eq)]
pub struct BitLen(pub u32);

// A length in bytes: the source's `length_bytes`.
#[derive(Clone, Copy, Debug, PartialEq, Eq)]
pub struct ByteLen(pub u16);

impl BitLen {
    // The only way from bits to bytes: whole bytes, and one more where bits are left over, as 4/13 wants it written.
    pub fn round_up(self) -> Result<ByteLen, Reason>
        ensures { rounded_of result ≡ rounded_up self.0 }
    {
        let bits = self.0;
        if bits > 65528 {
            return Err(Reason::TooManyBits);
        }
        let mut bytes = bits / 8;
        let left_over = bits % 8;
        if left_over > 0 {
            bytes += 1;
        }
        Ok(ByteLen(bytes as u16))
    }
}

// Where the next mapping goes in the process data image.
#[derive(Clone, Copy, Debug, PartialEq, Eq)]
pub struct PdiOffset {
    pub start_address: u32,
}

impl PdiOffset {
    // The offset after a number of bits, rounded up to whole bytes.
    pub fn increment_byte_aligned(self, bits: BitLen) -> Result<PdiOffset, Reason>
        ensures { moved_of result ≡ incremented_byte_aligned self.start_address bits.0 }
    {
        self.increment(bits.round_up()?)
    }

    // The offset after a number of bytes.
    pub fn increment(self, bytes: ByteLen) -> Result<PdiOffset, Reason>
        ensures { moved_of result ≡ incremented self.start_address bytes.0 }
    {
        PdiOffset::at(u64::from(self.start_address) + u64::from(bytes.0))
    }

    // The offset at an exact place, or 9 where that is past the last.
    pub fn at(exact: u64) -> Result<PdiOffset, Reason>
        ensures { moved_of result ≡ offset_at exact }
    {
        let Ok(start_address) = u32::try_from(exact) else {
            return Err(Reason::PastLastAddress);
        };
        Ok(PdiOffset { start_address })
    }

    // What lies between this offset and another, which isn't part of it.
    pub fn up_to(self, other: PdiOffset) -> PdiSegment
        ensures { result ≡ segment self.start_address other.start_address }
    {
        PdiSegment {
            start: self.start_address,
            end: other.start_address,
        }
    }
}

// A part of the process data image: from its start up to its end.
#[derive(Clone, Copy, Debug, PartialEq, Eq)]
pub struct PdiSegment {
    pub start: u32,
    pub end: u32,
}

impl PdiSegment {
    // How many bytes it has.
    pub fn len(self) -> u32
        ensures { result ≡ len_of self }
    {
        self.end.saturating_sub(self.start)
    }

    // The segment counted from the group's start.
    pub fn less(self, group_start_address: u32) -> Result<PdiSegment, Reason>
        ensures { placed_of result ≡ less_group self group_start_address }
    {
        if self.start < group_start_address || self.end < group_start_address {
            return Err(Reason::BelowGroup);
        }
        Ok(PdiSegment {
            start: self.start - group_start_address,
            end: self.end - group_start_address,
        })
    }

    // Its text, into lent room. It is typed, since std's Display says what it wrote where it succeeds, and not that it does.
    pub fn fmt(self, room: &mut [u8]) -> Result<usize, Reason>
        ensures { InRoom (text_in (segment_text self) room.old) (segment_text self) room.old result room.new }
    {
        let mut bytes = [0u8; 22];
        let mut text = Text::new(&mut bytes);
        self.put(&mut text);
        text.write(room)
    }

    // Its text, after what is typed already.
    #[inline(always)]
    pub fn put(self, text: &mut Text<'_>)
        ensures { Puts text.old text.new (segment_text self) }
    {
        if self.end <= self.start {
            text.put_bytes(b"(empty)");
        } else {
            text.put_hex8(b"0x", self.start);
            text.put_hex8(b"..0x", self.end);
        }
    }
}
