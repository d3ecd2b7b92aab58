// What stands where in a request.
use passes::{Both, FmmuPair};
use pdi::PdiOffset;
use pdo::{Oversampling, PdoDirection};

// What stands in a list where nothing is put.
pub const NO_RECORD: Oversampling = Oversampling {
    pdo_index: 0,
    multiplier: 0,
};

pub const NO_PAIR: FmmuPair = FmmuPair {
    fmmu: 0,
    sync_manager: 0,
};

// Big-endian numbers of two, four and eight bytes, whose lacking bytes are 0.
pub fn number2(bytes: &[u8], at: u16) -> u16 {
    let from = usize::from(at);
    u16::from_be_bytes([wire::byte_at(bytes, from), wire::byte_at(bytes, from + 1)])
}

pub fn number4(bytes: &[u8], at: u16) -> u32 {
    let from = usize::from(at);
    u32::from_be_bytes([
        wire::byte_at(bytes, from),
        wire::byte_at(bytes, from + 1),
        wire::byte_at(bytes, from + 2),
        wire::byte_at(bytes, from + 3),
    ])
}

pub fn number8(bytes: &[u8], at: u8) -> u64 {
    let from = u16::from(at);
    joined(number4(bytes, from), number4(bytes, from + 4))
}

// Two numbers of four bytes as one of eight.
pub fn joined(high: u32, low: u32) -> u64 {
    (u64::from(high) << 32) | u64::from(low)
}

// The front of a buffer that is written, as `wire::front` of one that is read.
pub fn front_mut(bytes: &mut [u8], count: usize) -> &mut [u8] {
    let n = count.min(bytes.len());
    &mut bytes[..n]
}

// `count` bytes from a place on, as far as there are any.
pub fn part(bytes: &[u8], from: usize, count: usize) -> &[u8] {
    wire::front(wire::behind(bytes, from), count)
}

// A part's bytes copied to the front of a buffer, which is lent on.
pub fn copied<'a>(part: &[u8], to: &'a mut [u8]) -> &'a mut [u8] {
    wire::copy(part, to);
    front_mut(to, part.len())
}

fn record_of(bytes: &[u8]) -> Oversampling {
    Oversampling {
        pdo_index: number2(bytes, 0),
        multiplier: wire::byte_at(bytes, 2),
    }
}

fn pair_of(bytes: &[u8]) -> FmmuPair {
    FmmuPair {
        fmmu: wire::byte_at(bytes, 0),
        sync_manager: wire::byte_at(bytes, 1),
    }
}

// A request: a head of 28 bytes, then its parts without gaps.
#[derive(Clone, Copy)]
pub struct Request<'a>(pub &'a [u8]);

impl<'a> Request<'a> {
    pub fn letter(self) -> u8 {
        wire::byte_at(self.0, 0)
    }

    // A direction, or how to call.
    pub fn byte1(self) -> u8 {
        wire::byte_at(self.0, 1)
    }

    pub fn room(self) -> u16 {
        number2(self.0, 2)
    }

    pub fn a(self) -> u32 {
        number4(self.0, 4)
    }

    pub fn b(self) -> u32 {
        number4(self.0, 8)
    }

    pub fn c(self) -> u32 {
        number4(self.0, 12)
    }

    pub fn times(self) -> u32 {
        number4(self.0, 16)
    }

    // How long the parts are: the table in records, the others in bytes.
    pub fn sheet_length(self) -> u16 {
        number2(self.0, 20)
    }

    pub fn records(self) -> u16 {
        number2(self.0, 22)
    }

    pub fn fmmus_length(self) -> u16 {
        number2(self.0, 24)
    }

    pub fn channels_length(self) -> u16 {
        number2(self.0, 26)
    }

    pub fn parts_length(self) -> usize {
        usize::from(self.sheet_length())
            + 3 * usize::from(self.records())
            + usize::from(self.fmmus_length())
            + usize::from(self.channels_length())
    }

    fn behind_head(self) -> &'a [u8] {
        wire::behind(self.0, 28)
    }

    fn behind_sheet(self) -> &'a [u8] {
        wire::behind(self.behind_head(), usize::from(self.sheet_length()))
    }

    fn behind_table(self) -> &'a [u8] {
        wire::behind(self.behind_sheet(), 3 * usize::from(self.records()))
    }

    fn behind_fmmus(self) -> &'a [u8] {
        wire::behind(self.behind_table(), usize::from(self.fmmus_length()))
    }

    pub fn sheet(self) -> &'a [u8] {
        wire::front(self.behind_head(), usize::from(self.sheet_length()))
    }

    pub fn fmmus(self) -> &'a [u8] {
        wire::front(self.behind_table(), usize::from(self.fmmus_length()))
    }

    pub fn channels(self) -> &'a [u8] {
        wire::front(self.behind_fmmus(), usize::from(self.channels_length()))
    }

    // The table, put at the front of a list, which is lent on.
    pub fn table<'b>(self, list: &'b mut [Oversampling; 256]) -> &'b [Oversampling] {
        let bytes = wire::front(self.behind_sheet(), 3 * usize::from(self.records()));
        let count = usize::from(self.records()).min(256);
        for (place, record) in list.iter_mut().zip(bytes.chunks_exact(3)) {
            *place = record_of(record);
        }
        &list[..count]
    }

    // The pairs stand at the front of the FMMU part: as many as the room says, as far as they are whole.
    fn pairs_length(self) -> usize {
        let whole = self.fmmus().len() / 2 * 2;
        whole.min(2 * usize::from(self.room()))
    }

    // They are put at the front of a list, which is lent on.
    pub fn pairs<'b>(self, list: &'b mut [FmmuPair; 256]) -> &'b [FmmuPair] {
        let bytes = wire::front(self.fmmus(), self.pairs_length());
        let count = (bytes.len() / 2).min(256);
        for (place, pair) in list.iter_mut().zip(bytes.chunks_exact(2)) {
            *place = pair_of(pair);
        }
        &list[..count]
    }

    // What stands behind the pairs in the FMMU part.
    pub fn behind_pairs(self) -> &'a [u8] {
        wire::behind(self.fmmus(), self.pairs_length())
    }

    pub fn direction(self) -> PdoDirection {
        match self.byte1() {
            0 => PdoDirection::MasterRead,
            _ => PdoDirection::MasterWrite,
        }
    }

    // a, as an offset.
    pub fn offset(self) -> PdiOffset {
        PdiOffset {
            start_address: self.a(),
        }
    }

    // a and c, as the offsets of inputs and outputs.
    pub fn offsets(self) -> Both<PdiOffset> {
        Both {
            inputs: self.offset(),
            outputs: PdiOffset {
                start_address: self.c(),
            },
        }
    }
}
