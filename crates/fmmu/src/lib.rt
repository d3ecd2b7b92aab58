// src/fmmu.rs: one entry of the fieldbus memory management unit, its image of sixteen bytes and its text.
#![tactic(auto)]

ghost use Rattle.std.specs.Prelude.{◌≡◌};
ghost use Rattle.wire.specs.Room.{InRoom, text_in};
ghost use Rattle.wire.specs.Text.{Puts};
ghost use Rattle.fmmu.specs.Image.{fields_of, image_of, too_wide, read_entry, write_entry, fmmu_read_of};
ghost use Rattle.fmmu.specs.Text.{logical_text, access_text, physical_text, fmmu_text};

use pdi::ByteLen;
use wire::{Reason, Text};

// An entry: which bytes of the process data image it maps, and to which device address.
#[derive(Clone, Copy, Debug, PartialEq, Eq)]
pub struct Fmmu {
    pub logical_start_address: u32,
    pub length_bytes: ByteLen,
    pub logical_start_bit: u8,
    pub logical_end_bit: u8,
    pub physical_start_address: u16,
    pub physical_start_bit: u8,
    pub read_enable: bool,
    pub write_enable: bool,
    pub enable: bool,
}

impl Fmmu {
    // The entry that sixteen bytes say; reserved bits are dropped.
    pub fn unpack(image: [u8; 16]) -> Fmmu
        ensures { result ≡ fields_of image }
    {
        Fmmu {
            logical_start_address: u32::from_le_bytes([image[0], image[1], image[2], image[3]]),
            length_bytes: ByteLen(u16::from_le_bytes([image[4], image[5]])),
            logical_start_bit: image[6] & 0x07,
            logical_end_bit: image[7] & 0x07,
            physical_start_address: u16::from_le_bytes([image[8], image[9]]),
            physical_start_bit: image[10] & 0x07,
            read_enable: wire::flag(image[11], 0),
            write_enable: wire::flag(image[11], 1),
            enable: wire::flag(image[12], 0),
        }
    }

    // The entry that lent bytes say, if they are sixteen.
    pub fn unpack_from_slice(buf: &[u8]) -> Result<Fmmu, Reason>
        ensures { fmmu_read_of result ≡ read_entry buf.now }
    {
        Ok(Fmmu::unpack(wire::image_in(buf)?))
    }

    // The sixteen bytes of an entry; of a bit field its three bits, reserved bits 0.
    pub fn pack(self) -> [u8; 16]
        ensures { result ≡ image_of self }
    {
        let start = self.logical_start_address.to_le_bytes();
        let length = self.length_bytes.0.to_le_bytes();
        let physical = self.physical_start_address.to_le_bytes();
        [
            start[0],
            start[1],
            start[2],
            start[3],
            length[0],
            length[1],
            self.logical_start_bit & 0x07,
            self.logical_end_bit & 0x07,
            physical[0],
            physical[1],
            self.physical_start_bit & 0x07,
            u8::from(self.read_enable) | u8::from(self.write_enable) << 1,
            u8::from(self.enable),
            0,
            0,
            0,
        ]
    }

    // The image into lent room of sixteen bytes.
    pub fn pack_to_slice(self, buf: &mut [u8]) -> Result<usize, Reason>
        ensures { InRoom (write_entry self buf.old) (image_of self) buf.old result buf.new }
    {
        wire::write_image(self.pack(), self.too_wide(), buf)
    }

    // Whether a bit field is above 7.
    #[tactic(auto, unfolding(crate::specs::Image::too_wide))]
    fn too_wide(self) -> bool
        ensures { result ≡ too_wide self }
    {
        7 < self.logical_start_bit || 7 < self.logical_end_bit || 7 < self.physical_start_bit
    }

    // Its text, into lent room. It is typed, since std's Display says what it wrote where it succeeds, and not that it does.
    pub fn fmt(self, room: &mut [u8]) -> Result<usize, Reason>
        ensures { InRoom (text_in (fmmu_text self) room.old) (fmmu_text self) room.old result room.new }
    {
        let mut bytes = [0u8; 128];
        let mut text = Text::new(&mut bytes);
        self.put(&mut text);
        text.write(room)
    }

    // Its text, after what is typed already.
    #[inline(always)]
    pub fn put(self, text: &mut Text<'_>)
        ensures { Puts text.old text.new (fmmu_text self) }
    {
        self.put_logical(text);
        self.put_physical(text);
    }

    // The half about the process data image.
    #[inline(always)]
    fn put_logical(self, text: &mut Text<'_>)
        ensures { Puts text.old text.new (logical_text self) }
    {
        text.put_hex8(b"logical start 0x", self.logical_start_address);
        text.put_decimal(b":", u16::from(self.logical_start_bit));
        text.put_decimal(b", size ", self.length_bytes.0);
        text.put_decimal(b", logical end bit ", u16::from(self.logical_end_bit));
    }

    // The half about the device.
    #[inline(always)]
    fn put_physical(self, text: &mut Text<'_>)
        ensures { Puts text.old text.new (physical_text self) }
    {
        text.put_hex4(b", physical start 0x", self.physical_start_address);
        text.put_decimal(b":", u16::from(self.physical_start_bit));
        self.put_access(text);
    }

    // What it lets through, and whether it is on.
    #[inline(always)]
    fn put_access(self, text: &mut Text<'_>)
        ensures { Puts text.old text.new (access_text self) }
    {
        text.put_either(self.read_enable, b", R", b", ");
        text.put_either(self.write_enable, b"W, ", b"O, ");
        text.put_either(self.enable, b"enabled", b"disabled");
    }
}
