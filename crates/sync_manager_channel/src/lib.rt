// src/sync_manager_channel.rs: a sync manager channel, its image of eight bytes and its text.
#![tactic(auto)]

ghost use Rattle.std.specs.Prelude.{◌≡◌};
ghost use Rattle.wire.specs.Room.{InRoom, text_in};
ghost use Rattle.wire.specs.Text.{Puts};
ghost use Rattle.sync_manager_channel.specs.Image.{channel_of, image_of, read_channel, write_channel, channel_read_of};
ghost use Rattle.sync_manager_channel.specs.Text.{area_text, direction_text, mode_text, settings_text, channel_text};

pub use channel_bytes::{BufferState, Control, Direction, Enable, OperationMode, Status};
use pdi::ByteLen;
use wire::{Reason, Text};

// One channel of ETG1000.4 6.7.2.
#[derive(Clone, Copy, Debug, PartialEq, Eq)]
pub struct SyncManagerChannel {
    pub physical_start_address: u16,
    pub length_bytes: ByteLen,
    pub control: Control,
    pub status: Status,
    pub enable: Enable,
}

impl SyncManagerChannel {
    // The channel that eight bytes say; reserved bits are dropped.
    pub fn unpack(image: [u8; 8]) -> SyncManagerChannel
        ensures { result ≡ channel_of image }
    {
        SyncManagerChannel {
            physical_start_address: u16::from_le_bytes([image[0], image[1]]),
            length_bytes: ByteLen(u16::from_le_bytes([image[2], image[3]])),
            control: Control::unpack(image[4]),
            status: Status::unpack(image[5]),
            enable: Enable::unpack(image[6], image[7]),
        }
    }

    // The channel that lent bytes say, if they are eight.
    pub fn unpack_from_slice(buf: &[u8]) -> Result<SyncManagerChannel, Reason>
        ensures { channel_read_of result ≡ read_channel buf.now }
    {
        Ok(SyncManagerChannel::unpack(wire::image_in(buf)?))
    }

    // The eight bytes of a channel; of an unnamed number its low two bits, reserved bits 0.
    pub fn pack(self) -> [u8; 8]
        ensures { result ≡ image_of self }
    {
        let start = self.physical_start_address.to_le_bytes();
        let length = self.length_bytes.0.to_le_bytes();
        let enables = self.enable.pack();
        [
            start[0],
            start[1],
            length[0],
            length[1],
            self.control.pack(),
            self.status.pack(),
            enables[0],
            enables[1],
        ]
    }

    // The image into lent room of eight bytes.
    pub fn pack_to_slice(self, buf: &mut [u8]) -> Result<usize, Reason>
        ensures { InRoom (write_channel self buf.old) (image_of self) buf.old result buf.new }
    {
        wire::write_image(self.pack(), self.control.misnumbered(), buf)
    }

    // Its text, into lent room. It is typed, since std's Display says what it wrote where it succeeds, and not that it does.
    pub fn fmt(self, room: &mut [u8]) -> Result<usize, Reason>
        ensures { InRoom (text_in (channel_text self) room.old) (channel_text self) room.old result room.new }
    {
        let mut bytes = [0u8; 96];
        let mut text = Text::new(&mut bytes);
        self.put(&mut text);
        text.write(room)
    }

    // Its text, after what is typed already.
    #[inline(always)]
    pub fn put(self, text: &mut Text<'_>)
        ensures { Puts text.old text.new (channel_text self) }
    {
        self.put_area(text);
        self.put_settings(text);
    }

    // Where it lies.
    #[inline(always)]
    fn put_area(self, text: &mut Text<'_>)
        ensures { Puts text.old text.new (area_text self) }
    {
        text.put_hex4(b"start 0x", self.physical_start_address);
        text.put_hex4(b", size 0x", self.length_bytes.0);
        text.put_decimal(b" (", self.length_bytes.0);
        text.put_bytes(b")");
    }

    // What it does, and whether it is on.
    #[inline(always)]
    fn put_settings(self, text: &mut Text<'_>)
        ensures { Puts text.old text.new (settings_text self) }
    {
        put_direction(text, self.control.direction);
        put_mode(text, self.control.operation_mode);
        text.put_bytes(b", ");
        text.put_either(self.enable.enable, b"enabled", b"disabled");
    }
}

// The name of a direction, or its number.
#[inline(always)]
fn put_direction(text: &mut Text<'_>, direction: Direction)
    ensures { Puts text.old text.new (direction_text direction) }
{
    match direction {
        Direction::MasterRead => text.put_bytes(b", direction MasterRead"),
        Direction::MasterWrite => text.put_bytes(b", direction MasterWrite"),
        Direction::Unnamed(n) => text.put_decimal(b", direction unnamed ", u16::from(n)),
    }
}

// The name of a mode, or its number. Its words are its own, so one function for both kinds would be no plainer.
#[inline(always)]
fn put_mode(text: &mut Text<'_>, mode: OperationMode)
    ensures { Puts text.old text.new (mode_text mode) }
{
    match mode {
        OperationMode::Normal => text.put_bytes(b", mode Normal"),
        OperationMode::Mailbox => text.put_bytes(b", mode Mailbox"),
        OperationMode::Unnamed(n) => text.put_decimal(b", mode unnamed ", u16::from(n)),
    }
}
