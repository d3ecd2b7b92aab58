// src/sync_manager_channel.rs: the bytes of a channel that are made up of fields, each way.
#![tactic(auto)]

ghost use Rattle.std.specs.Prelude.{◌≡◌, ◌||◌, [], ◌∷◌, ◌<◌, eqb};
ghost use Rattle.channel_bytes.specs.Bytes as meaning;
ghost use Rattle.channel_bytes.specs.Bytes.{mode_number, mode_at, mode_unnamed, direction_number, direction_at, direction_unnamed, state_number, state_at, control_at, control_byte, status_at, status_byte, enable_at, enable_low, enable_high};

// ETG1000.4 6.7.2, byte 4.
#[derive(Clone, Copy, Debug, PartialEq, Eq)]
pub struct Control {
    pub operation_mode: OperationMode,
    pub direction: Direction,
    pub ecat_event_enable: bool,
    pub dls_user_event_enable: bool,
    pub watchdog_enable: bool,
}

// Byte 5.
#[derive(Clone, Copy, Debug, PartialEq, Eq)]
pub struct Status {
    pub has_write_event: bool,
    pub has_read_event: bool,
    pub mailbox_full: bool,
    pub buffer_state: BufferState,
    pub read_buffer_open: bool,
    pub write_buffer_open: bool,
}

// Bytes 6 and 7.
#[derive(Clone, Copy, Debug, PartialEq, Eq)]
pub struct Enable {
    pub enable: bool,
    pub repeat: bool,
    pub enable_dc_event_bus_write: bool,
    pub enable_dc_event_local_write: bool,
    pub channel_pdi_disabled: bool,
    pub repeat_ack: bool,
}

// The case with a number is for one that has no name; whoever makes one may put any number there.
#[derive(Clone, Copy, Debug, PartialEq, Eq)]
pub enum OperationMode {
    Normal,
    Mailbox,
    Unnamed(u8),
}

#[derive(Clone, Copy, Debug, PartialEq, Eq)]
pub enum Direction {
    MasterRead,
    MasterWrite,
    Unnamed(u8),
}

#[derive(Clone, Copy, Debug, PartialEq, Eq)]
pub enum BufferState {
    First,
    Second,
    Third,
    Next,
}

impl OperationMode {
    // The number that stands for it; in two choices, so that the compiler makes a mask of reading a byte and writing it again.
    pub fn number(self) -> u8
        ensures { result ≡ mode_number self }
    {
        let given = self.unnamed().unwrap_or(0);
        match self {
            OperationMode::Mailbox => 2,
            _ => given,
        }
    }

    // The number of the case with a number.
    fn unnamed(self) -> Option<u8>
        ensures { result ≡ mode_unnamed self }
    {
        match self {
            OperationMode::Unnamed(number) => Some(number),
            _ => None,
        }
    }
}

impl From<u8> for OperationMode {
    ghost from_gives = { λ n r. r ≡ mode_at n };

    fn from(number: u8) -> OperationMode {
        match number {
            0 => OperationMode::Normal,
            2 => OperationMode::Mailbox,
            _ => OperationMode::Unnamed(number),
        }
    }
}

// As a mode, but each names cases of its own: one impl for both would be no plainer.
impl Direction {
    // The number that stands for it, likewise.
    pub fn number(self) -> u8
        ensures { result ≡ direction_number self }
    {
        let given = self.unnamed().unwrap_or(0);
        match self {
            Direction::MasterWrite => 1,
            _ => given,
        }
    }

    // The number of the case with a number.
    fn unnamed(self) -> Option<u8>
        ensures { result ≡ direction_unnamed self }
    {
        match self {
            Direction::Unnamed(number) => Some(number),
            _ => None,
        }
    }
}

impl From<u8> for Direction {
    ghost from_gives = { λ n r. r ≡ direction_at n };

    fn from(number: u8) -> Direction {
        match number {
            0 => Direction::MasterRead,
            1 => Direction::MasterWrite,
            _ => Direction::Unnamed(number),
        }
    }
}

// Whether an unnamed number is one of the two that have names, or above 3.
fn wrong_number(unnamed: Option<u8>, one: u8, other: u8) -> bool
    ensures { result ≡ meaning.wrong_number (λ n. eqb n one || eqb n other) unnamed }
{
    unnamed.is_some_and(|number| number == one || number == other || 3 < number)
}

impl BufferState {
    // The number that stands for it.
    pub fn number(self) -> u8
        ensures { (result ≡ state_number self) × (result < 4) }
    {
        self as u8
    }
}

impl From<u8> for BufferState {
    ghost from_gives = { λ n r. r ≡ state_at n };

    fn from(number: u8) -> BufferState {
        match number {
            0 => BufferState::First,
            1 => BufferState::Second,
            2 => BufferState::Third,
            _ => BufferState::Next,
        }
    }
}

impl Control {
    // The control that a byte says; its reserved bit is dropped.
    pub fn unpack(byte: u8) -> Control
        ensures { result ≡ control_at byte }
    {
        Control {
            operation_mode: OperationMode::from(byte & 0x03),
            direction: Direction::from((byte >> 2) & 0x03),
            ecat_event_enable: wire::flag(byte, 4),
            dls_user_event_enable: wire::flag(byte, 5),
            watchdog_enable: wire::flag(byte, 6),
        }
    }

    // Whether its mode or its direction is the case with a number, whatever the number.
    #[tactic(auto, unfolding(crate::specs::Bytes::unnamed))]
    pub fn unnamed(self) -> bool
        ensures { result ≡ meaning.unnamed self }
    {
        self.operation_mode.unnamed().is_some() || self.direction.unnamed().is_some()
    }

    // 13: whether an unnamed number is one that is named, or above 3.
    #[tactic(auto, unfolding(crate::specs::Bytes::misnumbered))]
    pub fn misnumbered(self) -> bool
        ensures { result ≡ meaning.misnumbered self }
    {
        wrong_number(self.operation_mode.unnamed(), 0, 2)
            || wrong_number(self.direction.unnamed(), 0, 1)
    }

    // The byte of a control: of an unnamed number its low two bits, and the reserved bit is 0.
    pub fn pack(self) -> u8
        ensures { result ≡ control_byte self }
    {
        (self.operation_mode.number() & 0x03)
            | ((self.direction.number() & 0x03) << 2)
            | (u8::from(self.ecat_event_enable) << 4)
            | (u8::from(self.dls_user_event_enable) << 5)
            | (u8::from(self.watchdog_enable) << 6)
    }
}

impl Status {
    // The status that a byte says.
    pub fn unpack(byte: u8) -> Status
        ensures { result ≡ status_at byte }
    {
        Status {
            has_write_event: wire::flag(byte, 0),
            has_read_event: wire::flag(byte, 1),
            mailbox_full: wire::flag(byte, 3),
            buffer_state: BufferState::from((byte >> 4) & 0x03),
            read_buffer_open: wire::flag(byte, 6),
            write_buffer_open: wire::flag(byte, 7),
        }
    }

    // The byte of a status; its reserved bit is 0.
    pub fn pack(self) -> u8
        ensures { result ≡ status_byte self }
    {
        u8::from(self.has_write_event)
            | (u8::from(self.has_read_event) << 1)
            | (u8::from(self.mailbox_full) << 3)
            | (self.buffer_state.number() << 4)
            | (u8::from(self.read_buffer_open) << 6)
            | (u8::from(self.write_buffer_open) << 7)
    }
}

impl Enable {
    // What the two bytes of enable say.
    pub fn unpack(low: u8, high: u8) -> Enable
        ensures { result ≡ enable_at low high }
    {
        Enable {
            enable: wire::flag(low, 0),
            repeat: wire::flag(low, 1),
            enable_dc_event_bus_write: wire::flag(low, 6),
            enable_dc_event_local_write: wire::flag(low, 7),
            channel_pdi_disabled: wire::flag(high, 0),
            repeat_ack: wire::flag(high, 1),
        }
    }

    // Its two bytes; reserved bits are 0.
    pub fn pack(self) -> [u8; 2]
        ensures { result ≡ enable_low self ∷ enable_high self ∷ [] }
    {
        [
            u8::from(self.enable)
                | (u8::from(self.repeat) << 1)
                | (u8::from(self.enable_dc_event_bus_write) << 6)
                | (u8::from(self.enable_dc_event_local_write) << 7),
            u8::from(self.channel_pdi_disabled) | (u8::from(self.repeat_ack) << 1),
        ]
    }
}
