// The text of a plan, typed line by line.
#![tactic(auto)]

ghost use Rattle.std.specs.Prelude.{take};
ghost use Rattle.wire.specs.Text.{page, Types, Puts};
ghost use Rattle.pdi.specs.Segment.{segment_text};
ghost use Rattle.area.specs.Area.{area_of, entries_of};
ghost use Rattle.lines.specs.Text.{line, numbered, image_line, enabled_line, lines, refused_text, bay_text};

use fmmu::Fmmu;
use pdi::PdiSegment;
use sync_manager_channel::SyncManagerChannel;
use wire::Text;

// The front of a numbered line.
fn put_front(text: &mut Text<'_>, name: &[u8], k: u16)
    ensures { Puts text.old text.new (numbered name.now k) }
{
    text.put_decimal(name, k);
    text.put_bytes(b": ");
}

// A segment's line.
fn put_segment(text: &mut Text<'_>, front: &[u8], segment: PdiSegment)
    ensures { Puts text.old text.new (line front.now (segment_text segment)) }
{
    text.put_bytes(front);
    segment.put(text);
    text.put_bytes(b"\n");
}

// A sync manager's line.
fn put_channel(text: &mut Text<'_>, k: u16, image: [u8; 8])
    ensures { Puts text.old text.new (image_line k image) }
{
    let channel = SyncManagerChannel::unpack(image);
    put_front(text, b"SM", k);
    channel.put(text);
    text.put_bytes(b"\n");
}

// An entry's line, if it is enabled.
fn put_entry(text: &mut Text<'_>, k: u16, image: [u8; 16])
    ensures { Puts text.old text.new (enabled_line k image) }
{
    let entry = Fmmu::unpack(image);
    if entry.enable {
        put_front(text, b"FMMU", k);
        entry.put(text);
        text.put_bytes(b"\n");
    }
}

// The lines of the first n sync managers of an area.
fn put_channels(text: &mut Text<'_>, channels: &[u8], n: u8)
    ensures { Puts text.old text.new (lines image_line 0 (take n (entries_of 8 (area_of 128 channels.now)))) }
{
    for k in 0..n.min(16) {
        let image = area::entry_at(channels, usize::from(k));
        put_channel(text, u16::from(k), image);
    }
}

// The lines of an area's enabled entries. Only the `for` is as above, so that one for both would be no plainer.
fn put_entries(text: &mut Text<'_>, fmmus: &[u8])
    ensures { Puts text.old text.new (lines enabled_line 0 (entries_of 16 (area_of 256 fmmus.now))) }
{
    for k in 0..16 {
        let image = area::entry_at(fmmus, usize::from(k));
        put_entry(text, k, image);
    }
}

// Only the refusal.
pub fn put_refused(room: &mut [u8], number: u8) -> usize
    ensures { Types (page room.old 0) (page room.new result) (refused_text number) }
{
    let mut text = Text::new(room);
    text.put_decimal(b"refused ", u16::from(number));
    text.put_bytes(b"\n");
    text.len
}

// A bay that is planned; `n` is its number of sync managers.
pub fn put_bay(
    room: &mut [u8],
    n: u8,
    inputs: PdiSegment,
    outputs: PdiSegment,
    fmmus: &[u8],
    channels: &[u8],
) -> usize
    ensures { Types (page room.old 0) (page room.new result) (bay_text n inputs outputs fmmus.now channels.now) }
{
    let mut text = Text::new(room);
    put_segment(&mut text, b"inputs ", inputs);
    put_segment(&mut text, b"outputs ", outputs);
    put_channels(&mut text, channels, n);
    put_entries(&mut text, fmmus);
    text.len
}
