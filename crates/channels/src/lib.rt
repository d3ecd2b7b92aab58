// The images of the sync managers: `write_sm_config` of configuration.rs, over a whole area.
#![tactic(auto)]

ghost use Rattle.std.specs.Prelude.{◌≡◌};
ghost use Rattle.std.proofs.Math.Option.{some};
ghost use Rattle.grammar.specs.Grammar.{manager_place};
ghost use Rattle.sheet.specs.Sheet.{manager_at, managers_in};
ghost use Rattle.channels.specs.Channels.{channel_for, written, channels_after, channel_area, wanted_size, size_by};

use pdi::ByteLen;
use sheet::SyncManager;
use sync_manager_channel::{Enable, Status, SyncManagerChannel};

// The channel of a sync manager of a given size: enabled only if the sheet says so and there is something to map.
pub fn sm_config(manager: SyncManager, size: ByteLen) -> SyncManagerChannel
    ensures { result ≡ channel_for manager size.0 }
{
    let control = manager.control;
    SyncManagerChannel {
        physical_start_address: manager.start_addr,
        length_bytes: size,
        control,
        status: Status::unpack(0),
        enable: Enable {
            enable: manager.enable && 0 < size.0,
            repeat: false,
            enable_dc_event_bus_write: false,
            enable_dc_event_local_write: false,
            channel_pdi_disabled: false,
            repeat_ack: false,
        },
    }
}

// Writes the image of a sheet's sync manager, with a size, into its entry; an area that isn't 128 bytes stays.
pub fn write_channel(area: &mut [u8], sheet: &[u8], k: u8, size: ByteLen)
    ensures { area.new ≡ channel_area (written k (manager_at sheet.now (manager_place k)) (some size.0)) area.old }
{
    if area.len() == 128 {
        let image = sm_config(sheet::manager(sheet, k), size).pack();
        area::store_entry(&image, area, 8 * usize::from(k));
    }
}

// Writes it if the sync manager has process data.
fn write_wanted(area: &mut [u8], sheet: &[u8], k: u8, size: ByteLen)
    ensures { area.new ≡ channel_area (written k (manager_at sheet.now (manager_place k)) (wanted_size size.0 (manager_at sheet.now (manager_place k)))) area.old }
{
    if pdo::is_data(sheet::usage_of(sheet, k)) {
        write_channel(area, sheet, k, size);
    }
}

// Writes the images of the sync managers with process data, each with its size, in rising number; all other bytes stay.
pub fn write_channels(area: &mut [u8], sheet: &[u8], sizes: [ByteLen; 16])
    ensures { area.new ≡ channel_area (channels_after (size_by sizes) 0 (managers_in sheet.now)) area.old }
{
    for k in 0..sheet::front_count(sheet) {
        write_wanted(area, sheet, k, sizes[usize::from(k)]);
    }
}
