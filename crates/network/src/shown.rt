//! What is shown of a network: to its stations in a beacon or a probe response, and to people in its table.

ghost use Rattle.std.specs.Prelude.{◌≡◌, List, length};
ghost use Rattle.beacon.specs.ProbeResponse.{announced};
ghost use Rattle.powersave.specs.Keep.{Entry, units_for};
ghost use Rattle.powersave.specs.declared.unit.Whom.TheVariants as whoms;
ghost use Rattle.network.specs.Network.{announced_at, row_of};

use ap_config::Setting;
use beacon::Advert;
use events::StationRow;
use mac_frame::MacAddr;
use station_state::{Standing, StationState};

/// The network of this setting as it announces itself at this clock, in a frame with this sequence number.
pub fn announcement(setting: &Setting, clock: u32, sequence: u16) -> Advert<'_>
    ensures network { announced result ≡ announced_at setting.now clock }
    ensures sequence { result.seq ≡ sequence }
{
    Advert {
        bss: setting.network.bssid,
        ssid: setting.network.ssid.as_slice(),
        rates: setting.network.rates.as_slice(),
        channel: setting.channel,
        interval: setting.interval,
        clock,
        seq: sequence,
    }
}

/// The row of a station in this state, for which `kept` units are kept.
pub fn row_of(addr: MacAddr, state: StationState, kept: u32) -> StationRow
    ensures { (entries : List Entry) → kept ≡ length (units_for (whoms.One addr) entries)
        → result ≡ row_of entries (addr, state) }
{
    match state {
        StationState::Authenticated => StationRow {
            addr,
            standing: Standing::Authenticated,
            aid: 0,
            listen: 0,
            doze: false,
            kept,
        },
        StationState::Associated { aid, listen, doze } => StationRow {
            addr,
            standing: Standing::Associated,
            aid,
            listen,
            doze,
            kept,
        },
    }
}
