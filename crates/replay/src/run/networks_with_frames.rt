//! The networks of a configuration without their histories, and the report of them.

ghost use Rattle.std.specs.Prelude.{◌≡◌, ◌+◌, [], None, Ok, IfOk, flat_map};
ghost use Rattle.ap_config.specs.Configuration.{fault_of};
ghost use Rattle.text_io.specs.Endings.{Ends, failures_of, ending_of};
ghost use Rattle.text_io.specs.Sinks.{MayFail, report_ending};
ghost use Rattle.network_report.specs.NetworkText.{networks_after_lines, network_text};

use ap_config::RadioConfig;
use events::LentLine;
use mac_frame::NoMemory;
use network_report::write_networks;
use networks::{KeepFrames, NetworkWithFrames, Networks};
use std::alloc::Global;
use text_io::{ReportFault, Sink};
use trace::TakeLines;

/// The networks of a configuration, in order of place, which take one line after another. They keep the frames that
/// they send, and no history.
#[derive(Drop)]
pub struct NetworksWithFrames {
    networks: Networks<NetworkWithFrames>,
}

impl TakeLines for NetworksWithFrames {
    ghost has_taken = { λ c said networks. networks.networks ≡ networks_after_lines c said };

    fn take_line(&mut self, line: LentLine<'_>) -> Result<(), NoMemory> {
        self.networks.take(&KeepFrames, line, &mut ())
    }
}

impl NetworksWithFrames {
    /// The networks of a configuration without a fault, none of which took an event. `NoMemory` if memory ran out.
    pub fn new(alloc: Global, config: RadioConfig) -> Result<NetworksWithFrames, NoMemory>
        requires { fault_of config ≡ None }
        ensures { IfOk result (λ networks. networks.networks ≡ networks_after_lines config []) }
    {
        Ok(NetworksWithFrames {
            networks: Networks::open(alloc, config)?,
        })
    }

    /// Has the sink take the report of all networks, whole.
    ///
    /// `Write` comes exactly if a write to the sink failed, and `NoMemory` if memory ran out. After either the
    /// sink has taken a prefix of the report, perhaps nothing.
    pub fn write<W: Sink>(&self, alloc: Global, out: &mut W) -> Result<(), ReportFault>
        requires { MayFail (W.failed out.old) }
        ensures ends { Ends (ending_of report_ending result) (Ok (flat_map network_text self.now.networks))
            (W.taken out.old) (W.taken out.new) }
        ensures failures { W.failed out.new ≡ W.failed out.old + failures_of report_ending result }
    {
        write_networks(alloc, self.networks.networks(), out)
    }
}
