//! Several sources that feed one access point at the same time (*profile*).

ghost use Rattle.std.specs.Prelude.{◌≡◌, ◌≢◌, ◌↔◌, None, Some, Err, IfOk, vec_len, length, map, false};
ghost use Rattle.ap_config.specs.Configuration.{fault_of};
ghost use Rattle.ap_config.specs.declared.config.ConfigFault.{ConfigFault};
ghost use Rattle.play.specs.Sections.{AreSections, HaveLeft, ArePlaced};
ghost use Rattle.play.specs.Played.{ArePlayed};
ghost use Rattle.play.specs.Faults.{callers_fit};
ghost use Rattle.play.specs.Givers.{AreGivers, histories_of};
ghost use Rattle.play.specs.declared.finish_fault.FinishFault.{FinishFault};
ghost use Rattle.play.specs.declared.finish_fault.FinishFault.TheVariants as ends;

use ap_config::{ConfigFault, RadioConfig};
use events::Line;
use play::{FinishFault, Finished, Gate, PlayFault, play_finished};
use std::alloc::Global;
use std::sync::Wait;
use std::thread::Threads;

/// Feeds the sources' lines into an access point of this configuration, each source by a thread of its own, and
/// finishes it (*profile*). A source's thread calls the gate before each line, and gives the line to each network that
/// hears it; a `Wire` line whose place is not there does nothing. Frames leave meanwhile by the air queue of the
/// configuration, and the last once all sources have ended.
///
/// `Config` with the first fault exactly if the configuration has one, else `Sources` exactly if there are not 1
/// to 64 of them; then the first of these that there is: `NoThread` if a thread could not be started, `NoMemory`
/// if the program or a network ran out of memory. `Finish`, with `Uncovered` and no other, would tell that a network
/// was not given all lines of each source, or that a frame of it still waits: no clause excludes it, and no test has
/// met it. It may wait for other threads.
pub fn play<G: Gate + Sync, R: Threads + Wait + Sync>(
    rt: &R,
    alloc: Global,
    config: RadioConfig,
    sources: Vec<Vec<Line>>,
    gate: &G,
) -> Result<Finished, PlayFault>
    ensures config { (fault : ConfigFault) → (result ≡ Err (PlayFault.Config fault)) ↔ (fault_of config ≡ Some fault) }
    ensures sources { (result ≡ Err PlayFault.Sources) ↔
        ((fault_of config ≡ None) × (callers_fit (vec_len sources) ≡ false)) }

    // If memory ran out it is `NoMemory`, also while the access point is finished.
    ensures memory { result ≢ Err (PlayFault.Finish ends.NoMemory) }

    // The one fault of finishing is that a network was not given all lines of each source, or that a frame of it waits.
    ensures finish { (fault : FinishFault) → result ≡ Err (PlayFault.Finish fault) → fault ≡ ends.Uncovered }

    // Each section is that of the network alone, with its own events, as many at most as it may take.
    ensures networks { IfOk result (λ end. length end.sections ≡ length config.networks) }
    ensures sections { IfOk result (λ end. AreSections config end.sections) }

    // What left of a network is all that it sent on the air, and nothing else left.
    ensures air { IfOk result (λ end. HaveLeft end.sections end.left) }
    ensures nothing_else { IfOk result (λ end. ArePlaced config end.left) }

    // Each event of a history was given by one source, and what a source gave a network are the first of those that
    // the network hears of its lines, all of them if the network is not full.
    ensures givers { IfOk result (λ end. AreGivers (vec_len sources) (histories_of end.sections) end.givers) }
    ensures played { IfOk result (λ end.
        ArePlayed config (map (λ s. s.items) sources.items) end.sections end.givers) }
{
    play_finished(rt, alloc, config, sources.as_slice(), gate)
}
