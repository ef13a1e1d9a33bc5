//! A run with threads as a run of steps.

ghost use Rattle.std.specs.Prelude.{◌≡◌, List, None, length};
ghost use Rattle.ap_config.specs.Configuration.{fault_of};
ghost use Rattle.ap_config.specs.declared.config.RadioConfig.{RadioConfig};
ghost use Rattle.events.specs.declared.line.Line.{Line};
ghost use Rattle.play.specs.Played.{IsPlayOf};
ghost use Rattle.play.specs.Sections.{ArePlaced, AreSections, HaveLeft};
ghost use Rattle.play.specs.declared.finished.Finished.{Finished};
ghost use Rattle.thread_laws.specs.Steps.{AreGivenBy, steps_of};

/// What an access point of threads ends with, if its configuration has no fault, is what some steps of a radio give.
/// Each network takes its events, and then each frame that left is handed to the air queue and leaves, in the same
/// order (*profile*). No frame is queued after them.
///
/// That the configuration has no fault, `Parts::open` ensures for `Ap::finish`, and `play` if it ends well. The other
/// conditions of `ended` are what `Ap::finish` and `play` of `workers` ensure if they end well. The other one of
/// `played` is what `play` ensures; what `play_with_frames` of `play` answers are the networks of such an end.
pub fn as_steps()
    ensures ended { (config : RadioConfig) (end : Finished) → fault_of config ≡ None
        → length end.sections ≡ length config.networks → AreSections config end.sections
        → HaveLeft end.sections end.left → ArePlaced config end.left
        → AreGivenBy config (steps_of end.sections end.left) end.sections end.left }
    ensures played { (config : RadioConfig) (sources : List (List Line)) (end : Finished) → fault_of config ≡ None
        → IsPlayOf config sources end
        → AreGivenBy config (steps_of end.sections end.left) end.sections end.left }
{}
