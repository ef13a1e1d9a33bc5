//! What follows from the definitions, for whoever stands on them.

ghost use Rattle.std.specs.Prelude.{◌≡◌, ◌<◌, ◌≤◌, ◌++◌, List, [], ℕ, length, codes, map, flat_map, Some, slice_get};
ghost use Rattle.std.specs.List.{AllByRecursion};
ghost use Rattle.network.specs.Section.{sections_of_lines};
ghost use Rattle.network.specs.Network.{alone, table_of, counts_of};
ghost use Rattle.ap_config.specs.declared.config.RadioConfig.{RadioConfig};
ghost use Rattle.ap_config.specs.declared.setting.Setting.{Setting};
ghost use Rattle.events.specs.declared.event.Event.{Event};
ghost use Rattle.events.specs.declared.line.Line.{Line};
ghost use Rattle.events.specs.declared.section.Section.{Section};
ghost use Rattle.report.specs.Report.{network_line, counts_line, station_line};
ghost use Rattle.text_io.specs.Texts.{ended};
ghost use Rattle.live_rules.specs.AnswerText.{table_text};
ghost use Rattle.live_rules.specs.Answers.{Answer, Answers, answers_of, AreUnrefused};
ghost use Rattle.live_rules.specs.Asked.{Asked, asked_by_all, asked_in};
ghost use Rattle.live_rules.specs.BothFaces.{Input, IsInput, line_for, octets_for, record_for};
ghost use Rattle.live_rules.specs.BothFaces.{text_for};
ghost use Rattle.live_rules.specs.Moments.{Moment, first_moment};
ghost use Rattle.live_rules.specs.Own.{IsAlone, AreAlike, AreLines, IsLikeTrace, IsShown, IsTrace, air_at, wire_at};
ghost use Rattle.live_rules.specs.Own.{alone_after, course};
ghost use Rattle.live_rules.specs.TextLines.{lines_of_text, ended_lines, partial_in, lines_in, partial_after};
ghost use Rattle.live_rules.specs.TextLines.{last_line, Octets};
ghost use Rattle.live_rules.specs.MoreAnswers.{MoreAnswers};
ghost use Rattle.live_rules.specs.Records.{AreRecords, IsPartialRecord, IsRecord, lacking, records_ask};

use ap_config::{checked_networks, checked_numbers};
use mac_frame::address_comes_back;
use network::{one_step, reachable, steps_append};

/// The answers to what is said and then to more are those to the first, and then, from the moment that these lead to,
/// those to the rest. Whatever is said has one answer and counts as one line, and no network gets another address.
#[inline(always)]
pub fn answers_to_more()
    ensures { MoreAnswers }
{}

/// However a text is cut, the lines that end in its pieces, and the last line, are those of the whole text.
#[inline(always)]
pub fn lines_come_in_pieces()
    ensures ended { (text piece : List ℕ)
        → ended_lines (text ++ piece) ≡ ended_lines text ++ lines_in (partial_in text) piece }
    ensures partial { (text piece : List ℕ) → partial_in (text ++ piece) ≡ partial_after (partial_in text) piece }
    ensures last { (text : List ℕ) → lines_of_text text ≡ ended_lines text ++ last_line (partial_in text) }
{}

/// Octets are at most one list of records and a partial one; and however they are cut, the records that end in the
/// pieces are those of the whole. A partial record stays one with no more octets than it lacks, unless it is whole then.
#[inline(always)]
pub fn records_come_in_pieces()
    ensures one { (octets : List ℕ) (records others : List (List ℕ)) (partial rest : List ℕ)
        → AreRecords octets records partial → AreRecords octets others rest → (records ≡ others) × (partial ≡ rest) }
    ensures pieces { (octets piece : List ℕ) (records more : List (List ℕ)) (partial rest : List ℕ)
        → AreRecords octets records partial → AreRecords (partial ++ piece) more rest
        → AreRecords (octets ++ piece) (records ++ more) rest }
    ensures partial { (partial more : List ℕ) → IsPartialRecord partial → length more ≤ lacking partial
        → (IsRecord (partial ++ more) → ⊥) → IsPartialRecord (partial ++ more) }
{}

/// No network reaches another, whatever is said and however it comes. All that is answered of a network is what it does
/// alone with its own events: with what it hears of what was read, less what it refused. So are the tables that are
/// asked for, and those of the last moment.
pub fn isolation()
    ensures alone { (c : RadioConfig) (said : List Asked) (answers : List Answer) (next : Moment) (place : ℕ)
        → place < length c.networks → Answers (first_moment c) said answers next
        → IsAlone (course c said answers) place next }
    ensures shown { (s : Setting) (es : List Event) → table_text (alone_after s es)
        ≡ network_line s.network ++ counts_line (length es) (counts_of (length es) (alone s es))
        ++ flat_map station_line (table_of (alone s es)) ++ ended (codes "end") }
{
    one_step();
    steps_append();
}

/// Of two inputs in which a network has the same configuration, channel, interval and events, its frames and its last
/// table are the same, whatever the other networks are and whatever else is said.
pub fn two_inputs()
    ensures { (c d : RadioConfig) (said others : List Asked) (answers replies : List Answer) (next after : Moment)
        (p q : ℕ) → AreAlike (course c said answers) p (course d others replies) q
        → Answers (first_moment c) said answers next → Answers (first_moment d) others replies after
        → (air_at p answers ≡ air_at q replies) × (wire_at p answers ≡ wire_at q replies)
        × (slice_get next.networks p ≡ slice_get after.networks q) }
{
    isolation();
}

/// If nothing is refused for memory, the answers are the ones of `answers_of`; these may be given to whatever is
/// said, and nothing is refused in them.
#[inline(always)]
pub fn enough_memory()
    ensures only { (m : Moment) (said : List Asked) (answers : List Answer) (next : Moment)
        → Answers m said answers next → AreUnrefused answers → answers ≡ answers_of m said }
    ensures some { (m : Moment) (said : List Asked)
        → (next : Moment) × Answers m said (answers_of m said) next }
    ensures unrefused { (m : Moment) (said : List Asked) → AreUnrefused (answers_of m said) }
{}

/// Suppose that nothing but lines of a trace is said, however they come, and that nothing is refused for memory. Then a
/// network that hears no more than its history may have is told as its report tells it: the same frames, table and
/// counts.
///
/// A text says nothing else if it is a trace, so that no line of it has a fault, is `I` or is one of more than
/// 1,000,000, and no line is too long.
pub fn as_replayed()
    ensures shown { (c : RadioConfig) (said : List Asked) (lines : List Line) (place : ℕ) (answers : List Answer)
        (next : Moment) (section : Section) → IsLikeTrace (course c said answers) lines place next
        → slice_get (sections_of_lines c lines) place ≡ Some section → IsShown section place answers next }
    ensures text { (c : RadioConfig) (text : List ℕ) (lines : List Line) → IsTrace c text lines
        → AreLines (asked_in (first_moment c) (lines_of_text text)) lines }
{
    one_step();
    steps_append();
    reachable();
    checked_networks();
    checked_numbers();
}

/// Whatever comes has a line and a record that say the same, so that both are answered alike: a string that is heard, a
/// frame over the wire, the beginning of a beacon interval, the question for tables. A text of such lines has these
/// lines, and octets of such records have these records.
pub fn either_face()
    ensures text { (inputs : List Input) → AllByRecursion IsInput inputs
        → lines_of_text (text_for inputs) ≡ map (λ input. Octets (line_for input)) inputs }
    ensures octets { (inputs : List Input) → AllByRecursion IsInput inputs
        → AreRecords (octets_for inputs) (map record_for inputs) [] }
    ensures same { (bssids : List (List ℕ)) (inputs : List Input) → AllByRecursion IsInput inputs
        → records_ask bssids (map record_for inputs)
        ≡ asked_by_all bssids (map (λ input. Octets (line_for input)) inputs) }
{
    address_comes_back();
}
