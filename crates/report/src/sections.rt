//! The sections of a report, one after another.

ghost use Rattle.std.specs.Prelude.{◌≡◌, ◌+◌, Ok};
ghost use Rattle.text_io.specs.Endings.{Ends, failures_of, ending_of};
ghost use Rattle.report.specs.Report.{report_text, section_text};
ghost use Rattle.text_io.specs.Sinks.{MayFail, report_ending};

use crate::form::AsText;
use crate::reported::put_section_in;
use events::Section;
use std::alloc::Global;
use text_io::{Buffered, PutItem, ReportFault, Sink, write_each};

/// Has the sink take the report of the sections, whole. Nothing is left in a buffer.
///
/// `Write` comes exactly if a write to the sink failed, after which it is asked for nothing more: the number of its
/// failures rose by one. `NoMemory` and `Ok` leave that number. After either fault the sink has taken a prefix of the
/// report, perhaps nothing.
pub fn write_report<W: Sink>(
    alloc: Global,
    sections: &[Section],
    out: &mut W,
) -> Result<(), ReportFault>
    requires { MayFail (W.failed out.old) }
    ensures ends { Ends (ending_of report_ending result) (Ok (report_text sections.now)) (W.taken out.old) (W.taken out.new) }
    ensures failures { W.failed out.new ≡ W.failed out.old + failures_of report_ending result }
{
    write_each(alloc, &Sections, sections, out)
}

/// Each section as text.
struct Sections;

impl PutItem<Section> for Sections {
    ghost written = { section_text };

    fn put<W: Sink>(&self, out: &mut Buffered<'_, W>, section: &Section) {
        put_section_in::<AsText, Section, W>(out, section);
    }
}
