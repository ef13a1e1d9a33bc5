//! The pages that the program shows of itself.

ghost use Rattle.std.specs.Prelude.{◌≡◌, ◌+◌, Ok, map, string_bytes};
ghost use Rattle.text_io.specs.Endings.{Ends, ending_of, failures_of};
ghost use Rattle.text_io.specs.Sinks.{MayFail, write_ending};
ghost use Rattle.words.specs.Pages.{page_for, text_of};

use text_io::{Failed, Sink, write_all};

/// A page that the program shows of itself.
#[derive(Clone, Copy, Debug, PartialEq, Eq)]
pub enum Page {
    /// How the program is used.
    Usage,
    /// Which version of the program this is.
    Version,
}

/// How the program is used: each form of its words, what it reads and writes, the statuses, and where more stands.
pub const USAGE: &str = "\
apctl: link manager of an access point with several networks (IEEE 802.11-2016)

  apctl                        reads CONFIG, a line --- and TRACE from standard
                               input; writes a report
  apctl check CONFIG           reads CONFIG; writes 'ok' and how many networks
                               it has
  apctl run CONFIG TRACE       reads both; writes a report
  apctl play CONFIG TRACE...   reads 1 to 64 traces, and plays them at once;
                               writes a report
  apctl live CONFIG            reads CONFIG, then lines from standard input;
                               writes what each line brings, as it comes
  apctl live --octets CONFIG   the same with records of octets for lines
  apctl --help, -h or help     writes this; the status is 2
  apctl --version              writes the version; the status is 2

CONFIG, a configuration, and TRACE are names of files, as is - alone. A longer
name that begins with - comes after --. What is asked for goes to standard
output, and a fault to standard error, as 'fault C4'.

Status 0  the texts were read
       1  a fault of CONFIG, of a TRACE, or of how many traces there are
       2  words that ask for nothing to be done
       3  no memory, or no thread
       4  a file, standard input or standard output that failed

The manual is apctl(1): 'man apctl', or share/man/man1/apctl.1 of the source.
Why a fault came, and what to write in its place: 'waltigon-explain' with the
same words, or 'tools/explain' of the source.
";

/// Which version of the program this is.
pub const VERSION: &str = "apctl 0.9.0\n";

/// The page that words ask for, of which the first is the program's own name: the usage for `--help`, `-h` or `help`
/// alone, the version for `--version` alone. `None` for any others.
pub(crate) fn page_of(words: &[String]) -> Option<Page>
    ensures { result ≡ page_for (map string_bytes words.now) }
{
    let [_, word] = words else {
        return None;
    };
    let word = word.as_str();
    if word == "--help" || word == "-h" || word == "help" {
        Some(Page::Usage)
    } else if word == "--version" {
        Some(Page::Version)
    } else {
        None
    }
}

/// Has the sink take the text of a page. It stops at the first failure, which is its answer; the sink has then taken a
/// prefix of the text.
pub fn write_page<W: Sink>(page: Page, out: &mut W) -> Result<(), Failed>
    requires { MayFail (W.failed out.old) }
    ensures ends { Ends (ending_of write_ending result) (Ok (text_of page)) (W.taken out.old) (W.taken out.new) }
    ensures failures { W.failed out.new ≡ W.failed out.old + failures_of write_ending result }
{
    let text = match page {
        Page::Usage => USAGE,
        Page::Version => VERSION,
    };
    write_all(out, text.as_bytes())
}
