ghost use Rattle.text_io.specs.Buffers.{CanWrite};

use ap_config::NetConfig;
use events::{Counts, Event, Section, StationRow};
use fixtures::{lab, octets};
use mac_frame::{List, MacAddr, Octets};
use report::{
    AsText, Totals, put_counts_line_in, put_end_line, put_frame_line, put_network_line_in,
    put_station_line_in, write_report,
};
use station_state::Standing;
use std::alloc::Global;
use std::io::{self, ErrorKind, Read, Write};
use std::test::Fail;
use text_io::{Buffered, Counted, Failed, ReportFault, Sink, Source};

/// The report of [`section`].
const REPORT: &str = "network 02:00:00:00:00:01 ssid 6c6162\n\
    events 1 clock 2 unread 3 lost 4 kept 5\n\
    station 02:aa:00:00:00:01 authenticated\n\
    station 02:aa:00:00:00:03 associated aid 1 listen 10 active kept 12\n\
    station 02:aa:00:00:00:04 associated aid 1 listen 10 doze kept 12\n\
    air 0123\n\
    wire 00ff\n\
    wire \n\
    end\n";

/// A station of the network: one doze, of the others each has another standing.
fn station(standing: Standing, last: u8) -> StationRow {
    StationRow {
        addr: MacAddr::new([2, 0xaa, 0, 0, 0, last]),
        standing,
        aid: 1,
        listen: 10,
        doze: last == 4,
        kept: 12,
    }
}

/// What a network with stations of each standing did.
fn section(alloc: Global) -> Result<Section, Fail> {
    let config = lab::config(alloc, 100)?;
    let events = vec![in alloc; Event::Tick]?;
    let table = vec![in alloc;
        station(Standing::Authenticated, 1),
        station(Standing::Unknown, 2),
        station(Standing::Associated, 3),
        station(Standing::Associated, 4),
    ]?;
    let counts = Counts {
        events: 1,
        clock: 2,
        unread: 3,
        lost: 4,
        kept: 5,
    };
    let air = vec![in alloc; octets(alloc, "0123")?]?;
    let wire = vec![in alloc; octets(alloc, "00ff")?, octets(alloc, "")?]?;
    Ok(Section {
        config,
        events: List::from_vec(events),
        table: List::from_vec(table),
        counts,
        air: List::from_vec(air),
        wire: List::from_vec(wire),
    })
}

#[test]
fn failing_writer(rt: HostRuntime) -> Result<(), Fail> {
    let alloc = rt.alloc();
    let sections = vec![in alloc; section(alloc)?]?;
    for room in 0..=REPORT.len() {
        // Once it is full, this writer takes no octet and answers no error.
        let mut device = vec![in alloc; 0; room]?;
        let mut sink = Counted::new(device.as_mut_slice());
        let answer = write_report(alloc, sections.as_slice(), &mut sink);
        let expected = if room < REPORT.len() {
            (Err(ReportFault::Write), 1)
        } else {
            (Ok(()), 0)
        };
        assert_eq!(rt; (answer, sink.failures()), expected, "at {room}");
        assert_eq!(rt; sink.into_inner().len(), 0, "at {room}");
        assert!(rt;
            device.as_slice() == &REPORT.as_bytes()[..room],
            "at {room}"
        );
    }
    Ok(())
}

/// A writer or a reader that refuses the first call, and then does what the one inside does.
#[derive(Drop)]
struct RefusesOnce<T> {
    inner: T,
    has_refused: bool,
}

impl<T> RefusesOnce<T> {
    fn new(inner: T) -> RefusesOnce<T> {
        RefusesOnce {
            inner,
            has_refused: false,
        }
    }

    fn refuse(&mut self) -> io::Result<()> {
        if self.has_refused {
            return Ok(());
        }
        self.has_refused = true;
        Err(io::Error::from(ErrorKind::Other))
    }
}

impl<T: Write> Write for RefusesOnce<T> {
    fn write(&mut self, buf: &[u8]) -> io::Result<usize> {
        self.refuse()?;
        self.inner.write(buf)
    }

    fn flush(&mut self) -> io::Result<()> {
        self.inner.flush()
    }
}

impl<T: Read> Read for RefusesOnce<T> {
    fn read(&mut self, buf: &mut [u8]) -> io::Result<usize> {
        self.refuse()?;
        self.inner.read(buf)
    }
}

/// A write that was refused is a failure at once, also if the next one would be taken.
#[test]
fn a_refused_write_is_not_tried_again(rt: HostRuntime) -> Result<(), Fail> {
    let alloc = rt.alloc();
    let sections = vec![in alloc; section(alloc)?]?;
    let mut sink = Counted::new(RefusesOnce::new(Vec::new(alloc)));
    let refused = write_report(alloc, sections.as_slice(), &mut sink);
    assert_eq!(rt; (refused, sink.failures()), (Err(ReportFault::Write), 1));
    let taken = write_report(alloc, sections.as_slice(), &mut sink);
    assert_eq!(rt; (taken, sink.failures()), (Ok(()), 1));
    let report: Vec<u8> = sink.into_inner().inner;
    assert_eq!(rt; report.as_slice(), REPORT.as_bytes());
    Ok(())
}

/// So is a read.
#[test]
fn a_refused_read_is_not_tried_again(rt: HostRuntime) {
    let mut source = Counted::new(RefusesOnce::new(REPORT.as_bytes()));
    let mut buffer = [0; 7];
    assert_eq!(rt; source.read_some(&mut buffer), Err(Failed));
    assert_eq!(rt; source.read_some(&mut buffer), Ok(7));
    assert_eq!(rt; source.failures(), 1);
    assert_eq!(rt; buffer, *b"network");
}

/// Frames, each with its number, and their lines.
fn numbered_frames(alloc: Global, count: u32) -> Result<(Vec<Octets>, String), Fail> {
    let mut frames = Vec::new(alloc);
    let mut lines = String::new(alloc);
    for number in 0..count {
        let digits = format!(in alloc; "{number:0128x}")?;
        frames.push(octets(alloc, digits.as_str())?)?;
        lines.push_str(format!(in alloc; "air {digits}\n")?.as_str())?;
    }
    Ok((frames, lines))
}

#[test]
fn report_of_many_pieces(rt: HostRuntime) -> Result<(), Fail> {
    let alloc = rt.alloc();
    let (frames, lines) = numbered_frames(alloc, 2000)?;
    let mut first = section(alloc)?;
    first.air = List::from_vec(frames);
    let sections = vec![in alloc; first, section(alloc)?]?;
    let mut sink = Counted::new(Vec::new(alloc));
    write_report(alloc, &[], &mut sink)?;
    write_report(alloc, sections.as_slice(), &mut sink)?;
    assert_eq!(rt; sink.failures(), 0);
    let report: Vec<u8> = sink.into_inner();
    let long = REPORT.replace(alloc, "air 0123\n", lines.as_str())?;
    assert!(rt; report.as_slice() == format!(in alloc; "{long}{REPORT}")?.as_bytes());
    Ok(())
}

/// Puts the lines of a section one by one, and has the sink take what the piece holds.
fn put_lines<W: Sink>(out: &mut Buffered<'_, W>, config: &NetConfig) -> Result<(), Failed>
    requires { CanWrite W.failed out.old }
{
    let totals = Totals {
        events: 1,
        clock: 2,
        unread: 3,
        lost: 4,
        kept: 5,
    };
    put_network_line_in::<AsText, W>(out, config);
    put_counts_line_in::<AsText, W>(out, &totals);
    put_station_line_in::<AsText, W>(out, &station(Standing::Authenticated, 1));
    put_station_line_in::<AsText, W>(out, &station(Standing::Unknown, 2));
    put_station_line_in::<AsText, W>(out, &station(Standing::Associated, 3));
    put_station_line_in::<AsText, W>(out, &station(Standing::Associated, 4));
    put_frame_line(out, b"air ", &[1, 0x23]);
    put_frame_line(out, b"wire ", &[0, 0xff]);
    put_frame_line(out, b"wire ", &[]);
    put_end_line(out);
    out.flush()
}

#[test]
fn lines_go_through_a_piece_of_any_length(rt: HostRuntime) -> Result<(), Fail> {
    let alloc = rt.alloc();
    let config = lab::config(alloc, 100)?;
    for len in 0..100 {
        let mut piece = vec![in alloc; 0; len]?;
        let mut sink = Counted::new(Vec::new(alloc));
        let mut out = Buffered::new(&mut sink, piece.as_mut_slice());
        assert_eq!(rt; put_lines(&mut out, &config), Ok(()), "at {len}");
        let taken: Vec<u8> = sink.into_inner();
        assert_eq!(rt; taken.as_slice(), REPORT.as_bytes(), "at {len}");
    }
    Ok(())
}
