use ap_config::RadioConfig;
use config_text::read_config;
use events::{LentLine, Line};
use mac_frame::MacAddr;
use std::alloc::Global;
use std::process::Abort;
use std::test::Fail;
use trace::{LineBuffer, LineFault, LineReader, TraceFault, TraceTextFault, read_line, read_trace};

/// A configuration of two networks, in whose addresses is a letter. No two values of a network are the same.
const CONFIGURATION: &[u8] = b"version = 2\nchannel = 6\ninterval = 100\nqueue = 64\n\
    [[network]]\nbssid = \"02:aa:00:00:00:01\"\nssid = \"lab\"\nrates = \"82840b16\"\ndtim = 1\n\
    max_stations = 8\nmax_known = 16\nquota = 9\nmax_events = 100\nrelay = true\naging = false\n\
    [[network]]\nbssid = \"02:AA:00:00:00:02\"\nssid = \"guest\"\nrates = \"820c\"\ndtim = 2\n\
    max_stations = 3\nmax_known = 4\nquota = 5\nmax_events = 6\nrelay = false\naging = true\n";

/// What a line says: its word, the place of its network, which is 0 if it names none, and its octets.
type Said = (u8, usize, &'static [u8]);

/// Traces for these networks, with each kind of line and of line end, and what their lines say.
const TRACES: [(&[u8], &[Said]); 4] = [
    (
        b"# a string, a frame and a tick\r\nA aAbB  \r\n\r\nW   02:AA:00:00:00:02   0 8 00  \r\n\
        T  \n\n   \nA\nA 0 1 2 3\r\nT",
        &[
            (b'A', 0, b"\xaa\xbb"),
            (b'W', 1, b"\x08\x00"),
            (b'T', 0, b""),
            (b'A', 0, b""),
            (b'A', 0, b"\x01\x23"),
            (b'T', 0, b""),
        ],
    ),
    (
        b"A 40000000 ffffffffffff 02aa00000001 ffffffffffff 0000 0000 010402040b16\n\
        # two strings, and one of no octets\r\n\nA aAbB  \r\n\r\nA  1 2 34\nA",
        &[
            (
                b'A',
                0,
                b"\x40\0\0\0\xff\xff\xff\xff\xff\xff\x02\xaa\0\0\0\x01\xff\xff\xff\xff\xff\xff\
                \0\0\0\0\x01\x04\x02\x04\x0b\x16",
            ),
            (b'A', 0, b"\xaa\xbb"),
            (b'A', 0, b"\x12\x34"),
            (b'A', 0, b""),
        ],
    ),
    (
        b"T\nW 02:aa:00:00:00:01 02aa0000 0001\nW   02:AA:00:00:00:02   0 8 00  \r\nT  \r\nA 01\n\
        W 02:aa:00:00:00:02",
        &[
            (b'T', 0, b""),
            (b'W', 0, b"\x02\xaa\0\0\0\x01"),
            (b'W', 1, b"\x08\x00"),
            (b'T', 0, b""),
            (b'A', 0, b"\x01"),
            (b'W', 1, b""),
        ],
    ),
    (b"", &[]),
];

/// The end of a text, where a piece may stand.
const END: Option<&[u8]> = None;

/// What a reader is given, and how many lines it answers.
type Step = (Option<&'static [u8]>, usize);

/// What a reader is given, step by step, and what then, and the fault that it answers to that.
const FAULTS: [(&[Step], Option<&[u8]>, TraceFault); 5] = [
    // A piece is judged whole: the line that ends first in it is not given.
    (
        &[(Some(b"A 0"), 0)],
        Some(b"0\nA 4\n"),
        TraceFault { code: 2, line: 2 },
    ),
    (
        &[(Some(b"T\nA 00"), 1)],
        Some(b"\t\nT\n"),
        TraceFault { code: 2, line: 2 },
    ),
    // No CR is dropped if no LF follows it.
    (
        &[(Some(b"T\r\nT\r"), 1)],
        END,
        TraceFault { code: 1, line: 2 },
    ),
    // Of two CRs one is dropped.
    (
        &[(Some(b"T  \r"), 0), (Some(b"\nT\r"), 1)],
        Some(b"\r\n"),
        TraceFault { code: 1, line: 2 },
    ),
    // The last line is given once, and counts.
    (
        &[(Some(b"A 00\nT"), 1), (END, 1), (END, 0)],
        Some(b"X\n"),
        TraceFault { code: 1, line: 3 },
    ),
];

/// The text of a fault, its code, and the number of its line.
const FAULTY: [(&[u8], u8, u32); 32] = [
    (b"X", 1, 1),
    (b"A00", 1, 1),
    (b"a 00", 1, 1),
    (b" A 00", 1, 1),
    (b"A\t00", 1, 1),
    (b"A 4", 2, 1),
    (b"A 0g", 2, 1),
    (b"A 00\t", 2, 1),
    (b"A 00\r\r\n", 2, 1),
    (b"A 00\r", 2, 1),
    (b"A 00\r \n", 2, 1),
    (b"#\n\nA 00\nA 4\nX\n", 2, 4),
    (b"A\n\r\n  \nX", 1, 4),
    (b"t", 1, 1),
    (b" T", 1, 1),
    (b"TT", 1, 1),
    (b"T 00", 1, 1),
    (b"T\r  \n", 1, 1),
    (b"T\r\r\n", 1, 1),
    (b"T\r", 1, 1),
    (b"w 02:aa:00:00:00:01 00", 1, 1),
    (b"W\t02:aa:00:00:00:01 00", 1, 1),
    (b"W", 3, 1),
    (b"W  \r\n", 3, 1),
    (b"W 02:aa:00:00:00 00", 3, 1),
    (b"W 02:aa:00:00:00 4", 3, 1),
    (b"W 02:aa:00:00:00:0100", 3, 1),
    (b"W \xff2:aa:00:00:00:01 00", 3, 1),
    (b"W 02:aa:00:00:00:09 00", 4, 1),
    (b"T\nW ff:ff:ff:ff:ff:ff 4", 4, 2),
    (b"W 02:aa:00:00:00:01 4", 2, 1),
    (b"W 02:aa:00:00:00:02 00\tT", 2, 1),
];

/// A text: its start, how many copies of a part follow, and its end. Then the lengths of the pieces in which it comes,
/// and how many lines it has, or its fault.
type Long = (
    &'static str,
    usize,
    &'static str,
    &'static str,
    &'static [usize],
    Result<usize, TraceTextFault>,
);

/// The first line has an odd number of digits, or more octets than there may be.
const ODD: Result<usize, TraceTextFault> = Err(TraceTextFault::At(TraceFault { code: 2, line: 1 }));

const TOO_LONG: Result<usize, TraceTextFault> = Err(TraceTextFault::At(TraceFault {
    code: 5,
    line: 1,
}));

/// The fault of the line after the most lines.
const TOO_MANY: TraceFault = TraceFault {
    code: 5,
    line: 1_000_001,
};

/// Texts with strings and lines as many as there may be, and more.
const LONG: [Long; 8] = [
    ("A ", 4096, "00", "\n", &[1, 64, 4096], Ok(1)),
    ("A ", 4097, "00", "\n", &[1, 64, 4096], TOO_LONG),
    ("A ", 4096, "00 ", "", &[1, 64, 4096], Ok(1)),
    ("A ", 4096, "00 ", "00", &[1, 64, 4096], TOO_LONG),
    ("A ", 4096, "00 ", "000", &[1, 64, 4096], ODD),
    (
        "W 02:aa:00:00:00:01 ",
        8194,
        "0",
        "",
        &[1, 64, 4096],
        TOO_LONG,
    ),
    ("", 999_999, "#\n", "A 00\n", &[4096], Ok(1)),
    (
        "",
        999_999,
        "#\n",
        "A 00\n#",
        &[usize::MAX],
        Err(TraceTextFault::At(TOO_MANY)),
    ),
];

/// What a reader gives for a first piece of this length, then pieces of another, and the end.
fn read_in_pieces(
    alloc: Global,
    config: &RadioConfig,
    text: &[u8],
    first: usize,
    length: usize,
) -> Result<Vec<Line>, TraceTextFault> {
    let mut reader = LineReader::new(alloc, config)?;
    let (start, rest) = text.split_at(first.min(text.len()));
    let mut lines = reader.feed(start)?;
    for piece in rest.chunks(length.max(1)) {
        for line in reader.feed(piece)? {
            lines.push(line)?;
        }
    }
    if let Some(line) = reader.end()? {
        lines.push(line)?;
    }
    Ok(lines)
}

/// The lines say this.
fn assert_said(rt: &impl Abort, lines: &[Line], said: &[Said]) {
    assert_eq!(rt; lines.len(), said.len());
    for (line, expected) in lines.iter().zip(said) {
        let (word, place, octets) = match line {
            Line::Air(octets) => (b'A', 0, octets.as_slice()),
            Line::Wire { place, octets } => (b'W', *place, octets.as_slice()),
            Line::Tick => (b'T', 0, b"".as_slice()),
        };
        assert_eq!(rt; (word, place, octets), *expected);
    }
}

/// How many lines a reader answers to a piece, or to the end.
fn answer(reader: &mut LineReader, piece: Option<&[u8]>) -> Result<usize, TraceTextFault> {
    match piece {
        Some(piece) => Ok(reader.feed(piece)?.len()),
        None => Ok(usize::from(reader.end()?.is_some())),
    }
}

/// A reader answers a fault to a piece, and from then on.
fn assert_faulty(
    rt: &impl Abort,
    reader: &mut LineReader,
    piece: Option<&[u8]>,
    fault: TraceFault,
) {
    for next in [piece, Some(b"T\n"), Some(b""), END, END, Some(b"\n")] {
        assert_eq!(rt;
            answer(reader, next),
            Err(TraceTextFault::At(fault)),
            "at {piece:?}"
        );
    }
}

#[test]
fn each_key_is_read(rt: HostRuntime) -> Result<(), Fail> {
    let config = read_config(rt.alloc(), CONFIGURATION)?;
    assert_eq!(rt;
        (config.channel, config.interval, config.queue),
        (6, 100, 64)
    );
    let networks = config.networks.as_slice();
    assert_eq!(rt; networks.len(), 2);
    let network = &networks[0];
    assert_eq!(rt; network.bssid.octets(), [2, 0xaa, 0, 0, 0, 1]);
    assert_eq!(rt; network.ssid.as_slice(), b"lab".as_slice());
    assert_eq!(rt; network.rates.as_slice(), b"\x82\x84\x0b\x16".as_slice());
    assert_eq!(rt;
        (
            network.dtim,
            network.max_stations,
            network.max_known,
            network.quota,
            network.max_events
        ),
        (1, 8, 16, 9, 100)
    );
    Ok(())
}

#[test]
fn each_cut_reads_alike(rt: HostRuntime) -> Result<(), Fail> {
    let config = read_config(rt.alloc(), CONFIGURATION)?;
    for (text, said) in TRACES {
        assert_said(&rt, read_trace(rt.alloc(), &config, text)?.as_slice(), said);
        for place in 0..=text.len() {
            let lines = read_in_pieces(rt.alloc(), &config, text, place, text.len())?;
            assert_said(&rt, lines.as_slice(), said);
        }
        for length in 1..=70 {
            let lines = read_in_pieces(rt.alloc(), &config, text, length, length)?;
            assert_said(&rt, lines.as_slice(), said);
        }
    }
    Ok(())
}

#[test]
fn a_fault_is_answered_from_then_on(rt: HostRuntime) -> Result<(), Fail> {
    let config = read_config(rt.alloc(), CONFIGURATION)?;
    for (steps, piece, fault) in FAULTS {
        let mut reader = LineReader::new(rt.alloc(), &config)?;
        for (piece, lines) in steps {
            assert_eq!(rt; answer(&mut reader, *piece), Ok(*lines), "at {piece:?}");
        }
        assert_faulty(&rt, &mut reader, piece, fault);
    }
    Ok(())
}

#[test]
fn a_line_too_many_begins_in_a_new_piece(rt: HostRuntime) -> Result<(), Fail> {
    let config = read_config(rt.alloc(), CONFIGURATION)?;
    let lines = "#\n".repeat(rt.alloc(), 1_000_000)?;
    for octet in [b"\n".as_slice(), b"#", b"\r", b"A", b" "] {
        let mut reader = LineReader::new(rt.alloc(), &config)?;
        for piece in [lines.as_bytes(), b""] {
            assert_eq!(rt; answer(&mut reader, Some(piece)), Ok(0));
        }
        assert_faulty(&rt, &mut reader, Some(octet), TOO_MANY);
    }
    Ok(())
}

#[test]
fn the_first_fault_is_answered(rt: HostRuntime) -> Result<(), Fail> {
    let config = read_config(rt.alloc(), CONFIGURATION)?;
    for (text, code, line) in FAULTY {
        let fault = TraceTextFault::At(TraceFault { code, line });
        let read = read_trace(rt.alloc(), &config, text);
        assert_eq!(rt; read.err(), Some(fault), "in {text:?}");
    }
    Ok(())
}

#[test]
fn the_most_octets_and_lines_in_pieces(rt: HostRuntime) -> Result<(), Fail> {
    let config = read_config(rt.alloc(), CONFIGURATION)?;
    for (start, count, part, end, lengths, expected) in LONG {
        let copies = part.repeat(rt.alloc(), count)?;
        let text = format!(in rt.alloc(); "{start}{copies}{end}")?;
        for length in lengths {
            let read = read_in_pieces(rt.alloc(), &config, text.as_bytes(), *length, *length);
            let answer = match read {
                Ok(lines) => Ok(lines.len()),
                Err(fault) => Err(fault),
            };
            assert_eq!(rt; answer, expected, "by {length}");
        }
    }
    Ok(())
}

#[test]
fn a_line_of_many_spaces(rt: HostRuntime) -> Result<(), Fail> {
    let config = read_config(rt.alloc(), CONFIGURATION)?;
    let mut reader = LineReader::new(rt.alloc(), &config)?;
    let spaces = " ".repeat(rt.alloc(), 4096)?;
    for _ in 0..1000 {
        assert_eq!(rt; answer(&mut reader, Some(spaces.as_bytes())), Ok(0));
    }
    assert_eq!(rt; answer(&mut reader, Some(b"\nT\n")), Ok(1));
    Ok(())
}

#[test]
fn one_line_is_read_alone(rt: HostRuntime) -> Result<(), Fail> {
    let bssids = [
        MacAddr::new([2, 0, 0, 0, 0, 1]),
        MacAddr::new([2, 0, 0, 0, 0, 2]),
    ];
    let mut buffer = LineBuffer::new(rt.alloc())?;
    let said = read_line(
        &mut buffer,
        bssids.as_slice(),
        b"W 02:00:00:00:00:02 0800  ",
    );
    assert!(rt;
        matches!(
            said,
            Ok(Some(LentLine::Wire {
                place: 1,
                octets: b"\x08\x00"
            }))
        )
    );
    let none = read_line(&mut buffer, bssids.as_slice(), b"# T");
    assert!(rt; matches!(none, Ok(None)));
    Ok(())
}

/// A string of as many octets as a line may have, with a space before each digit that is not the first of a pair. The
/// same with one octet more. Each of them with another character at its end, which is the fault that comes first.
#[test]
fn digits_with_spaces_are_read_up_to_the_most(rt: HostRuntime) -> Result<(), Fail> {
    let mut buffer = LineBuffer::new(rt.alloc())?;
    let mut line = Vec::from_slice(rt.alloc(), b"A")?;
    for _ in 0..4096 {
        line.extend_from_slice(b" a 5")?;
    }
    match read_line(&mut buffer, &[], line.as_slice()) {
        Ok(Some(LentLine::Air(octets))) => assert_eq!(rt; octets, [0xa5; 4096].as_slice()),
        _ => panic!(rt; "4,096 octets are no string that was heard"),
    }
    line.extend_from_slice(b" f")?;
    let half = read_line(&mut buffer, &[], line.as_slice());
    assert!(rt; matches!(half, Err(LineFault::NotHexadecimal)));
    line.extend_from_slice(b"F")?;
    let longer = read_line(&mut buffer, &[], line.as_slice());
    assert!(rt; matches!(longer, Err(LineFault::TooMany)));
    line.extend_from_slice(b" 0x")?;
    let other = read_line(&mut buffer, &[], line.as_slice());
    assert!(rt; matches!(other, Err(LineFault::NotHexadecimal)));
    Ok(())
}
