//! Rows of `expand`.
use crate::words::{LIBRARY, made, run, shelf, writes};
use std::alloc::{AllocError, Global};
use std::test::Fail;

/// `$` for three inverters in a ring or their rules, `%` for the ring with its tick and root or its rules.
const NETLISTS: &str = "\
$ => $
% => %
 => events 0 rules 0|
# tick|| ^| => events 0 rules 0|
net A~|net^B # ?~|~|inst b BUF A=A Z=B => events 4 rules 2|rule 0 A+ B+ 9 0|rule 1 A- B- 8 0|
net A|inst x X1 Z=A A=A|tick A+ A+ 1|tick A- A- 1|tick A- A+ 1|root A+| => events 2 rules 4|rule 0 A+ A+ 7 1|rule 1 A- A+ 7 1|rule 2 A+ A- 5 0|rule 3 A- A- 5 1|
net A|net B|inst n NOR2 B=B Z=A A=A| => events 4 rules 4|rule 0 A- A+ 12 0|rule 1 A+ A- 10 0|rule 2 B- A+ 12 0|rule 3 B+ A- 10 0|
net A|inst n NOR2 A=A B=A Z=A|tick A- A+ 3| => events 2 rules 4|rule 0 A- A+ 12 3|rule 1 A+ A- 10 0|rule 2 A- A+ 12 3|rule 3 A+ A- 10 0|
net A|net B|net C|const rst|inst i1 INV A=A Z=B|inst i2 INV A=B Z=C|inst i3 NOR2 A=C B=rst Z=A| => $
%delay i1 A 1000000 10| => events 6 rules 6|rule 0 A- B+ 1000000 0|rule 1 A+ B- 10 0|rule 2 B- C+ 12 0|rule 3 B+ C- 10 0|rule 4 C- A+ 12 1|rule 5 C+ A- 10 0|
%fork f1 A+ C+ A- 10 15| => %
%tick C- A+ 0| => $
net n123456789012345678901234567890123456789012345678901234567890123| => events 2 rules 0|
net n1234567890123456789012345678901234567890123456789012345678901234| => fault: netlist line 1 S1|
net A#B| => events 2 rules 0|
net A\u{c}| => fault: netlist line 1 S1|
net A\u{0}| => fault: netlist line 1 S1|
\u{feff}net A| => fault: netlist line 1 syntax|
net A|inst i1 INV A=Q Y=A Z=A| => fault: netlist line 2 S3|
net A|inst i1 INV A=Q A=A Z=A| => fault: netlist line 2 S3|
net A|net B|inst i1 INV A=A Z=B|inst n NOR2 A=A Z=B| => fault: netlist line 4 S7|
net A|inst B INV A=A Z=A|net B|inst A BUF A=A Z=B|fork A A+ A+ A- 0 0|fork B A+ A+ A- 0 0| => events 4 rules 4|rule 0 A- A+ 12 0|rule 1 A+ A- 10 0|rule 2 A+ B+ 9 0|rule 3 A- B- 8 0|
net A|net B|inst r R2 A=A B=B Z=A|inst t TIE Z=B|delay r A 1 2| => events 4 rules 4|rule 0 B- A+ 12 0|rule 1 B+ A- 10 0|rule 2 A+ A+ 1 0|rule 3 A- A- 2 0|
%inst i- NONE Q=Q Z| => fault: netlist line 9 syntax|
%fork f- A+ C+ A- 0 x| => fault: netlist line 9 syntax|
%delay i1 A 1 1 1| => fault: netlist line 9 syntax|
%tick C- A+ 1 1| => fault: netlist line 9 syntax|
%tick C- A+ 4294967297| => fault: netlist line 9 S11 4294967297|
%root D+| => fault: netlist line 9 S13|
%fork f1 A+ C+ D- 1000001 0| => fault: netlist line 9 S13|
%fork f1 D+ C+ A- 1000001 0| => fault: netlist line 9 S13|
%move i1 A C| => fault: netlist line 9 syntax|
%swap i1 INV| => fault: netlist line 9 syntax|
%fork f A+ A+ A- 0 0|delfork f| => fault: netlist line 10 syntax|
net A ~ | => fault: netlist line 1 syntax|
net A|~ => fault: netlist line 2 syntax|
net A|net B|inst n NOR2 B=B Z=A A=A|delay n B 1 2|delay n B 3 4| => events 4 rules 4|rule 0 A- A+ 12 0|rule 1 A+ A- 10 0|rule 2 B- A+ 3 0|rule 3 B+ A- 4 0|
%tick C- A+ 16| => fault: netlist line 9 S11 16|
foo| => fault: netlist line 1 syntax|
# a|| foo # b| => fault: netlist line 3 syntax|
ticks| => fault: netlist line 1 syntax|
net A|delnet A| => fault: netlist line 2 syntax|
%delinst i1| => fault: netlist line 9 syntax|
net| => fault: netlist line 1 syntax|
net A B| => fault: netlist line 1 syntax|
net A-| => fault: netlist line 1 S1|
net ?| => fault: netlist line 1 S1|
net A~~| => fault: netlist line 1 S1|
net A~ => fault: netlist line 1 S1|
net A|net A|foo| => fault: netlist line 2 S2|
net A|const A| => fault: netlist line 2 S2|
const A|const A| => fault: netlist line 2 S2|
const a-| => fault: netlist line 1 S1|
inst| => fault: netlist line 1 syntax|
net A|net B|net C|inst i1 INV A=A Z=B|inst i2 INV A=B Z=C|inst i3 INV A=C Z= => fault: netlist line 6 S3|
net A|net B|net C|inst i1 INV A=A Z=B|inst i2 INV A=B Z=C|inst i3 => fault: netlist line 6 syntax|
net A|net B|net C|inst i1 INV A=A Z=B|inst i2 INV A=B Z=C|inst i3 INV A => fault: netlist line 6 syntax|
net A|net B|net C|inst i1 INV A=A Z=B|inst i2 INV A=B Z=C|inst i3 IN => fault: netlist line 6 S4|
net A|net B|net C|inst i1 INV A=A Z=B|inst i2 INV A=B Z=C|inst i3 INV => fault: netlist line 6 S7|
net A|net B|net C|inst i1 INV A=A Z=B|inst i2 INV A=B Z=C|inst i3 INV A=C => fault: netlist line 6 S7|
$tick C- A+ => fault: netlist line 7 syntax|
$tick C- A+ 1|root A => fault: netlist line 8 syntax|
net A|inst i1 INV A=A A=A Z=A| => fault: netlist line 2 S7|
net A|inst i1 INV A=A B=A Z=A| => fault: netlist line 2 S6|
net A|inst i1 INV = Z=A| => fault: netlist line 2 S6|
net A|inst i1 INV A= Z=A| => fault: netlist line 2 S3|
net A|inst i1 INV A=A=A Z=A| => fault: netlist line 2 S3|
net A|inst i1 INV A=B Z=A| => fault: netlist line 2 S3|
net A|inst i1 NONE A=A Z=A| => fault: netlist line 2 S4|
net A|inst i- INV A=A Z=A| => fault: netlist line 2 S1|
net A|net B|inst i1 INV A=A Z=B|inst i1 INV A=B Z=A| => fault: netlist line 4 S2|
net A|net B|net C|inst i1 INV A=A Z=B|inst i2 INV A=A Z=C|inst i3 INV A=A Z=C| => fault: netlist line 6 S8 2|
net A|const c|inst i1 INV A=A Z=c| => fault: netlist line 3 S9|
%delay i9 A 1 1| => fault: netlist line 9 S5|
%delay i1 Q 1 1| => fault: netlist line 9 S6|
%delay i1 Z 1 1| => fault: netlist line 9 S10|
%delay i1 A 1000001 10| => fault: netlist line 9 S11 1000001|
%delay i1 A 10 1000002| => fault: netlist line 9 S11 1000002|
%delay i1 A 9999999999999999999 10| => fault: netlist line 9 S11 9999999999999999999|
%delay i1 A 10000000000000000000 10| => fault: netlist line 9 syntax|
%delay i1 A 007 10| => fault: netlist line 9 syntax|
$tick C- A+ 16| => fault: netlist line 7 S11 16|
$tick C- A+ 0| => fault: netlist line 7 S11 0|
$tick A+ C- 0| => fault: netlist line 7 S11 0|
%tick C- A+ 2| => fault: netlist line 9 S12|
%tick C- D+ 1| => fault: netlist line 9 S13|
net A|tick + A+ 1| => fault: netlist line 2 S13|
net A|root A++| => fault: netlist line 2 S13|
const c|root c+| => fault: netlist line 2 S13|
%root A+| => fault: netlist line 9 S14|
%fork f1 A+ C+ A- 1000001 0| => fault: netlist line 9 S11 1000001|
%fork f1 A+ C+ A- 0 16| => fault: netlist line 9 S11 16|
%fork f1 A+ D+ A- 0 0| => fault: netlist line 9 S13|
%fork f- A+ C+ A- 0 0| => fault: netlist line 9 S1|
%fork f1 A+ C+ A- 0 0|fork f1 A+ C+ A- 0 0| => fault: netlist line 10 S15|
%fork f1 A+ C+ A- 0| => fault: netlist line 9 syntax|
16384:net n@| => events 32768 rules 0|
16386:net n@| => fault: netlist line 16385 S18 nets|
1025:const c@| => fault: netlist line 1025 S18 consts|
net A|;257:fork f@ A+ A+ A+ 0 0| => fault: netlist line 258 S18 forks|
net A|;16383:net n@|;net n0| => fault: netlist line 16385 S2|
net A|;16383:net n@|;net A-| => fault: netlist line 16385 S1|
net A|;16383:net n@|;const d| => events 32768 rules 0|
net A|;1024:const c@|;const c0| => fault: netlist line 1026 S2|
net A|;1024:const c@|;net d| => events 4 rules 0|
net A|;256:fork f@ A+ A+ A+ 0 0|;fork f0 B+ A+ A+ 0 0| => fault: netlist line 258 S15|
net A|;256:fork f@ A+ A+ A+ 0 0|;fork g B+ A+ A+ 1000001 0| => fault: netlist line 258 S13|
net A|;256:fork f@ A+ A+ A+ 0 0|;fork g A+ A+ A+ 0 16| => fault: netlist line 258 S11 16|
33:net n@|;32:fork f@ n@+ n0+ n0- 0 0|;32:fork g@ n@- n0+ n0- 0 0|;fork h n32+ n0+ n0- 0 0| => fault: netlist line 98 S18 roots|
33:net n@|;32:fork f@ n@+ n0+ n0- 0 0|;32:fork g@ n@- n0+ n0- 0 0|;fork h n32+ n0+ n0+ 1000001 0| => fault: netlist line 98 S11 1000001|
33:net n@|;32:fork f@ n@+ n0+ n0- 0 0|;32:fork g@ n@- n0+ n0- 0 0|;fork h n0+ n0+ n0- 0 0|root n32-| => events 66 rules 0|
";

/// A library on each line, and the line of its fault.
const LIBRARIES: &str = "\
x =  => fault: library L1|
[cell.c2]|inputs = []|output = \"Z\"|arcs = []|[cell.c10]| => fault: library L2 cell 1|
[cell.A]|inputs = [\"a\",\"b\",\"c\",\"d\",\"e\",\"f\",\"g\",\"h\",\"i\",\"j\",\"k\",\"l\",\"m\",\"n\",\"o\",\"p\",\"q\"]|arcs = []| => fault: library L2 cell 1|
[cell.A]|inputs = [\"A\", \"B\"]|output = \"Z\"|arcs = [{ from = \"A\", sense = \"pos\", rise = 1, fall = 1000001 }, { from = \"A\", sense = \"pos\", rise = 1, fall = 1 }, { from = \"Q\", sense = \"pos\", rise = 1, fall = 1 }, { from = \"B\", sense = \"up\", rise = 1, fall = 1 }]| => fault: library L8 cell 1 arc 1|
[cell.A]|inputs = [\"A\", \"a-b\"]|output = \"Z+\"|arcs = []| => fault: library L3 cell 1 pin 2|
[cell.A]|inputs = [\"A\"]|output = \"Z\"|arcs = [{ from = \"A\", sense = \"pos\", rise = 4294967297, fall = 1 }]| => fault: library L8 cell 1 arc 1|
[cell.A]|inputs = [\"A\"]|output = \"Z\"|[[cell.A.arcs]]|from = \"A\"|sense = \"pos\"|rise = 1|fall = 1| => events 0 rules 0|
? => fault: library L1|
cell = 1| => fault: library L2 cell 0|
[cell]|A = 1| => fault: library L2 cell 1|
[cell.A]|inputs = []|output = \"Z\"|arcs = []|[cell.B]|inputs = []|output = \"Z\"| => fault: library L2 cell 2|
[cell.\"a-b\"]| => fault: library L3 cell 1 pin 0|
[cell.A]|inputs = [\"A\", \"\"]|output = \"Z\"|arcs = []| => fault: library L3 cell 1 pin 2|
[cell.A]|inputs = [\"A\", \"A\"]|output = \"Z\"|arcs = []| => fault: library L4 cell 1 pin 2|
[cell.A]|inputs = [\"A\"]|output = \"A\"|arcs = []| => fault: library L4 cell 1 pin 2|
[cell.A]|inputs = [\"A\"]|output = \"Z\"|arcs = [{ from = \"Z\", sense = \"pos\", rise = 1, fall = 1 }]| => fault: library L5 cell 1 arc 1|
[cell.A]|inputs = [\"A\"]|output = \"Z\"|arcs = [{ from = \"A\", sense = \"pos\", rise = 1, fall = 1 }, { from = \"A\", sense = \"pos\", rise = 1, fall = 1 }]| => fault: library L6 cell 1 arc 2|
[cell.A]|inputs = [\"A\"]|output = \"Z\"|arcs = [{ from = \"A\", sense = \"up\", rise = 1, fall = 1 }]| => fault: library L7 cell 1 arc 1|
[cell.A]|inputs = [\"A\"]|output = \"Z\"|arcs = [{ from = \"A\", sense = \"pos\", rise = 1000001, fall = 1 }]| => fault: library L8 cell 1 arc 1|
[cell.A]|inputs = [\"a\",\"b\",\"c\",\"d\",\"e\",\"f\",\"g\",\"h\",\"i\",\"j\",\"k\",\"l\",\"m\",\"n\",\"o\",\"p\",\"q\"]|output = \"Z\"|arcs = []| => fault: library L9 inputs cell 1|
1025:[cell.c@]| => fault: library L9 cells|
";

/// What is written for the three inverters and for the ring.
const BARE_RULES: &str =
    "events 6 rules 6|rule 0 A- B+ 12 0|rule 1 A+ B- 10 0|rule 2 B- C+ 12 0|rule 3 B+ C- 10 0|rule 4 C- A+ 12 0|rule 5 C+ A- 10 0|";

const RING_RULES: &str =
    "events 6 rules 6|rule 0 A- B+ 12 0|rule 1 A+ B- 10 0|rule 2 B- C+ 12 0|rule 3 B+ C- 10 0|rule 4 C- A+ 12 1|rule 5 C+ A- 10 0|";

/// The bytes of a text that the tables want.
fn wanted(alloc: Global, text: &str) -> Result<Vec<u8>, AllocError> {
    match text {
        "$" => made(alloc, BARE_RULES),
        "%" => made(alloc, RING_RULES),
        _ => made(alloc, text),
    }
}

#[test]
fn netlists_and_their_rules(rt: HostRuntime) -> Result<(), Fail> {
    let alloc = rt.alloc();
    for row in NETLISTS.lines() {
        let (netlist, text) = row.split_once(" => ").ok_or("no arrow")?;
        let netlist = made(alloc, netlist)?;
        let wanted = wanted(alloc, text)?;
        let files = (LIBRARY.as_bytes(), netlist.as_slice(), b"".as_slice());
        assert!(rt;
            writes(&rt, alloc, "expand lib.toml a.net", files, &wanted)?,
            "{row}"
        );
    }
    Ok(())
}

#[test]
fn libraries_and_their_faults(rt: HostRuntime) -> Result<(), Fail> {
    let alloc = rt.alloc();
    for row in LIBRARIES.lines() {
        let (library, text) = row.split_once(" => ").ok_or("no arrow")?;
        let library = made(alloc, library)?;
        let wanted = made(alloc, text)?;
        let files = (library.as_slice(), b"".as_slice(), b"".as_slice());
        assert!(rt;
            writes(&rt, alloc, "expand lib.toml a.net", files, &wanted)?,
            "{row}"
        );
    }
    Ok(())
}

#[test]
fn the_longest_file(rt: HostRuntime) -> Result<(), Fail> {
    let alloc = rt.alloc();
    let mut netlist = made(alloc, "%#")?;
    for _ in netlist.len()..16_777_216 {
        netlist.push(b' ')?;
    }
    let rules = wanted(alloc, "%")?;
    let files = (LIBRARY.as_bytes(), netlist.as_slice(), b"".as_slice());
    assert!(rt; writes(&rt, alloc, "expand lib.toml a.net", files, &rules)?);
    netlist.push(b' ')?;
    let files = (LIBRARY.as_bytes(), netlist.as_slice(), b"".as_slice());
    let long = b"fault: too long a.net\n".as_slice();
    assert!(rt; writes(&rt, alloc, "expand lib.toml a.net", files, long)?);
    Ok(())
}

/// A cell of 16 inputs, each with an arc of sense `non`, and an inverter.
const WIDE_CELLS: &str =
    "[cell.INV]|inputs = [\"A\"]|output = \"Z\"|arcs = [{ from = \"A\", sense = \"neg\", rise = 12, fall = 10 }]|[cell.N16]|output = \"Z\"|inputs = [;16:\"I@\", ;]|arcs = [;16:{ from = \"I@\", sense = \"non\", rise = 7, fall = 5 }, ;]|";

/// A ring of 2,048 such cells, of 131,072 rules.
const WIDE_RING: &str =
    "2048:net m@|;2048:inst g@ N16 Z=m@ I0=m< I1=m< I2=m< I3=m< I4=m< I5=m< I6=m< I7=m< I8=m< I9=m< I10=m< I11=m< I12=m< I13=m< I14=m< I15=m<|";

/// A command, what stands behind the wide ring, and the front and the end of what is written.
const WIDE: [(&str, &str, &str, &str); 6] = [
    ("expand", "", "events 4096 rules 131072|", "|"),
    (
        "expand",
        "net w|inst wi INV A=m0 Z=w|",
        "fault: netlist H4 131074|",
        "H4 131074|",
    ),
    ("analyze", "", "fault: netlist H2|", "H2|"),
    (
        "analyze",
        "net w|inst wi INV A=m0 Z=w|root m0+|",
        "fault: netlist H4 131074|",
        "H4 131074|",
    ),
    (
        "analyze",
        "net w|inst wi INV A=m0 Z=w|root m0+|tick w+ m0+ 1|",
        "fault: netlist H3 1|",
        "H3 1|",
    ),
    (
        "analyze",
        "root m0+|tick m2047+ m0+ 1|tick m2047- m0+ 1|tick m2047+ m0- 1|tick m2047- m0- 1|",
        "period 14336/1|cycle 2048 14336 1|step 64 m0+ m1+ 7 0|",
        "arrival m2047+ 14329/1|arrival m2047- 14327/1|end|",
    ),
];

#[test]
fn the_most_rules(rt: HostRuntime) -> Result<(), Fail> {
    let alloc = rt.alloc();
    let library = made(alloc, WIDE_CELLS)?;
    for (command, more, front, back) in WIDE {
        let netlist = made(alloc, format!(in alloc; "{WIDE_RING};{more}")?.as_str())?;
        let mut shelf = shelf(alloc, &library, &netlist, b"", Vec::new(alloc))?;
        let line = format!(in alloc; "{command} lib.toml a.net")?;
        let (_outcome, sink) = run(&rt, alloc, line.as_str(), &mut shelf, Vec::new(alloc))?;
        assert!(rt;
            sink.bytes().starts_with(&made(alloc, front)?),
            "{command} {more}"
        );
        assert!(rt;
            sink.bytes().ends_with(&made(alloc, back)?),
            "{command} {more}"
        );
    }
    Ok(())
}
