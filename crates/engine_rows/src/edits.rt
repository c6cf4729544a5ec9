//! Rows of `apply`.
use crate::words::{LIBRARY, made, writes};
use std::test::Fail;

/// A netlist and edits on each line, and what is written for them.
const EDITS: &str = "\
% => delay i1 A 15 10| => net A|net B|net C|inst i1 INV A=A Z=B|inst i2 INV A=B Z=C|inst i3 INV A=C Z=A|delay i1 A 15 10|tick C- A+ 1|root A+|
% => delay i1 A 15 10|delinst i9| => fault: edits edit 2 S5|
% => delinst| => fault: edits line 1 syntax|
% => delinst i9|delinst| => fault: edits line 2 syntax|
% => # nothing~|^~| => net A|net B|net C|inst i1 INV A=A Z=B|inst i2 INV A=B Z=C|inst i3 INV A=C Z=A|tick C- A+ 1|root A+|
% => root A-|tick C- A+ 0|tick B+ C- 2|fork f A+ C+ A- 10 15 => net A|net B|net C|inst i1 INV A=A Z=B|inst i2 INV A=B Z=C|inst i3 INV A=C Z=A|tick B+ C- 2|root A-|fork f A+ C+ A- 10 15|
%fork f A+ C+ A- 0 0| => fork f A+ C+ A- 0 0| => fault: edits edit 1 S15|
%fork f A+ C+ A- 0 0| => delfork f|fork f A+ B+ A- 0 0|delfork g| => fault: edits edit 3 S16|
net A|net B|net C|net D|inst i1 INV A=A Z=B|inst i2 INV A=B Z=C|inst i4 INV A=B Z=D|inst i3 NOR2 A=C B=D Z=A|tick C- A+ 1|tick D- A+ 1|root A+| => move i3 B C|tick D- A+ 0|delinst i4|delnet D| => net A|net B|net C|inst i1 INV A=A Z=B|inst i2 INV A=B Z=C|inst i3 NOR2 A=C B=C Z=A|tick C- A+ 1|root A+|
net A|net B|net C|net D|inst i1 INV A=A Z=B|inst i2 INV A=B Z=C|inst i4 INV A=B Z=D|inst i3 NOR2 A=C B=D Z=A|tick C- A+ 1|tick D- A+ 1|root A+| => delnet D| => fault: edits edit 1 S17|
net A|net B|net C|net D|inst i1 INV A=A Z=B|inst i2 INV A=B Z=C|inst i4 INV A=B Z=D|inst i3 NOR2 A=C B=D Z=A|tick C- A+ 1|tick D- A+ 1|root A+| => swap i3 INV| => fault: edits edit 1 S7|
net A|net B|net C|net D|inst i1 INV A=A Z=B|inst i2 INV A=B Z=C|inst i4 INV A=B Z=D|inst i3 NOR2 A=C B=D Z=A|tick C- A+ 1|tick D- A+ 1|root A+| => swap i1 BUF|swap i2 NONE| => fault: edits edit 2 S4|
net A| => net B|const c|inst i NOR2 A=A B=c Z=B| => net A|net B|const c|inst i NOR2 A=A B=c Z=B|
net B|const c|const d|const e|inst i NOR2 A=c B=e Z=B| => delnet d|const f| => net B|const c|const e|const f|inst i NOR2 A=c B=e Z=B|
net B|const c|const d|const e|inst i NOR2 A=c B=e Z=B| => delnet d|delnet e| => fault: edits edit 2 S17|
net B|const c|const d|const e|inst i NOR2 A=c B=e Z=B| => delnet d|move i B c|delnet e|const d|move i A d| => net B|const c|const d|inst i NOR2 A=d B=c Z=B|
net A|net B|net C|const c|const d|inst i NOR2 A=C B=d Z=B| => delnet c|const e| => net A|net B|net C|const d|const e|inst i NOR2 A=C B=d Z=B|
net A|net B|net C|const c|const d|inst i NOR2 A=C B=d Z=B| => delnet A|net D| => net B|net C|net D|const c|const d|inst i NOR2 A=C B=d Z=B|
net X|net A|net B|inst i INV A=A Z=B|tick A+ B- 2|root B+|fork f A- B+ B- 3 1| => delnet X|net D| => net A|net B|net D|inst i INV A=A Z=B|tick A+ B- 2|root B+|fork f A- B+ B- 3 1|
%delay i2 A 12 14| => net D|move i2 Z D|move i2 A A| => net A|net B|net C|net D|inst i1 INV A=A Z=B|inst i2 INV A=A Z=D|inst i3 INV A=C Z=A|delay i2 A 12 14|tick C- A+ 1|root A+|
%delay i2 A 12 14| => const k|move i2 A k|delinst i1|inst i4 BUF A=A Z=B| => net A|net B|net C|const k|inst i2 INV A=k Z=C|inst i3 INV A=C Z=A|inst i4 BUF A=A Z=B|delay i2 A 12 14|tick C- A+ 1|root A+|
%delay i1 A 15 10|delay i2 A 12 14| => swap i1 INV| => net A|net B|net C|inst i1 INV A=A Z=B|inst i2 INV A=B Z=C|inst i3 INV A=C Z=A|delay i2 A 12 14|tick C- A+ 1|root A+|
%delay i1 A 15 10| => swap i1 BUF|delay i1 A 1 2|move i1 A C| => net A|net B|net C|inst i1 BUF A=C Z=B|inst i2 INV A=B Z=C|inst i3 INV A=C Z=A|delay i1 A 1 2|tick C- A+ 1|root A+|
net A|inst i NOR2 A=A B=A Z=A|delay i B 3 4| => swap i R2|delay i A 5 6| => net A|inst i R2 A=A B=A Z=A|delay i A 5 6|
% => delnet Q| => fault: edits edit 1 S3|
% => delnet i1| => fault: edits edit 1 S3|
% => delnet a-b| => fault: edits edit 1 S3|
% => delinst A| => fault: edits edit 1 S5|
% => delnet A|delnet Q| => fault: edits edit 1 S17|
net A|net B|tick B+ B- 1| => delnet A|delnet A| => fault: edits edit 2 S3|
net A|net B|tick B+ B- 1| => delnet A|delnet B| => fault: edits edit 2 S17|
net A|net B|root B-| => delnet A|delnet B| => fault: edits edit 2 S17|
net A|net B|net C|net D|fork f B+ C- D+ 0 0| => delnet A|delnet B| => fault: edits edit 2 S17|
net A|net B|net C|net D|fork f B+ C- D+ 0 0| => delnet A|delnet C| => fault: edits edit 2 S17|
net A|net B|net C|net D|fork f B+ C- D+ 0 0| => delnet A|delnet D| => fault: edits edit 2 S17|
net A|net B|net C|net D|fork f B+ C- D+ 0 0| => delfork f|delnet C|delnet A| => net B|net D|
% => delinst i1|move i2 Z A| => fault: edits edit 2 S8 2|
% => delinst i1|inst i9 INV A=A Z=A| => fault: edits edit 2 S8 2|
% => delinst i3|move i1 Z C| => fault: edits edit 2 S8 2|
% => delinst i1|inst i1 INV A=A Z=B|move i2 Z B| => fault: edits edit 3 S8 3|
% => delinst i1|move i3 Z B|inst i1 INV A=B Z=A| => net A|net B|net C|inst i2 INV A=B Z=C|inst i3 INV A=C Z=B|inst i1 INV A=B Z=A|tick C- A+ 1|root A+|
net X|net A|net B|inst i1 INV A=A Z=B|inst i2 INV A=B Z=A| => delnet X|move i1 Z A| => fault: edits edit 2 S8 2|
net A|foo| => delinst| => fault: netlist line 2 syntax|
net A|net A| => delinst| => fault: netlist line 2 S2|
";

#[test]
fn netlists_after_edits(rt: HostRuntime) -> Result<(), Fail> {
    let alloc = rt.alloc();
    for row in EDITS.lines() {
        let (netlist, rest) = row.split_once(" => ").ok_or("no arrow")?;
        let (edits, text) = rest.split_once(" => ").ok_or("no second arrow")?;
        let netlist = made(alloc, netlist)?;
        let edits = made(alloc, edits)?;
        let wanted = made(alloc, text)?;
        let files = (LIBRARY.as_bytes(), netlist.as_slice(), edits.as_slice());
        assert!(rt;
            writes(&rt, alloc, "apply lib.toml a.net a.edits", files, &wanted)?,
            "{row}"
        );
    }
    Ok(())
}
