//! Rows of `analyze`.
use crate::words::{LIBRARY, made, run, run_past, shelf, writes};
use cyc_port::Gate;
use std::alloc::{AllocError, Global};
use std::hint;
use std::sync::atomic::{AtomicU64, Ordering};
use std::test::Fail;

/// A C-element, alone and with a reset that has no arc, behind the cells of the tables.
const C_ELEMENTS: &str =
    "[cell.C2]\ninputs = [\"A\", \"B\"]\noutput = \"Z\"\narcs = [{ from = \"A\", sense = \"pos\", rise = 20, fall = 18 }, { from = \"B\", sense = \"pos\", rise = 20, fall = 18 }]\n[cell.C2R]\ninputs = [\"A\", \"B\", \"R\"]\noutput = \"Z\"\narcs = [{ from = \"A\", sense = \"pos\", rise = 20, fall = 18 }, { from = \"B\", sense = \"pos\", rise = 20, fall = 18 }]\n";

/// A netlist on each line, in the writing of the tables, and what is written for it: the report, or the line of a fault.
const ANALYSES: &str = "\
% => period 66/1|cycle 6 66 1|step 1 A+ B- 10 0|step 2 B- C+ 12 0|step 5 C+ A- 10 0|step 0 A- B+ 12 0|step 3 B+ C- 10 0|step 4 C- A+ 12 1|arrival A+ 0/1|arrival A- 32/1|arrival B+ 44/1|arrival B- 10/1|arrival C+ 22/1|arrival C- 54/1|end|
%tick C+ A- 1| => period 33/1|cycle 6 66 2|step 1 A+ B- 10 0|step 2 B- C+ 12 0|step 5 C+ A- 10 1|step 0 A- B+ 12 0|step 3 B+ C- 10 0|step 4 C- A+ 12 1|arrival A+ 0/1|arrival A- -1/1|arrival B+ 11/1|arrival B- 10/1|arrival C+ 22/1|arrival C- 21/1|end|
$tick C- A+ 2|root A+|tick C+ A- 2| => period 33/2|cycle 6 66 4|step 1 A+ B- 10 0|step 2 B- C+ 12 0|step 5 C+ A- 10 2|step 0 A- B+ 12 0|step 3 B+ C- 10 0|step 4 C- A+ 12 2|arrival A+ 0/2|arrival A- -2/2|arrival B+ 22/2|arrival B- 20/2|arrival C+ 44/2|arrival C- 42/2|end|
%delay i1 A 0 0|delay i2 A 0 0|delay i3 A 0 0| => period 0/1|cycle 6 0 1|step 1 A+ B- 0 0|step 2 B- C+ 0 0|step 5 C+ A- 0 0|step 0 A- B+ 0 0|step 3 B+ C- 0 0|step 4 C- A+ 0 1|arrival A+ 0/1|arrival A- 0/1|arrival B+ 0/1|arrival B- 0/1|arrival C+ 0/1|arrival C- 0/1|end|
$tick C- A+ 15|root A+| => period 22/5|cycle 6 66 15|step 1 A+ B- 10 0|step 2 B- C+ 12 0|step 5 C+ A- 10 0|step 0 A- B+ 12 0|step 3 B+ C- 10 0|step 4 C- A+ 12 15|arrival A+ 0/5|arrival A- 160/5|arrival B+ 220/5|arrival B- 50/5|arrival C+ 110/5|arrival C- 270/5|end|
net z0|net n0|net z1|net n1|net z2|net n2|inst c0 C2 A=z2 B=n1 Z=z0|inst v0 INV A=z0 Z=n0|inst c1 C2 A=z0 B=n2 Z=z1|inst v1 INV A=z1 Z=n1|inst c2 C2 A=z1 B=n0 Z=z2|inst v2 INV A=z2 Z=n2|tick z0+ z1+ 1|tick z2- z0- 1|tick n2+ z1+ 1|root z0+| => period 180/1|cycle 12 180 1|step 5 z0+ n0- 10 0|step 15 n0- z2- 18 0|step 16 z2- n2+ 12 0|step 8 n2+ z1+ 20 1|step 11 z1+ n1- 10 0|step 3 n1- z0- 18 0|step 4 z0- n0+ 12 0|step 14 n0+ z2+ 20 0|step 17 z2+ n2- 10 0|step 9 n2- z1- 18 0|step 10 z1- n1+ 12 0|step 2 n1+ z0+ 20 0|arrival z0+ 0/1|arrival z0- -92/1|arrival n0+ -80/1|arrival n0- 10/1|arrival z1+ -120/1|arrival z1- -32/1|arrival n1+ -20/1|arrival n1- -110/1|arrival z2+ -60/1|arrival z2- 28/1|arrival n2+ 40/1|arrival n2- -50/1|end|
net z0 # zero~|net n0~|net z1~|net n1~|net z2~|net n2~|const reset~|inst c0 C2R A=z2 B=n1 R=reset Z=z0~|inst v0 INV A=z0 Z=n0~|inst c1 C2R A=z0 B=n2 R=reset Z=z1 # one~|inst v1 INV A=z1 Z=n1~|inst c2 C2R A=z1 B=n0 R=reset Z=z2~|inst v2 INV A=z2 Z=n2~|# ticks~|tick z0+ z1+ 1~|tick z2- z0- 1~|tick n2+ z1+ 1~|root z0+~|fork bundle z0+ n0- z2- 5 0~| => period 180/1|cycle 12 180 1|step 5 z0+ n0- 10 0|step 15 n0- z2- 18 0|step 16 z2- n2+ 12 0|step 8 n2+ z1+ 20 1|step 11 z1+ n1- 10 0|step 3 n1- z0- 18 0|step 4 z0- n0+ 12 0|step 14 n0+ z2+ 20 0|step 17 z2+ n2- 10 0|step 9 n2- z1- 18 0|step 10 z1- n1+ 12 0|step 2 n1+ z0+ 20 0|arrival z0+ 0/1|arrival z0- -92/1|arrival n0+ -80/1|arrival n0- 10/1|arrival z1+ -120/1|arrival z1- -32/1|arrival n1+ -20/1|arrival n1- -110/1|arrival z2+ -60/1|arrival z2- 28/1|arrival n2+ 40/1|arrival n2- -50/1|fork bundle 13/1 met|end|
net A|net B|net C|net D|inst i1 INV A=A Z=B|inst i2 INV A=B Z=C|inst i4 INV A=B Z=D|inst i3 NOR2 A=C B=D Z=A|tick C- A+ 1|tick D- A+ 1|root A+| => period 66/1|cycle 6 66 1|step 1 A+ B- 10 0|step 2 B- C+ 12 0|step 7 C+ A- 10 0|step 0 A- B+ 12 0|step 3 B+ C- 10 0|step 6 C- A+ 12 1|arrival A+ 0/1|arrival A- 32/1|arrival B+ 44/1|arrival B- 10/1|arrival C+ 22/1|arrival C- 54/1|arrival D+ 22/1|arrival D- 54/1|end|
net A|inst x X1 A=A Z=A|tick A+ A+ 1|tick A- A- 1|tick A- A+ 1|root A+| => period 12/1|cycle 2 12 1|step 2 A+ A- 5 0|step 1 A- A+ 7 1|arrival A+ 0/1|arrival A- 5/1|end|
net A|inst x X1 A=A Z=A|tick A+ A+ 1|tick A- A- 1|tick A- A+ 1|root A-|fork a A- A+ A- 0 1|fork b A+ A- A+ 0 15|fork c A- A- A- 12 1| => period 12/1|cycle 2 12 1|step 2 A+ A- 5 0|step 1 A- A+ 7 1|arrival A+ -5/1|arrival A- 0/1|fork a 17/1 met|fork b 175/1 met|fork c 0/1 met|end|
net A|net B|net C|const rst|inst i1 INV A=A Z=B|inst i2 INV A=B Z=C|inst i3 NOR2 A=C B=rst Z=A|tick C- A+ 1|root A+| => period 66/1|cycle 6 66 1|step 1 A+ B- 10 0|step 2 B- C+ 12 0|step 5 C+ A- 10 0|step 0 A- B+ 12 0|step 3 B+ C- 10 0|step 4 C- A+ 12 1|arrival A+ 0/1|arrival A- 32/1|arrival B+ 44/1|arrival B- 10/1|arrival C+ 22/1|arrival C- 54/1|end|
%fork f1 A+ C+ A- 0 0|fork f2 A+ C+ A- 10 0|fork f3 A+ C+ A- 11 0| => period 66/1|cycle 6 66 1|step 1 A+ B- 10 0|step 2 B- C+ 12 0|step 5 C+ A- 10 0|step 0 A- B+ 12 0|step 3 B+ C- 10 0|step 4 C- A+ 12 1|arrival A+ 0/1|arrival A- 32/1|arrival B+ 44/1|arrival B- 10/1|arrival C+ 22/1|arrival C- 54/1|fork f1 10/1 met|fork f2 0/1 met|fork f3 -1/1 missed|end|
net F|net A|net B|net C|inst i1 INV A=A Z=B|inst i2 INV A=B Z=C|inst i4 INV A=B Z=F|inst i3 NOR2 A=C B=F Z=A|delay i4 A 1 1|tick C- A+ 1|tick F- A+ 1|root A+|fork own F+ F+ A- 15 0|fork z A+ F+ A- 15 0|fork y F+ A+ F+ 0 1|fork x F- F- F+ 0 0| => period 66/1|cycle 6 66 1|step 1 A+ B- 10 0|step 2 B- C+ 12 0|step 7 C+ A- 10 0|step 0 A- B+ 12 0|step 3 B+ C- 10 0|step 6 C- A+ 12 1|arrival F+ 11/1|arrival F- 45/1|arrival A+ 0/1|arrival A- 32/1|arrival B+ 44/1|arrival B- 10/1|arrival C+ 22/1|arrival C- 54/1|fork own -5/1 missed|fork z 6/1 met|fork y 88/1 met|fork x -43/1 missed|end|
net F|net A|net B|net C|inst i1 INV A=A Z=B|inst i2 INV A=B Z=C|inst i4 INV A=B Z=F|inst i3 NOR2 A=C B=F Z=A|delay i4 A 1 1|tick C- A+ 1|tick F- A+ 1|root F+| => period 66/1|cycle 6 66 1|step 1 A+ B- 10 0|step 2 B- C+ 12 0|step 7 C+ A- 10 0|step 0 A- B+ 12 0|step 3 B+ C- 10 0|step 6 C- A+ 12 1|arrival F+ 0/1|arrival F- 23/1|arrival A+ -22/1|arrival A- 10/1|arrival B+ 22/1|arrival B- -12/1|arrival C+ 0/1|arrival C- 32/1|end|
$tick C- A+ 2|root A+|tick C+ A- 2|fork f A+ B- C+ 6 1|fork g A+ C+ A- 0 0|fork h A+ A- A+ 1 0| => period 33/2|cycle 6 66 4|step 1 A+ B- 10 0|step 2 B- C+ 12 0|step 5 C+ A- 10 2|step 0 A- B+ 12 0|step 3 B+ C- 10 0|step 4 C- A+ 12 2|arrival A+ 0/2|arrival A- -2/2|arrival B+ 22/2|arrival B- 20/2|arrival C+ 44/2|arrival C- 42/2|fork f 45/2 met|fork g -46/2 missed|fork h 0/2 met|end|
$tick A- B+ 15|tick A+ B- 15|tick B- C+ 15|tick B+ C- 15|tick C- A+ 15|tick C+ A- 15|root A+| => period 11/15|cycle 6 66 90|step 1 A+ B- 10 15|step 2 B- C+ 12 15|step 5 C+ A- 10 15|step 0 A- B+ 12 15|step 3 B+ C- 10 15|step 4 C- A+ 12 15|arrival A+ 0/15|arrival A- -15/15|arrival B+ 0/15|arrival B- -15/15|arrival C+ 0/15|arrival C- -15/15|end|
net A|net B|net C|inst l BUF A=A Z=B|inst m BUF A=B Z=C|inst j NOR2 A=C B=A Z=A|delay l A 1 1|delay m A 1 1|delay j A 1 1|delay j B 3 3|tick C- A+ 1|tick A- A+ 1|root A+| => period 6/1|cycle 2 6 1|step 7 A+ A- 3 0|step 6 A- A+ 3 1|arrival A+ 0/1|arrival A- 3/1|arrival B+ 1/1|arrival B- 4/1|arrival C+ 2/1|arrival C- 5/1|end|
net A|inst x X1 A=A Z=A|delay x A 5 0|tick A+ A+ 1|tick A- A- 1|tick A- A+ 1|root A-| => period 5/1|cycle 1 5 1|step 0 A+ A+ 5 1|arrival A+ 0/1|arrival A- 0/1|end|
net A|inst x X1 A=A Z=A|delay x A 1000000 999999|tick A+ A+ 1|tick A- A- 15|tick A- A+ 15|tick A+ A- 15|root A-|fork f A+ A+ A- 1000000 15| => period 1000000/1|cycle 1 1000000 1|step 0 A+ A+ 1000000 1|arrival A+ -14000000/1|arrival A- 0/1|fork f -1/1 missed|end|
net A|net B|inst i INV A=A Z=B|inst c C2 A=B B=B Z=A|delay c A 19 18|tick B+ A+ 1|root A+| => period 60/1|cycle 4 60 1|step 1 A+ B- 10 0|step 3 B- A- 18 0|step 0 A- B+ 12 0|step 4 B+ A+ 20 1|arrival A+ 0/1|arrival A- 28/1|arrival B+ 40/1|arrival B- 10/1|end|
net C|net A|net B|inst i3 INV A=C Z=A|inst i1 INV A=A Z=B|inst i2 INV A=B Z=C|tick C- A+ 1|root B-| => period 66/1|cycle 6 66 1|step 1 C+ A- 10 0|step 2 A- B+ 12 0|step 5 B+ C- 10 0|step 0 C- A+ 12 1|step 3 A+ B- 10 0|step 4 B- C+ 12 0|arrival C+ 12/1|arrival C- 44/1|arrival A+ -10/1|arrival A- 22/1|arrival B+ 34/1|arrival B- 0/1|end|
const c|net a[0]|const d|net b/c.1_|inst u/1 NOR2 A=a[0] B=c Z=b/c.1_|inst u.2 BUF A=b/c.1_ Z=a[0]|tick b/c.1_+ a[0]+ 1|root a[0]+|fork x[1] a[0]+ b/c.1_- a[0]- 9 0| => period 39/1|cycle 4 39 1|step 1 a[0]+ b/c.1_- 10 0|step 3 b/c.1_- a[0]- 8 0|step 0 a[0]- b/c.1_+ 12 0|step 2 b/c.1_+ a[0]+ 9 1|arrival a[0]+ 0/1|arrival a[0]- 18/1|arrival b/c.1_+ 30/1|arrival b/c.1_- 10/1|fork x[1] -1/1 missed|end|
net A|net B|net C|net D|inst i1 INV A=A Z=B|inst i2 INV A=B Z=C|inst i4 INV A=B Z=D|inst i3 NOR2 A=C B=D Z=A|tick C- A+ 1|root D-| => fault: netlist V3 A+ B- C+ A- B+ D-|
net A|net B|net C|inst l BUF A=A Z=B|inst m BUF A=B Z=C|inst j NOR2 A=C B=A Z=A|root C-| => fault: netlist V3 A+ A-|
net A|net B|net C|inst l BUF A=A Z=B|inst m BUF A=B Z=C|inst j NOR2 A=C B=A Z=A|tick A+ A- 1|root C-| => fault: netlist V3 A+ B+ C+ A-|
net A|inst x X1 A=A Z=A|tick A+ A+ 1|tick A- A+ 1|root A+| => fault: netlist V3 A-|
net D|net A|net B|inst i4 BUF A=A Z=D|inst b1 BUF A=A Z=B|inst b2 BUF A=B Z=A|tick B+ A+ 1|tick B- A- 1|root A+| => fault: netlist V1 D-|
const c|net A|inst i INV A=c Z=A|root A-| => fault: netlist V1 A+|
%tick A+ B- 1|tick A+ C+ 1|tick A+ B- 0| => fault: netlist H3 2|
%tick A+ C+ 1|tick C- A+ 0|tick C- A+ 1| => fault: netlist H3 1|
net A|net B|inst i1 INV A=A Z=B|inst c C2R A=B B=B R=A Z=A|tick B+ A+ 1|tick A+ A+ 1|root A+| => fault: netlist H3 2|
net A|net B|net C|inst i2 INV A=B Z=C|inst i1 INV A=C Z=A|root A+|tick B+ B+ 1| => fault: netlist H1 B|
%tick B- C+ 1|tick A+ C+ 1|tick C- A+ 0| => fault: netlist H3 2|
%tick B+ A- 1| => fault: netlist H3 2|
net Z|net A|root A+| => fault: netlist H1 Z|
net A|const r|inst c C2R A=A B=A R=r Z=A|delay c R 1 1| => fault: netlist line 4 S10|
$root A+| => fault: netlist V3 A+ B- C+ A- B+ C-|
net A|net B|inst b1 BUF A=A Z=B|inst b2 BUF A=B Z=A|tick B+ A+ 1|tick B- A- 1|root A+| => fault: netlist V1 A-|
net A|net B|inst b1 BUF A=A Z=B|inst b2 BUF A=B Z=A|root A-| => fault: netlist V1 A+|
net A|net B|net C|net D|inst i1 INV A=A Z=B|inst i2 INV A=B Z=C|inst i3 INV A=C Z=A|inst i4 INV A=B Z=D|tick C- A+ 1|root A+| => fault: netlist V2 D+|
net A|net B|net C|net D|inst i1 INV A=A Z=B|inst i2 INV A=B Z=C|inst i3 INV A=C Z=A|inst i4 INV A=B Z=D|root A+| => fault: netlist V2 D+|
net A|net B|inst i1 INV A=A Z=B| => fault: netlist H1 A|
net B|net A|inst i1 INV A=A Z=B|tick A+ A+ 1| => fault: netlist H1 A|
 => fault: netlist H2|
const c| => fault: netlist H2|
$tick A+ C+ 1| => fault: netlist H2|
%tick A+ C+ 1| => fault: netlist H3 2|
%tick A+ B- 1|tick B+ A+ 1|tick A+ C+ 1| => fault: netlist H3 3|
$root A+|tick A+ C+ 1| => fault: netlist H3 1|
net A|net B|net C|inst i1 INV A=A Z=B|inst i2 INV A=B Z=C|inst i3 INV A=C Z= => fault: netlist line 6 S3|
%foo| => fault: netlist line 9 syntax|
net A => fault: netlist H1 A|
net A|net B|net C => fault: netlist H1 A|
net A|net B|net C|inst i1 INV A=A Z=B|inst i2 INV A=B Z=C => fault: netlist H1 A|
$tick C- A+ 1 => fault: netlist H2|
513:net n@|;513:inst i@ INV A=n< Z=n@|tick n<- n@+ 1|tick n<+ n@- 2|;root n0+|tick n0+ n0+ 1| => fault: netlist H3 1027|
513:net n@|;513:inst i@ INV A=n< Z=n@|tick n<- n@+ 1|tick n<+ n@- 2|;root n0+|tick n0+ n0+ 1|tick n512- n0+ 0| => fault: netlist H3 1026|
";

/// The cells of the tables and the C-elements, each with further keys, which a library's reader passes over.
fn cells(alloc: Global) -> Result<String, AllocError> {
    let mut text = String::new(alloc);
    for line in LIBRARY.lines().chain(C_ELEMENTS.lines()) {
        text.push_str(line)?;
        text.push_str("\n")?;
        if line.starts_with("output") {
            text.push_str("area = 12\nfunction = \"C\"\n")?;
        }
    }
    Ok(text)
}

#[test]
fn netlists_and_their_reports(rt: HostRuntime) -> Result<(), Fail> {
    let alloc = rt.alloc();
    let library = cells(alloc)?;
    for row in ANALYSES.lines() {
        let (netlist, text) = row.split_once(" => ").ok_or("no arrow")?;
        let netlist = made(alloc, netlist)?;
        let wanted = made(alloc, text)?;
        let files = (library.as_bytes(), netlist.as_slice(), b"".as_slice());
        assert!(rt;
            writes(&rt, alloc, "analyze lib.toml a.net", files, &wanted)?,
            "{row}"
        );
    }
    Ok(())
}

/// A ring of 33 inverters with 256 forks on 64 roots.
const FORKED: &str =
    "33:net n@|;33:inst i@ INV A=n< Z=n@|;tick n32- n0+ 1|root n0+|;32:fork a@ n@+ n0+ n0- 0 0|fork b@ n@- n0+ n0- 0 0|fork c@ n@+ n0+ n0- 0 0|fork d@ n@- n0+ n0- 0 0|fork e@ n@+ n0+ n0- 0 0|fork f@ n@- n0+ n0- 0 0|fork g@ n@+ n0+ n0- 0 0|fork h@ n@- n0+ n0- 0 0|";

#[test]
fn the_most_forks_and_roots(rt: HostRuntime) -> Result<(), Fail> {
    let alloc = rt.alloc();
    let library = LIBRARY.as_bytes();
    let netlist = made(alloc, FORKED)?;
    let mut forked = shelf(alloc, library, &netlist, b"", Vec::new(alloc))?;
    let (_outcome, sink) = run(
        &rt,
        alloc,
        "analyze lib.toml a.net",
        &mut forked,
        Vec::new(alloc),
    )?;
    let front = b"period 726/1\ncycle 66 726 1\nstep 3 n0+ n1- 10 0\n";
    assert!(rt; sink.bytes().starts_with(front));
    assert!(rt;
        sink.bytes()
            .ends_with(b"fork g31 362/1 met\nfork h31 362/1 met\nend\n")
    );
    // One fork more, on one root more: of the two limits that of the forks is told.
    let more = made(
        alloc,
        format!(in alloc; "{FORKED};fork x n32+ n0+ n0- 0 0|")?.as_str(),
    )?;
    let files = (library, more.as_slice(), b"".as_slice());
    let wanted = b"fault: netlist line 325 S18 forks\n".as_slice();
    assert!(rt; writes(&rt, alloc, "analyze lib.toml a.net", files, wanted)?);
    Ok(())
}

/// Holds the workers 1 and 2 until both have come. It gives up after so many turns, and notes it.
#[derive(Drop)]
struct Meeting {
    first: AtomicU64,
    second: AtomicU64,
    given_up: AtomicU64,
}

impl Gate for Meeting {
    fn pass(&self, who: u64) {
        let came = if who == 1001 {
            &self.first
        } else {
            &self.second
        };
        came.fetch_add(1, Ordering::SeqCst);
        'turns: for _ in 0..1_000_000_000u64 {
            if self.first.load(Ordering::SeqCst) > 0 && self.second.load(Ordering::SeqCst) > 0 {
                return;
            }
            hint::spin_loop();
        }
        self.given_up.fetch_add(1, Ordering::SeqCst);
    }
}

#[test]
fn two_workers_run_at_once(rt: HostRuntime) -> Result<(), Fail> {
    let alloc = rt.alloc();
    let gate = Meeting {
        first: AtomicU64::new(0),
        second: AtomicU64::new(0),
        given_up: AtomicU64::new(0),
    };
    let library = cells(alloc)?;
    let row = ANALYSES.lines().nth(5).ok_or("no Muller ring")?;
    let (netlist, text) = row.split_once(" => ").ok_or("no arrow")?;
    let netlist = made(alloc, netlist)?;
    let wanted = made(alloc, text)?;
    let mut ring = shelf(alloc, library.as_bytes(), &netlist, b"", Vec::new(alloc))?;
    let line = "analyze lib.toml a.net --workers 2";
    let (_outcome, sink) = run_past(&rt, alloc, line, &mut ring, Vec::new(alloc), &gate)?;
    assert_eq!(rt; sink.bytes(), wanted.as_slice());
    assert_eq!(rt; gate.given_up.load(Ordering::SeqCst), 0);
    Ok(())
}
