// The known sweeps, each from a fresh book, and the two-order example. The listings were worked
// out by hand from the rules.
use files::pack::pack;
use session::running::{LISTING_BYTES, run_session};
use std::process::Abort;
use std::test::Fail;

// Packs a text, plays it and compares the listing; a failure says the session's name.
fn plays(rt: &impl Abort, name: &str, text: &[u8], expected: &[u8]) -> Result<(), Fail> {
    let mut file = [0u8; 1024];
    let mut listing = [0u8; LISTING_BYTES];
    let size = pack(text, &mut file).map_err(|_| Fail::new(format_args!("{name}: not packed")))?;
    let length = run_session(&file[..size], &mut listing).map_err(|_| Fail::new(format_args!(
        "{name}: refused"
    )))?;
    assert!(rt; &listing[..length] == expected, "{name}");
    Ok(())
}

const TWO_ORDERS: &[u8; 49] = b"N ABLE O B 1000 5000\n\
N BAKER I S 1000 6000 1 0 C\n";

const TWO_ORDERS_LISTING: &[u8; 54] = b"ABLE 0 1 5000 0\n\
BAKER 0 2 0 1000\n\
F 2 1 1000 5000\n\
LI 0\n";

const SWEEP_01: &[u8; 91] = b"N OLO1 O B 1000 5000\n\
N OLO2 O B 1000 5000\n\
N OLO3 O B 1000 4000\n\
N ILO4 I S 1000 10000 1 0 C\n";

const SWEEP_01_LISTING: &[u8; 98] = b"OLO1 0 1 5000 0\n\
OLO2 0 2 5000 0\n\
OLO3 0 3 4000 0\n\
ILO4 0 4 0 0\n\
F 4 1 1000 5000\n\
F 4 2 1000 5000\n\
LI 1\n";

const SWEEP_02: &[u8; 122] = b"N OLO1 O B 1000 5000\n\
N OLO2 O B 1000 5000\n\
N OLO3 O B 1000 4000\n\
N ILO4 I S 1000 13800 1 10000 C\n\
N ILO5 I S 1000 5000 1 0 C\n";

const SWEEP_02_LISTING: &[u8; 145] = b"OLO1 0 1 5000 0\n\
OLO2 0 2 5000 0\n\
OLO3 0 3 4000 0\n\
ILO4 0 4 0 0\n\
F 4 1 1000 5000\n\
F 4 2 1000 5000\n\
F 4 3 1000 3800\n\
ILO5 0 5 0 4800\n\
F 5 3 1000 200\n\
LI 0\n";

const SWEEP_03: &[u8; 127] = b"N OLO1 O B 1000 5000\n\
N OLO2 O B 1000 5000\n\
N OLO3 O B 1000 4000\n\
N ILO4 I S 1000 20000 1 14001 C\n\
N ILO5 I S 1000 20000 1 14000 C\n";

const SWEEP_03_LISTING: &[u8; 134] = b"OLO1 0 1 5000 0\n\
OLO2 0 2 5000 0\n\
OLO3 0 3 4000 0\n\
ILO4 0 4 0 20000\n\
ILO5 0 5 0 6000\n\
F 5 1 1000 5000\n\
F 5 2 1000 5000\n\
F 5 3 1000 4000\n\
LI 0\n";

const SWEEP_04: &[u8; 91] = b"N OLO1 O B 1000 5000\n\
N OLO2 O B 1000 2000\n\
N OLO3 O B 1000 4000\n\
N ILO4 I S 1000 10000 1 0 C\n";

const SWEEP_04_LISTING: &[u8; 114] = b"OLO1 0 1 5000 0\n\
OLO2 0 2 2000 0\n\
OLO3 0 3 4000 0\n\
ILO4 0 4 0 0\n\
F 4 1 1000 5000\n\
F 4 3 1000 4000\n\
F 4 2 1000 1000\n\
LI 1\n";

const SWEEP_05: &[u8; 139] = b"N OLO1 O B 1000 5000\n\
N OLO2 O B 1000 5000\n\
N OLO3 O B 1001 4000\n\
N OLO4 O B 1000 4000\n\
N ILO5 I S 1000 11000 1 0 C\n\
N ILO6 I S 1000 5000 1 0 C\n";

const SWEEP_05_LISTING: &[u8; 175] = b"OLO1 0 1 5000 0\n\
OLO2 0 2 5000 0\n\
OLO3 0 3 4000 0\n\
OLO4 0 4 4000 0\n\
ILO5 0 5 0 0\n\
F 5 3 1001 4000\n\
F 5 1 1000 5000\n\
F 5 2 1000 2000\n\
ILO6 0 6 0 0\n\
F 6 2 1000 3000\n\
F 6 4 1000 2000\n\
LI 1\n";

const SWEEP_06: &[u8; 148] = b"N OLO1 O B 1000 5000\n\
N OLO2 O B 1000 5000\n\
N OLO3 O B 1001 4000\n\
N OLO4 O B 1000 4000\n\
N ILO5 I S 1000 11000 1 0 C\n\
U 2 2000\n\
N ILO6 I S 1000 5000 1 0 C\n";

const SWEEP_06_LISTING: &[u8; 191] = b"OLO1 0 1 5000 0\n\
OLO2 0 2 5000 0\n\
OLO3 0 3 4000 0\n\
OLO4 0 4 4000 0\n\
ILO5 0 5 0 0\n\
F 5 3 1001 4000\n\
F 5 1 1000 5000\n\
F 5 2 1000 2000\n\
- 0 2 1000 2000\n\
ILO6 0 6 0 0\n\
F 6 4 1000 4000\n\
F 6 2 1000 1000\n\
LI 0\n";

const SWEEP_07: &[u8; 122] = b"N OLO1 O B 1000 5000\n\
N OLO2 O B 1000 5000\n\
N OLO3 O B 1000 4000\n\
N ILO4 I B 1000 10000 1 5000 R\n\
N ILO5 I S 1000 15000 1 0 C\n";

const SWEEP_07_LISTING: &[u8; 116] = b"OLO1 0 1 5000 0\n\
OLO2 0 2 5000 0\n\
OLO3 0 3 4000 0\n\
ILO4 0 4 10000 0\n\
ILO5 0 5 0 0\n\
F 5 4 1000 10000\n\
F 5 1 1000 5000\n\
LI 1\n";

const SWEEP_08: &[u8; 70] = b"N DISP1 L B 1000 1000\n\
N OLO2 O B 1001 5000\n\
N ILO3 I S 1000 6000 1 0 C\n";

const SWEEP_08_LISTING: &[u8; 83] = b"DISP1 0 1 1000 0\n\
OLO2 0 2 5000 0\n\
ILO3 0 3 0 0\n\
F 3 2 1001 5000\n\
F 3 1 1000 1000\n\
LI 0\n";

const SWEEP_09: &[u8; 148] = b"N DISP1 L B 1000 1000\n\
N DARK2 D B 1000 4000\n\
N OLO3 O B 1000 4000\n\
N DISP4 L B 999 2000\n\
N OLO5 O B 999 4000\n\
Q 7 B 1000 100\n\
N ILO6 I S 999 12000 2 0 C\n";

const SWEEP_09_LISTING: &[u8; 203] = b"DISP1 0 1 1000 0\n\
DARK2 0 2 4000 0\n\
OLO3 0 3 4000 0\n\
DISP4 0 4 2000 0\n\
OLO5 0 5 4000 0\n\
- 0 0 0 0\n\
ILO6 0 6 0 0\n\
F 6 1 1000 1000\n\
F 6 3 1000 4000\n\
F 6 2 1000 4000\n\
R 6 7 1000 100\n\
F 6 4 999 2000\n\
F 6 5 999 900\n\
LI 1\n";

const SWEEP_10: &[u8; 148] = b"N DISP1 L B 1000 1000\n\
N DARK2 D B 1000 4000\n\
N OLO3 O B 1000 4000\n\
N DISP4 L B 999 2000\n\
N OLO5 O B 999 4000\n\
Q 7 B 1000 100\n\
N ILO6 I S 999 12000 1 0 C\n";

const SWEEP_10_LISTING: &[u8; 162] = b"DISP1 0 1 1000 0\n\
DARK2 0 2 4000 0\n\
OLO3 0 3 4000 0\n\
DISP4 0 4 2000 0\n\
OLO5 0 5 4000 0\n\
- 0 0 0 0\n\
ILO6 0 6 0 3000\n\
F 6 1 1000 1000\n\
F 6 3 1000 4000\n\
F 6 2 1000 4000\n\
LI 1\n";

const SWEEP_11: &[u8; 105] = b"N OLO1 O B 1006 5000\n\
Q 7 S 1005 100\n\
N ILO2 I S 1000 5000 1 0 C\n\
Q 7 S 1006 100\n\
N ILO3 I S 1000 5000 1 0 C\n";

const SWEEP_11_LISTING: &[u8; 86] = b"OLO1 0 1 5000 0\n\
- 0 0 0 0\n\
ILO2 0 2 0 5000\n\
- 0 0 0 0\n\
ILO3 0 3 0 0\n\
F 3 1 1006 5000\n\
LI 0\n";

const SWEEP_12: &[u8; 68] = b"N ILO1 I B 1000 5000 1 0 R\n\
N DISP2 L B 1000 100\n\
N OLO3 O S 1000 500\n";

const SWEEP_12_LISTING: &[u8; 52] = b"ILO1 0 1 5000 0\n\
DISP2 0 2 100 0\n\
OLO3 0 3 500 0\n\
LI 1\n";

#[test]
fn known_sweeps(rt: HostRuntime) -> Result<(), Fail> {
    plays(&rt, "two-orders", TWO_ORDERS, TWO_ORDERS_LISTING)?;
    plays(&rt, "sweep-01", SWEEP_01, SWEEP_01_LISTING)?;
    plays(&rt, "sweep-02", SWEEP_02, SWEEP_02_LISTING)?;
    plays(&rt, "sweep-03", SWEEP_03, SWEEP_03_LISTING)?;
    plays(&rt, "sweep-04", SWEEP_04, SWEEP_04_LISTING)?;
    plays(&rt, "sweep-05", SWEEP_05, SWEEP_05_LISTING)?;
    plays(&rt, "sweep-06", SWEEP_06, SWEEP_06_LISTING)?;
    plays(&rt, "sweep-07", SWEEP_07, SWEEP_07_LISTING)?;
    plays(&rt, "sweep-08", SWEEP_08, SWEEP_08_LISTING)?;
    plays(&rt, "sweep-09", SWEEP_09, SWEEP_09_LISTING)?;
    plays(&rt, "sweep-10", SWEEP_10, SWEEP_10_LISTING)?;
    plays(&rt, "sweep-11", SWEEP_11, SWEEP_11_LISTING)?;
    plays(&rt, "sweep-12", SWEEP_12, SWEEP_12_LISTING)
}
