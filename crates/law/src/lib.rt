// Theorems about the rules, each as the contract of a function: calling one hands its caller the
// theorem.
#![tactic(auto)]

ghost use Rattle.std.specs.Prelude.{◌≡◌, true};
ghost use Rattle.law.specs.Holdings.{RowsCounted, TapeCounted};
ghost use Rattle.law.specs.Keeping.{SharesKept, FillsKept, RowsFit, SidesFit};
ghost use Rattle.law.specs.Known.{Known};
ghost use Rattle.law.specs.Law.{TapeLaw, TapeGoesOn};
ghost use Rattle.law.specs.Objections.{Objections};
ghost use Rattle.law.specs.Ranges.{TapeRanged};
ghost use Rattle.law.specs.Verdicts.{OneVerdict};

// The law of the tape: for every lawful ranking, every start of the board and every list of calls,
// each entry of the tape passes the judge.
pub fn tape_law()
    ensures { TapeLaw }
{}

// One more call adds its entry at the end of the tape, at the market that the calls before it leave.
pub fn tape_goes_on()
    ensures { TapeGoesOn }
{}

// The sweeps whose fills are known come out so.
pub fn known_sweeps()
    ensures { Known ≡ true }
{}

// The judge leaves no choice: of the same calls only one tape passes.
pub fn one_verdict()
    ensures { OneVerdict }
{}

// The judge is not empty: a tape with a fault of any of its kinds does not pass.
pub fn judge_objects()
    ensures { Objections }
{}

// Shares entered are open, cancelled, filled or routed, and none besides.
pub fn shares_kept()
    ensures { SharesKept }
{}

// A call takes off every order that it does not name exactly what its fills say.
pub fn fills_kept()
    ensures { FillsKept }
{}

// No call writes more than 144 rows.
pub fn rows_fit()
    ensures { RowsFit }
{}

// No call leaves more than 128 orders on a side.
pub fn sides_fit()
    ensures { SidesFit }
{}

// A call's rows, and the orders and quotations held after it, are at most one more than those held before.
pub fn rows_counted()
    ensures { RowsCounted }
{}

// All rows of a tape are at most its calls and the quotations of its start.
pub fn tape_counted()
    ensures { TapeCounted }
{}

// Every figure of a tape stays in its range.
pub fn figures_ranged()
    ensures { TapeRanged }
{}
