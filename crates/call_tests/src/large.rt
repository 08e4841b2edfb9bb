//! Whole calls on maps as wide, as high and as large as real ones, and output of several pieces.
//!
//! Want of memory may be answered at any time, so no clause tells a body that gives up by size from a right
//! one: these calls do. Nothing is stored of their maps, a rule tells each byte. Along a map stands a wall in
//! each 64th column, open in row 0 and in row 16 in turn, and the last corner is closed in:
//!
//! ```text
//! .. 31 32 33 .. 95 96 97 ..
//!     .  .  .     .  #  .       row 0
//!     .  #  .     .  #  .
//!     .  #  .     .  .  .       row 16
//! ```
//!
//! All walks go through all openings. From one to the next are 64 columns and 16 rows, so 48 straight moves
//! and 16 diagonal ones under each rule: each wall is left straight ahead.
//! The high map is the wide one, turned over.

ghost use Rattle.std.specs.Prelude.{None};
ghost use Rattle.io_edge.specs.Known.{unknown};

use crate::calls::{RULES, run_counting, stream, strings};
use crate::table::{engines_of, rules_of, spelled};
use io_edge::{Failed, Files, MemSink, SureSource};
use std::alloc::{AllocError, Global};
use std::marker::Brand;
use std::process::Abort;
use std::sync::ledger::Blank;
use std::test::Fail;

// A map: its text before the cells, its sides, and whether its walls lie along rows. Three cells are given
// as text, column and row: the first opening, a goal, and the cell that is closed in. The cost is that of
// (0,0) to the goal.
#[derive(Clone, Copy)]
struct Plan {
    head: &'static [u8],
    width: u16,
    height: u16,
    is_high: bool,
    opening: &'static str,
    goal: &'static str,
    shut: &'static str,
    cost: &'static str,
}

// 64 walls: 32 straight moves to the first opening, 63 times from one to the next, and to the goal 23
// straight moves and 8 diagonal ones.
const WIDE: Plan = Plan {
    head: b"type octile\nheight 17\nwidth 4096\nmap\n",
    width: 4096,
    height: 17,
    is_high: false,
    opening: "32 0",
    goal: "4095 8",
    shut: "4095 16",
    cost: "3079 1016",
};

const HIGH: Plan = Plan {
    head: b"type octile\nheight 4096\nwidth 17\nmap\n",
    width: 17,
    height: 4096,
    is_high: true,
    opening: "0 32",
    goal: "8 4095",
    shut: "16 4095",
    ..WIDE
};

// Eight walls, and two.
const SQUARE: Plan = Plan {
    head: b"type octile\nheight 512\nwidth 512\nmap\n",
    width: 512,
    height: 512,
    goal: "511 8",
    shut: "511 511",
    cost: "391 120",
    ..WIDE
};

const SMALL: Plan = Plan {
    head: b"type octile\nheight 128\nwidth 128\nmap\n",
    width: 128,
    height: 128,
    goal: "127 8",
    shut: "127 127",
    cost: "103 24",
    ..WIDE
};

// One wall.
const TINY: Plan = Plan {
    head: b"type octile\nheight 64\nwidth 64\nmap\n",
    width: 64,
    height: 64,
    ..SMALL
};

impl Plan {
    fn is_blocked(self, x: u64, y: u64) -> bool {
        let right = u64::from(self.width).saturating_sub(x);
        let below = u64::from(self.height).saturating_sub(y);
        if right <= 2 && below <= 2 {
            return right + below > 2;
        }
        let (along, across) = if self.is_high { (y, x) } else { (x, y) };
        along % 64 == 32 && across != along / 64 % 2 * 16
    }

    // The byte of the map's text at this place, none at its end.
    fn byte(self, place: u64) -> Option<u8> {
        let Some(behind) = place.checked_sub(self.head.len() as u64) else {
            return self.head.get(place as usize).copied();
        };
        let line = u64::from(self.width) + 1;
        let (x, y) = (behind % line, behind / line);
        if y >= u64::from(self.height) {
            return None;
        }
        if x == u64::from(self.width) {
            return Some(b'\n');
        }
        Some(if self.is_blocked(x, y) { b'@' } else { b'.' })
    }
}

// A text of these first bytes, and of a line that comes so often behind them.
#[derive(Clone, Copy)]
struct Text<'a> {
    head: &'a [u8],
    line: &'a [u8],
    times: u64,
}

impl<'a> Text<'a> {
    fn of(head: &'a [u8]) -> Text<'a> {
        Text {
            head,
            line: b"",
            times: 0,
        }
    }

    fn byte(self, place: u64) -> Option<u8> {
        let Some(behind) = place.checked_sub(self.head.len() as u64) else {
            return self.head.get(place as usize).copied();
        };
        let size = self.line.len() as u64;
        if size == 0 || behind / size >= self.times {
            return None;
        }
        self.line.get((behind % size) as usize).copied()
    }

    fn whole(self, alloc: Global) -> Result<Vec<u8>, AllocError> {
        let mut bytes = Vec::from_slice(alloc, self.head)?;
        for _line in 0..self.times {
            bytes.extend_from_slice(self.line)?;
        }
        Ok(bytes)
    }
}

// The map `m`, and the files `s` and `t`.
#[derive(Clone, Copy, Drop)]
struct Made<'a> {
    plan: Plan,
    second: Text<'a>,
    third: Text<'a>,
}

impl<'a> Made<'a> {
    fn of(plan: Plan, second: &'a [u8], third: &'a [u8]) -> Made<'a> {
        Made {
            plan,
            second: Text::of(second),
            third: Text::of(third),
        }
    }

    fn byte(&self, name: &str, place: u64) -> Option<u8> {
        match name {
            "m" => self.plan.byte(place),
            "s" => self.second.byte(place),
            _ => self.third.byte(place),
        }
    }
}

impl<'a> Files for Made<'a> {
    ghost disk = { λ _. record { holds = λ _. unknown; faults = λ _. 0 } };

    fn read_at(&mut self, name: &str, place: u64, buf: &mut [u8]) -> Result<usize, Failed> {
        let size = buf.len();
        for (k, slot) in buf.iter_mut().enumerate() {
            match self.byte(name, place.saturating_add(k as u64)) {
                Some(byte) => *slot = byte,
                None => return Ok(k),
            }
        }
        Ok(size)
    }
}

// More than any output here.
const ROOM: usize = 16_000_000;

// What a call of these words writes; it is done, and nothing goes to standard error.
fn output_of(alloc: Global, rt: &impl Abort, made: Made<'_>, words: &str) -> Result<MemSink, Fail> {
    let mut files = made;
    let mut input = SureSource::new(made.second.whole(alloc)?);
    let mut out = MemSink::new(alloc, ROOM, ROOM, Vec::new(alloc))?;
    let mut err = stream(alloc, 0)?;
    let given = strings(alloc, words)?;
    let status = run_counting::<Made<'_>, SureSource, MemSink, Brand>(
        alloc,
        given.as_slice(),
        &mut files,
        &mut input,
        &mut out,
        &mut err,
        Blank::new(1),
    );
    assert_eq!(rt; (status, err.bytes()), (0, b"".as_slice()), "{words}");
    Ok(out)
}

// By each engine and under each rule of their sets the output of these words begins and ends so, and has at
// least so many bytes.
fn check_ends(
    alloc: Global,
    rt: &impl Abort,
    made: Made<'_>,
    words: &str,
    ends: (&str, &str),
    least: usize,
) -> Result<(), Fail> {
    for engine in engines_of(words) {
        for rule in rules_of(words) {
            let call = spelled(alloc, words, engine, rule)?;
            let out = output_of(alloc, rt, made, call.as_str())?;
            let bytes = out.bytes();
            let is_so = bytes.starts_with(ends.0.as_bytes()) && bytes.ends_with(ends.1.as_bytes());
            assert_eq!(rt; is_so && bytes.len() >= least, true, "{call}");
        }
    }
    Ok(())
}

// A far query, one that has no walk, and edits of the first opening with queries between them.
fn script_of(alloc: Global, plan: Plan) -> Result<String, AllocError> {
    let Plan {
        opening,
        goal,
        shut,
        ..
    } = plan;
    format!(in alloc;
        "query 0 0 {goal}\nquery 0 0 {shut}\nblock {opening}\nquery 0 0 {goal}\nflood {opening}\n\
        query {opening} {opening}\nfree {opening}\nquery 0 0 1 0\n"
    )
}

// The answers to it, from the last point of the far walk on.
fn answers_of(alloc: Global, plan: Plan) -> Result<String, AllocError> {
    let goal = point_of(alloc, plan.goal)?;
    let opening = point_of(alloc, plan.opening)?;
    format!(in alloc; " {goal}\nnone\nok\nnone\nok\nwalk 0 0 {opening}\nok\nwalk 1 0 0,0 1,0\n")
}

// A cell of two words as a point.
fn point_of(alloc: Global, cell: &str) -> Result<String, AllocError> {
    let (x, y) = cell.split_once(' ').unwrap_or((cell, ""));
    format!(in alloc; "{x},{y}")
}

const LARGE: [Plan; 3] = [WIDE, HIGH, SQUARE];

// A query, and a script that goes to `solve` as a file and to `live` as what comes in.
#[test]
fn large_maps_are_searched_by_each_engine(rt: HostRuntime) -> Result<(), Fail> {
    let alloc = rt.alloc();
    for plan in LARGE {
        let script = script_of(alloc, plan)?;
        let made = Made::of(plan, script.as_bytes(), b"");
        let walk = format!(in alloc; "walk {} 0,0 ", plan.cost)?;
        let answers = answers_of(alloc, plan)?;
        let ends = (walk.as_str(), answers.as_str());
        check_ends(alloc, &rt, made, "solve m s engine=each rule=any", ends, 0)?;
        check_ends(alloc, &rt, made, "live m engine=each rule=any", ends, 0)?;
        let words = format!(in alloc; "query m 0 0 {} engine=each rule=any", plan.goal)?;
        check_ends(alloc, &rt, made, words.as_str(), (walk.as_str(), "\n"), 0)?;
    }
    Ok(())
}

#[test]
fn large_maps_are_drawn_and_have_costs(rt: HostRuntime) -> Result<(), Fail> {
    let alloc = rt.alloc();
    for plan in LARGE {
        let made = Made::of(plan, b"", b"");
        let ends = ("0,0 1,0 2,0 3,0 ", " - -\n");
        check_ends(alloc, &rt, made, "costs m 0 0 rule=any", ends, 2 * PIECE)?;
        let words = format!(in alloc; "draw m 0 0 {} show=trace engine=each rule=any", plan.goal)?;
        check_ends(
            alloc,
            &rt,
            made,
            words.as_str(),
            ("<svg ", "</svg>\n"),
            1000,
        )?;
    }
    Ok(())
}

// A certificate goes back to `check`.
#[test]
fn certificates_on_large_maps_are_accepted(rt: HostRuntime) -> Result<(), Fail> {
    let alloc = rt.alloc();
    for plan in LARGE {
        let least = format!(in alloc; "accepted least {}\n", plan.cost)?;
        for rule in RULES {
            for (goal, line) in [(plan.goal, least.as_str()), (plan.shut, "accepted none\n")] {
                let words = format!(in alloc; "prove m 0 0 {goal} {rule}")?;
                let proved = output_of(alloc, &rt, Made::of(plan, b"", b""), words.as_str())?;
                let made = Made::of(plan, proved.bytes(), b"");
                let words = format!(in alloc; "check m s {rule}")?;
                check_ends(alloc, &rt, made, words.as_str(), (line, line), 0)?;
            }
        }
    }
    Ok(())
}

// Tables go back to a session.
#[test]
fn tables_of_large_maps_are_loaded(rt: HostRuntime) -> Result<(), Fail> {
    let alloc = rt.alloc();
    for plan in LARGE {
        let script = script_of(alloc, plan)?;
        let walk = format!(in alloc; "walk {} 0,0 ", plan.cost)?;
        let answers = answers_of(alloc, plan)?;
        for rule in RULES {
            let words = format!(in alloc; "tables m {rule}")?;
            let tables = output_of(alloc, &rt, Made::of(plan, b"", b""), words.as_str())?;
            let made = Made::of(plan, script.as_bytes(), tables.bytes());
            let words = format!(in alloc; "solve m s tables=t engine=loading {rule}")?;
            let ends = (walk.as_str(), answers.as_str());
            check_ends(alloc, &rt, made, words.as_str(), ends, 0)?;
        }
    }
    Ok(())
}

// Problems go back to `scen`, which agrees with each, and to `lengths`, which writes them once more.
#[test]
fn scenarios_of_large_maps_agree(rt: HostRuntime) -> Result<(), Fail> {
    let alloc = rt.alloc();
    for plan in LARGE {
        for rule in RULES {
            let words = format!(in alloc; "problems m 1 200 {rule}")?;
            let posed = output_of(alloc, &rt, Made::of(plan, b"", b""), words.as_str())?;
            let made = Made::of(plan, posed.bytes(), b"");
            let ends = ("row 1 agree ", "\nsum 200 agree 200 near 0 off 0 other 0\n");
            let words = format!(in alloc; "scen m s engine=each {rule}")?;
            check_ends(alloc, &rt, made, words.as_str(), ends, 0)?;
            let words = format!(in alloc; "lengths m s {rule}")?;
            let lengths = output_of(alloc, &rt, made, words.as_str())?;
            assert_eq!(rt; lengths.bytes() == posed.bytes(), true, "{words}");
        }
    }
    Ok(())
}

// So many bytes wait before they are written.
const PIECE: usize = 65_536;

// So many equal commands, entries and claimed walks.
const TIMES: u64 = 20_000;

#[test]
fn output_of_three_pieces_is_whole(rt: HostRuntime) -> Result<(), Fail> {
    let alloc = rt.alloc();
    let query: (&[u8], &[u8]) = (b"", b"query 0 0 1 0\n");
    let entry: (&[u8], &[u8]) = (b"version 1\n", b"0 m 4096 17 0 0 1 0 1\n");
    let walk = "walk 1 0 0,0 1,0\n";
    let length = "\n0\tm\t4096\t17\t0\t0\t1\t0\t1.00000000\n";
    let agreed = "\nrow 20000 agree 1 0\nsum 20000 agree 20000 near 0 off 0 other 0\n";
    let accepted = "\nrow 20000 accepted 1 0\nsum 20000 accepted 20000 refused 0 other 0\n";
    let table = [
        ("solve m s engine=each rule=any", query, (walk, walk)),
        ("live m engine=each rule=any", query, (walk, walk)),
        (
            "scen m s engine=each rule=any",
            entry,
            ("row 1 agree 1 0\nrow 2 ", agreed),
        ),
        (
            "judge m s t rule=any",
            entry,
            ("row 1 accepted 1 0\nrow 2 ", accepted),
        ),
        ("lengths m s rule=any", entry, ("version 1\n", length)),
    ];
    for (words, (head, line), ends) in table {
        let made = Made {
            plan: WIDE,
            second: Text {
                head,
                line,
                times: TIMES,
            },
            third: Text {
                head: b"",
                line: b"0,0 1,0\n",
                times: TIMES,
            },
        };
        check_ends(alloc, &rt, made, words, ends, 2 * PIECE)?;
    }
    Ok(())
}

// The largest map that the engines for small maps take, many entries on one that is less, and a made map.
#[test]
fn the_largest_of_small_maps_is_searched(rt: HostRuntime) -> Result<(), Fail> {
    let alloc = rt.alloc();
    let made = Made::of(SMALL, b"", b"");
    let dots = "............\n";
    let table = [
        (
            "query m 0 0 127 8 engine=small rule=any",
            ("walk 103 24 0,0 ", " 127,8\n"),
            0,
        ),
        (
            "boxes m 0 0 rule=any",
            ("box N none\n", "\nbox NW none\n"),
            0,
        ),
        (
            "moves m 0 0 rule=any",
            ("run 0,0 -\nrun 1,0 E\n", " -\n"),
            1000,
        ),
        (
            "make 1 4096 17 0",
            ("type octile\nheight 17\nwidth 4096\nmap\n...", dots),
            PIECE,
        ),
    ];
    for (words, ends, least) in table {
        check_ends(alloc, &rt, made, words, ends, least)?;
    }
    let entries = Text {
        head: b"version 1\n",
        line: b"0 m 64 64 0 0 1 0 1\n",
        times: 200,
    };
    let made = Made {
        plan: TINY,
        second: entries,
        third: Text::of(b""),
    };
    let agreed = "\nsum 200 agree 200 near 0 off 0 other 0\n";
    let words = "scen m s engine=small rule=any";
    check_ends(alloc, &rt, made, words, ("row 1 agree 1 0\n", agreed), 0)
}
