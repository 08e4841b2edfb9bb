use grid_moves::Corner;
use std::alloc::{AllocError, Global};
use std::process::Abort;
use std::test::*;
use word_list::*;

fn words_of(alloc: Global, line: &str) -> Result<Vec<String>, AllocError> {
    let mut words = Vec::new(alloc);
    for word in line.split(' ') {
        words.push(String::from_str(alloc, word)?)?;
    }
    Ok(words)
}

// Counted by hand, from the table of commands.
#[test]
fn the_first_word_of_no_call_is_named(rt: HostRuntime) -> Result<(), Fail> {
    let lists: [(&str, u32); 86] = [
        ("mkae", 1),
        ("make", 2),
        ("make 7 0 2 0", 3),
        ("drill 1 show=cells", 3),
        ("--help x", 2),
        ("query", 2),
        ("query m 0 0 2", 6),
        ("query m 0 0 2 x y", 6),
        ("query m 0 0 0000000002 2", 5),
        ("query m 0 0 2 2 2", 7),
        ("query m 0 0 2 2 engine=jsp", 7),
        ("query m 0 0 2 2 engine=jps engine=plain", 8),
        ("query m 0 0 2 2 engine=plain show=cells engine=plain", 9),
        ("query m engine=plain 0 0 2 2", 3),
        ("query m 0 0 1 1 engine=moves show=trace", 8),
        ("query m 0 0 1 1 show=trace engine=moves", 8),
        ("query m 0 0 1 1 show=trace rule=one engine=moves", 9),
        ("query m 0 0 1 1 engine=boxes engine=moves", 8),
        ("draw m 0 0 2 2 engine=boxes", 7),
        ("solve m s engine=moves", 4),
        ("live m engine=boxes", 3),
        ("drill 1 engine=moves", 3),
        ("draw m 0 0 2 2 show=cells", 7),
        ("draw m 0 0 2 2 show=trace show=points", 8),
        ("costs m 0 0 engine=plain", 5),
        ("tables m engine=plus", 3),
        ("boxes m 0", 4),
        ("moves m 0 0 rule=one show=trace", 6),
        ("solve m s engine=", 4),
        ("live", 2),
        ("live m s", 3),
        ("live m show=cells show=cells", 4),
        ("prove m 0 0 1 1 engine=plain", 7),
        ("check m", 3),
        ("check m c show=cells", 4),
        ("judge m s", 4),
        ("judge m s w engine=block", 5),
        ("scen m", 3),
        ("scen m s show=points engine=plain", 4),
        ("scen m s show=taken show=taken", 5),
        ("scen m s engine=moves show=taken", 5),
        ("scen m s show=taken rule=one engine=moves", 6),
        ("query m 0 0 2 2 show=taken", 7),
        ("draw m 0 0 2 2 show=taken", 7),
        ("scen m s rule=one rule=none rule=one", 5),
        ("query m 0 0 2 0 tables=f", 8),
        ("query m 0 0 2 0 tables=f rule=one", 9),
        ("query m 0 0 2 0 tables=", 7),
        ("query m 0 0 2 0 engine=plus tables=", 8),
        ("query m 0 0 2 0 engine=jps tables=f", 8),
        ("query m 0 0 2 0 tables=f show=cells engine=plain", 9),
        ("query m 0 0 2 0 tables=f engine=boxes", 8),
        ("solve m s engine=plus tables=f tables=g", 6),
        ("live m tables=f", 4),
        ("serve", 2),
        ("serve m s", 3),
        ("serve m show=trace", 3),
        ("serve m show=taken", 3),
        ("serve m engine=moves", 3),
        ("serve m states=cell engine=plain", 4),
        ("serve m engine=plain states=cell", 4),
        ("serve m tables=f", 4),
        ("serve m tables=f engine=block", 4),
        ("serve m tables=f states=cell", 5),
        ("scen m s tables=f show=taken", 6),
        ("drill 1 tables=f", 3),
        ("draw m 0 0 2 2 engine=plus tables=f", 8),
        ("judge m s w tables=f", 5),
        ("query m 0 0 2 0 states=cell", 8),
        ("query m 0 0 2 0 states=arrival rule=one", 9),
        ("query m 0 0 2 0 states=cell engine=plain", 8),
        ("query m 0 0 2 0 engine=plain states=arrival", 8),
        ("query m 0 0 2 0 states=cell show=trace engine=boxes", 9),
        ("query m 0 0 2 0 engine=boxes states=cell", 8),
        ("query m 0 0 2 0 engine=moves states=cell", 8),
        ("query m 0 0 2 0 states=cell states=arrival", 8),
        (
            "query m 0 0 2 0 engine=jps states=cell rule=one states=cell",
            10,
        ),
        ("query m 0 0 2 0 states=both", 7),
        ("query m 0 0 2 0 engine=jps states=", 8),
        ("query m 0 0 2 0 states=cell tables=f", 9),
        ("query m 0 0 2 0 states=cell tables=f engine=block", 9),
        ("solve m s states=cell", 5),
        ("live m states=arrival", 4),
        ("scen m s states=cell engine=moves", 5),
        ("drill 1 states=cell", 4),
        ("prove m 0 0 2 0 states=cell", 7),
    ];
    for (line, number) in lists {
        let words = words_of(rt.alloc(), line)?;
        assert!(rt;
            matches!(read_words(&words), Err(BadWord(named)) if named == number),
            "{line}"
        );
        assert_eq!(rt; first_bad(&words), number);
    }
    let none = Vec::new(rt.alloc());
    assert!(rt; matches!(read_words(&none), Err(BadWord(1))));
    let call = words_of(rt.alloc(), "solve m s rule=one")?;
    assert_eq!(rt; first_bad(&call), 5);
    Ok(())
}

#[test]
fn a_query_is_read_with_its_settings(rt: HostRuntime) -> Result<(), Fail> {
    let line = "query  007 1 2 000000003 show=trace engine=jps rule=one";
    let words = words_of(rt.alloc(), line)?;
    match read_words(&words) {
        Ok((request, settings)) => {
            assert!(rt; matches!(request.command, Command::Query));
            assert_eq!(rt; request.name(0), "");
            assert!(rt; request.tables.is_none());
            let start = (request.number(1), request.number(2));
            let goal = (request.number(3), request.number(4));
            assert_eq!(rt; (start, goal), ((7, 1), (2, 3)));
            assert_eq!(rt; settings.pick, Pick::Session(SessionEngine::Jps));
            assert_eq!(rt; settings.show, Show::Trace);
            assert_eq!(rt; settings.rule, Corner::One);
            assert_eq!(rt; settings.states, States::Arrival);
        }
        Err(_) => assert!(rt; false, "no query"),
    }
    Ok(())
}

// The name of a command is read as this command, where as many words as it takes follow; `1` is one of each
// kind.
fn check_name(alloc: Global, rt: &impl Abort, name: &str) -> Result<(), Fail> {
    let mut words = words_of(alloc, name)?;
    for _place in 0..8 {
        if matches!(read_words(&words), Err(_)) {
            words.push(String::from_str(alloc, "1")?)?;
        }
    }
    match read_words(&words) {
        Ok((request, _)) => {
            let command = format!(in alloc; "{:?}", request.command)?;
            let plain = name.trim_start_matches('-');
            assert!(rt; command.as_str().eq_ignore_ascii_case(plain), "{name}");
        }
        Err(_) => assert!(rt; false, "{name}"),
    }
    Ok(())
}

#[test]
fn each_name_is_read_as_its_command(rt: HostRuntime) -> Result<(), Fail> {
    for place in 0..usize::MAX {
        let Some(name) = command_name(place) else {
            break;
        };
        check_name(rt.alloc(), &rt, name)?;
    }
    Ok(())
}

// What a word is as a number, a seed, a side of a map, a percentage and a number of entries; where it is none
// of a kind, the least one.
type Spelled = (u32, u64, u16, u8, u32);

// The request has this word at the place, which spells this.
fn check_word(rt: &impl Abort, request: Request<'_>, place: usize, word: &str, spelled: Spelled) {
    let (number, seed, side, percent, count) = spelled;
    assert_eq!(rt; request.name(place), word);
    assert_eq!(rt; request.number(place), number, "{word}");
    assert_eq!(rt; request.seed(place), seed, "{word}");
    assert_eq!(rt; request.side(place), side, "{word}");
    assert_eq!(rt; request.percent(place), percent, "{word}");
    assert_eq!(rt; request.count(place), count, "{word}");
}

#[test]
fn a_word_is_read_as_each_kind(rt: HostRuntime) -> Result<(), Fail> {
    let words = [
        ("m", (0, 0, 1, 0, 1)),
        ("-1", (0, 0, 1, 0, 1)),
        ("0", (0, 0, 1, 0, 1)),
        ("1", (1, 1, 1, 1, 1)),
        ("100", (100, 100, 100, 100, 100)),
        ("101", (101, 101, 101, 0, 101)),
        ("257", (257, 257, 257, 0, 257)),
        ("4096", (4096, 4096, 4096, 0, 4096)),
        ("4097", (4097, 4097, 1, 0, 4097)),
        ("65537", (65537, 65537, 1, 0, 65537)),
        ("100000", (100000, 100000, 1, 0, 100000)),
        ("100001", (100001, 100001, 1, 0, 1)),
        ("000000007", (7, 7, 7, 7, 7)),
        ("0000000007", (0, 7, 1, 0, 1)),
        ("999999999", (999999999, 999999999, 1, 0, 1)),
        ("18446744073709551615", (0, 18446744073709551615, 1, 0, 1)),
        ("18446744073709551616", (0, 0, 1, 0, 1)),
    ];
    for (word, spelled) in words {
        let words = words_of(rt.alloc(), word)?;
        let request = Request {
            command: Command::Help,
            words: &words,
            tables: None,
        };
        check_word(&rt, request, 0, word, spelled);
        check_word(&rt, request, 1, "", (0, 0, 1, 0, 1));
    }
    Ok(())
}

// Words of each kind, by their places in a call.
#[test]
fn words_are_read_by_their_places(rt: HostRuntime) -> Result<(), Fail> {
    let words = words_of(rt.alloc(), "make 7 4096 3 100")?;
    match read_words(&words) {
        Ok((request, _)) => {
            assert_eq!(rt; request.seed(0), 7);
            assert_eq!(rt; (request.side(1), request.side(2)), (4096, 3));
            assert_eq!(rt; request.percent(3), 100);
            assert_eq!(rt; request.name(4), "");
        }
        Err(_) => assert!(rt; false, "no map"),
    }
    let words = words_of(rt.alloc(), "problems m 8 100000 rule=one")?;
    match read_words(&words) {
        Ok((request, _)) => {
            assert_eq!(rt; request.name(0), "m");
            assert_eq!(rt; (request.seed(1), request.count(2)), (8, 100000));
            assert_eq!(rt; request.name(3), "");
        }
        Err(_) => assert!(rt; false, "no problems"),
    }
    Ok(())
}

// A request's command, its first two words, and its table file.
fn files_of<'a>(request: Request<'a>) -> (&'static str, &'a str, Option<&'a str>, &'a str) {
    let command = match request.command {
        Command::Query => "query",
        Command::Live => "live",
        Command::Serve => "serve",
        Command::Solve => "solve",
        Command::Scen => "scen",
        _ => "another",
    };
    (command, request.name(0), request.tables, request.name(1))
}

// The name of a table file is all behind the first `=`; its engine may stand before it or behind it.
#[test]
fn a_map_stands_before_its_script_or_scenario(rt: HostRuntime) -> Result<(), Fail> {
    let (t, ab) = (Some("t"), Some("a=b"));
    let plain = Pick::Session(SessionEngine::Plain);
    let jps = Pick::Session(SessionEngine::Jps);
    let plus = Pick::Session(SessionEngine::Plus);
    let (points, cells, taken) = (Show::Points, Show::Cells, Show::Taken);
    let none = Corner::Never;
    let solved = ("solve", "m", None, "s");
    let rows = ("scen", "m", None, "s");
    let calls: [(&str, (&str, &str, Option<&str>, &str), (Pick, Show, Corner)); 9] = [
        ("solve m s show=cells", solved, (plain, cells, none)),
        ("scen m s rule=none", rows, (plain, points, none)),
        ("scen m s engine=jps show=taken", rows, (jps, taken, none)),
        (
            "live m tables=a=b engine=plus",
            ("live", "m", ab, ""),
            (plus, points, none),
        ),
        (
            "live m engine=plus rule=both tables=a=b",
            ("live", "m", ab, ""),
            (plus, points, Corner::Both),
        ),
        (
            "serve m tables=a=b show=cells engine=plus",
            ("serve", "m", ab, ""),
            (plus, cells, none),
        ),
        (
            "query m 0 0 1 1 tables=t engine=plus",
            ("query", "m", t, "0"),
            (plus, points, none),
        ),
        (
            "solve m s engine=plus tables=t",
            ("solve", "m", t, "s"),
            (plus, points, none),
        ),
        (
            "scen m s tables=t show=taken engine=plus",
            ("scen", "m", t, "s"),
            (plus, taken, none),
        ),
    ];
    for (line, files, chosen) in calls {
        let words = words_of(rt.alloc(), line)?;
        match read_words(&words) {
            Ok(
                (
                    request,
                    Settings {
                        pick,
                        show,
                        rule,
                        ..
                    },
                ),
            ) => {
                assert_eq!(rt; files_of(request), files, "{line}");
                assert_eq!(rt; (pick, show, rule), chosen, "{line}");
            }
            Err(_) => assert!(rt; false, "{line}"),
        }
    }
    Ok(())
}

// Each engine that jumps is asked how many states its search has of a cell, by each command that takes an
// engine; the word may stand before the engine or behind it.
#[test]
fn states_stand_beside_engines_that_jump(rt: HostRuntime) -> Result<(), Fail> {
    let block = Pick::Session(SessionEngine::Block);
    let jps = Pick::Session(SessionEngine::Jps);
    let plus = Pick::Session(SessionEngine::Plus);
    let (arrival, cell) = (States::Arrival, States::Cell);
    let calls: [(&str, (Pick, States)); 15] = [
        ("query m 0 0 1 1 engine=jps", (jps, arrival)),
        ("query m 0 0 1 1 engine=jps states=arrival", (jps, arrival)),
        ("query m 0 0 1 1 states=cell engine=jps", (jps, cell)),
        ("solve m s engine=block states=cell", (block, cell)),
        ("live m show=cells states=cell engine=plus", (plus, cell)),
        ("live m states=cell tables=f engine=plus", (plus, cell)),
        (
            "scen m s states=cell show=taken engine=block",
            (block, cell),
        ),
        (
            "scen m s tables=f engine=plus states=arrival",
            (plus, arrival),
        ),
        (
            "draw m 0 0 1 1 engine=plus rule=both states=cell",
            (plus, cell),
        ),
        ("drill 1 states=cell engine=jps", (jps, cell)),
        ("serve m", (block, cell)),
        ("serve m engine=jps show=cells", (jps, cell)),
        ("serve m tables=f engine=plus", (plus, cell)),
        ("serve m states=arrival", (block, arrival)),
        ("serve m states=arrival engine=jps", (jps, arrival)),
    ];
    for (line, chosen) in calls {
        let words = words_of(rt.alloc(), line)?;
        match read_words(&words) {
            Ok((_, Settings { pick, states, .. })) => {
                assert_eq!(rt; (pick, states), chosen, "{line}");
            }
            Err(_) => assert!(rt; false, "{line}"),
        }
    }
    Ok(())
}

#[test]
fn help_and_version_stand_alone(rt: HostRuntime) -> Result<(), Fail> {
    let words = words_of(rt.alloc(), "--help")?;
    assert!(rt;
        matches!(
            read_words(&words),
            Ok((
                Request {
                    command: Command::Help,
                    ..
                },
                _
            ))
        )
    );
    let words = words_of(rt.alloc(), "--version")?;
    assert!(rt;
        matches!(
            read_words(&words),
            Ok((
                Request {
                    command: Command::Version,
                    ..
                },
                _
            ))
        )
    );
    Ok(())
}
