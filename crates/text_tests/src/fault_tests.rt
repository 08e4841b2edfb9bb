//! The texts of faults: the codes are those of docs/FORMATS.md.

use io_edge::{Failed, ReadStop, WriteFault};
use map_text::MapFault;
use potential_check::CertFault;
use scen_text::ScenFault;
use script_text::ScriptFault;
use std::test::Fail;
use walk_judge::WalkFault;
use word_list::BadWord;

#[test]
fn faults_of_maps_are_printed_by_their_codes(rt: HostRuntime) -> Result<(), Fail> {
    for (fault, text) in [
        (MapFault::Header { line: 1 }, "M1 line 1"),
        (MapFault::Side { line: 2 }, "M2 line 2"),
        (MapFault::Short { line: 5 }, "M3 line 5"),
        (MapFault::Missing { line: 6 }, "M4 line 6"),
        (MapFault::Byte { line: 7, column: 8 }, "M5 line 7 column 8"),
        (MapFault::After { line: 9 }, "M6 line 9"),
        (MapFault::NoMemory, "memory"),
    ] {
        let printed = format!(in rt.alloc(); "{fault}")?;
        assert_eq!(rt; printed.as_str(), text);
    }
    Ok(())
}

#[test]
fn faults_of_scenarios_are_printed_by_their_codes(rt: HostRuntime) -> Result<(), Fail> {
    for (fault, text) in [
        (ScenFault::Version { line: 1 }, "C1 line 1"),
        (ScenFault::Fields { line: 2 }, "C2 line 2"),
        (ScenFault::Number { line: 3 }, "C3 line 3"),
        (ScenFault::Length { line: 4 }, "C4 line 4"),
        (ScenFault::NoMemory, "memory"),
    ] {
        let printed = format!(in rt.alloc(); "{fault}")?;
        assert_eq!(rt; printed.as_str(), text);
    }
    Ok(())
}

#[test]
fn faults_of_scripts_are_printed_by_their_codes(rt: HostRuntime) -> Result<(), Fail> {
    for (fault, text) in [
        (ScriptFault::Line { line: 1 }, "T1 line 1"),
        (ScriptFault::Long { line: 2 }, "T2 line 2"),
        (ScriptFault::NoMemory, "memory"),
    ] {
        let printed = format!(in rt.alloc(); "{fault}")?;
        assert_eq!(rt; printed.as_str(), text);
    }
    Ok(())
}

#[test]
fn faults_of_certificates_and_walks_are_printed_by_their_codes(
    rt: HostRuntime,
) -> Result<(), Fail> {
    for (fault, text) in [
        (CertFault::Line { line: 1 }, "P1 line 1"),
        (CertFault::Order { line: 2 }, "P2 line 2"),
        (CertFault::NoMemory, "memory"),
    ] {
        let printed = format!(in rt.alloc(); "{fault}")?;
        assert_eq!(rt; printed.as_str(), text);
    }
    for (fault, text) in [
        (WalkFault::Line { line: 1 }, "K1 line 1"),
        (WalkFault::Count { line: 2 }, "K2 line 2"),
        (WalkFault::NoMemory, "memory"),
    ] {
        let printed = format!(in rt.alloc(); "{fault}")?;
        assert_eq!(rt; printed.as_str(), text);
    }
    Ok(())
}

#[test]
fn faults_of_words_and_of_the_edge_are_printed(rt: HostRuntime) -> Result<(), Fail> {
    let alloc = rt.alloc();
    for (stop, text) in [
        (ReadStop::Fault, "a read failed"),
        (ReadStop::TooLong, "the file is too long"),
        (ReadStop::NoMemory, "out of memory"),
    ] {
        let printed = format!(in alloc; "{stop}")?;
        assert_eq!(rt; printed.as_str(), text);
    }
    let printed = format!(in alloc; "{}, {}, {}", BadWord(7), Failed, WriteFault)?;
    assert_eq!(rt;
        printed.as_str(),
        "word 7, a read or a write failed, a write failed"
    );
    Ok(())
}
