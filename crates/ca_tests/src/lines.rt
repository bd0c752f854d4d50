//! Lines without threads that are understood, and what each asks for.
use ca::{AnswerLine, CommandLine, RepeaterLine, ReplayLine, read_line};
use std::test::Fail;

const fn answer(records: Option<&'static str>) -> CommandLine<'static> {
    CommandLine::Answer(AnswerLine { records })
}

const fn replay(file: &'static str, seed: Option<u64>) -> CommandLine<'static> {
    CommandLine::Replay(ReplayLine { file, seed })
}

const fn repeater(port: u16, datagrams: Option<u64>) -> CommandLine<'static> {
    CommandLine::Repeater(RepeaterLine { port, datagrams })
}

// Lines that are not understood are cases of the program.
#[test]
fn lines_are_read(rt: HostRuntime) -> Result<(), Fail> {
    let both = repeater(40_000, Some(7));
    let rows: [(&[&str], CommandLine<'static>); 13] = [
        (&["answer"], answer(None)),
        (&["answer", "--records", "file"], answer(Some("file"))),
        (&["answer", "--records=a file"], answer(Some("a file"))),
        (&["replay", "script"], replay("script", None)),
        (
            &["replay", "a folder/a script"],
            replay("a folder/a script", None),
        ),
        (
            &["replay", "replay", "--seed", "18446744073709551615"],
            replay("replay", Some(u64::MAX)),
        ),
        (
            &["replay", "--seed=007", "script"],
            replay("script", Some(7)),
        ),
        (&["repeater"], repeater(5_065, None)),
        (&["repeater", "--port", "0"], repeater(0, None)),
        (&["repeater", "--port=065535"], repeater(65_535, None)),
        (
            &["repeater", "--datagrams=18446744073709551615"],
            repeater(5_065, Some(u64::MAX)),
        ),
        (&["repeater", "--port", "40000", "--datagrams", "7"], both),
        (&["repeater", "--datagrams=7", "--port=40000"], both),
    ];
    for (texts, line) in &rows {
        let mut words = Vec::new(rt.alloc());
        for text in texts.iter() {
            words.push(text.to_string(rt.alloc())?)?;
        }
        assert!(rt; read_line(rt.alloc(), &words) == Ok(Some(*line)));
    }
    Ok(())
}
