// Examples of lines, scripts and answers.
use memory::refusals::MemoryFault;
use script::answers::Answer;
use script::read::read_script;
use std::test::Fail;

#[test]
fn lines_are_read(rt: HostRuntime) -> Result<(), Fail> {
    let cases = [
        ("memory back 12", "memory back 12"),
        ("# a comment\n\n  memory\tthrough 00 ", "memory through 0"),
        ("memory back 4\nstore +3 4294967295", "store 3 4294967295"),
        (
            "memory back 4\r\nevict 18446744073709551615\r\n",
            "evict 18446744073709551615",
        ),
        ("memory back 4\nwords", "words"),
    ];
    for (text, written) in cases {
        let script = read_script(rt.alloc(), text)?;
        let Some(Some(command)) = script.steps.last().map(|step| step.command) else {
            return Err(Fail::new(text));
        };
        assert_eq!(rt; command.text(rt.alloc())?.as_str(), written);
    }
    Ok(())
}

#[test]
fn lines_are_refused(rt: HostRuntime) -> Result<(), Fail> {
    let cases = [
        ("memory back 4\n\nlaod 3", "line 3: no such call"),
        (
            "memory side 4",
            "line 1: no such memory: it is back or through",
        ),
        ("memory back 4\nstore 3\nload", "line 2: too few words"),
        ("memory back 4\nload 3 # why", "line 2: too many words"),
        (
            "memory back 4\nload x",
            "line 2: word 1 is not a number that fits",
        ),
        (
            "memory back 4\nstore 1 4294967296",
            "line 2: word 2 is not a number that fits",
        ),
        (
            "memory back 18446744073709551616",
            "line 1: word 2 is not a number that fits",
        ),
        (
            "# no memory yet\nload 3",
            "line 2: a call before any memory",
        ),
    ];
    for (text, why) in cases {
        match read_script(rt.alloc(), text) {
            Ok(_) => return Err(Fail::new(text)),
            Err(unread) => assert_eq!(rt; unread.to_string(rt.alloc())?.as_str(), why),
        }
    }
    Ok(())
}

#[test]
fn answers_are_shown(rt: HostRuntime) -> Result<(), Fail> {
    let cases = [
        (Ok(Answer::Done), "ok"),
        (Ok(Answer::Value(7)), "value 7"),
        (Ok(Answer::Size(12)), "12"),
        (Err(MemoryFault { place: 12 }), "refused 13 memory 12"),
    ];
    for (answer, text) in cases {
        let shown = match answer {
            Ok(answer) => answer.to_string(rt.alloc())?,
            Err(fault) => fault.to_string(rt.alloc())?,
        };
        assert_eq!(rt; shown.as_str(), text);
    }
    Ok(())
}
