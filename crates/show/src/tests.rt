// What is said of typed patterns that are refused, on examples.
use files::complaint;
use std::test::Fail;
use syntax::{Unread, numbers};

// What is said of a text, which is no pattern.
fn said_of(rt: &HostRuntime, text: &str) -> Result<Vec<u8>, Fail> {
    match numbers(rt.alloc(), text.as_bytes()) {
        Err(Unread::At(byte, expected)) => Ok(complaint(
            rt.alloc(),
            text.as_bytes(),
            byte,
            expected,
        )?),
        _ => Ok(Vec::new(rt.alloc())),
    }
}

#[test]
fn complaints(rt: HostRuntime) -> Result<(), Fail> {
    let table = [
        (
            "1 d; nox",
            "line 1, byte 8: expected the rest of `not`\n1 d; nox\n       ^\n",
        ),
        // On the second of three lines, behind a tab.
        (
            "1 d;\n\tnot 3 d; 2 l;\nwithin 5",
            "line 2, byte 8: expected a name, a small letter that no step in front has, or `;`\n\tnot 3 d; 2 l;\n\t      ^\n",
        ),
        // It only breaks off: the mark stands behind the last word.
        (
            "1 d; within 60\n\n",
            "line 1, byte 15: the text breaks off; expected `late`\n1 d; within 60\n              ^\n",
        ),
        (
            "",
            "line 1, byte 1: the text breaks off; expected a kind or `not`\n\n^\n",
        ),
        (
            "65536 d",
            "line 1, byte 5: the number is too large with this digit; expected a name, a small letter that no step in front has\n65536 d\n    ^\n",
        ),
        (
            "1 d where x",
            "line 1, byte 11: expected the name of what is tested, `d`\n1 d where x\n          ^\n",
        ),
        // Control characters are shown as spaces.
        (
            "1\u{7}d\u{1b};\r\n",
            "line 1, byte 2: expected a name, a small letter that no step in front has\n1 d ; \n ^\n",
        ),
    ];
    for (text, said) in table {
        assert!(rt;
            said_of(&rt, text)?.as_slice() == said.as_bytes(),
            "{}",
            text
        );
    }
    Ok(())
}
