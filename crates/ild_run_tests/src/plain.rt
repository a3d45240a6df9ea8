//! Scripts on a map of integers, of which each take, put and write fails in turn. The CIDs are made by python3 (hashlib and base64) from the blocks
//! that are written beside them.
use crate::sessions::{Call, Session, calls_of_row, each_take, each_write, in_turn};
use std::test::Fail;

/// Every kind of line. The blocks are `a0` and `a1 61 61 01`.
const LINES: Session = Session {
    schema: "type N {String:Int}",
    ty: "N",
    root: "-",
    blocks: "",
    script: "set /a 1\n\
     get /a\n\
     root\n\
     del /a\n\
     root\n\
     get /a\n",
    replies: "root bafyreihltcnuuyqp2jm24aqydpnlj7b6w3ogwrplomrjtg5rifv44mmjey\n\
     ok 1\n\
     root bafyreihltcnuuyqp2jm24aqydpnlj7b6w3ogwrplomrjtg5rifv44mmjey\n\
     root bafyreigbtj4x7ip5legnfznufuopl4sg4knzc2cof6duas4b3q2fy6swua\n\
     root bafyreigbtj4x7ip5legnfznufuopl4sg4knzc2cof6duas4b3q2fy6swua\n\
     no 2 path\n",
};

/// The put of the set fails, and that of the del.
const LINES_EDITS: [&str; 2] = [
    "no 12 store\n\
     no 2 path\n\
     root bafyreigbtj4x7ip5legnfznufuopl4sg4knzc2cof6duas4b3q2fy6swua\n\
     no 2 path\n",
    "\n\
     \n\
     \n\
     no 12 store\n\
     root bafyreihltcnuuyqp2jm24aqydpnlj7b6w3ogwrplomrjtg5rifv44mmjey\n\
     ok 1\n",
];

/// A set that comes again. The block of both is `a2 61 61 01 61 62 02`.
const AGAIN: Session = Session {
    schema: "type N {String:Int}",
    ty: "N",
    root: "-",
    blocks: "",
    script: "set /a 1\n\
     set /b 2\n\
     root\n\
     set /b 2\n",
    replies: "root bafyreihltcnuuyqp2jm24aqydpnlj7b6w3ogwrplomrjtg5rifv44mmjey\n\
     root bafyreifa2oxz5bxfkf7xfg5nazl6frxtw7idrgmjjsgwwm3vsb2mre5v4m\n\
     root bafyreifa2oxz5bxfkf7xfg5nazl6frxtw7idrgmjjsgwwm3vsb2mre5v4m\n\
     root bafyreifa2oxz5bxfkf7xfg5nazl6frxtw7idrgmjjsgwwm3vsb2mre5v4m\n",
};

/// The third put is that of the second set.
const AGAIN_EDIT: &str = "\n\
     no 12 store\n\
     root bafyreihltcnuuyqp2jm24aqydpnlj7b6w3ogwrplomrjtg5rifv44mmjey\n";

#[test]
fn each_put_fails(rt: HostRuntime) -> Result<(), Fail> {
    in_turn(rt.alloc(), &LINES, Call::Put, 1, &LINES_EDITS)?;
    let times = calls_of_row(rt.alloc(), &AGAIN, Call::Put, 3, AGAIN_EDIT);
    assert_eq!(rt; times, Some(1));
    Ok(())
}

#[test]
fn each_take_and_each_write_fail(rt: HostRuntime) -> Result<(), Fail> {
    let takes = each_take(rt.alloc(), &LINES);
    assert!(rt; takes == Some(true) && each_write(rt.alloc(), &LINES) == Some(true));
    Ok(())
}
