//! Batches over the objects in memory: how many puts the store sees, and each get and put that fails in turn.
use crate::sessions::{Call, Session, calls_of_row, ended_by, in_turn, is_so};
use std::alloc::Global;
use std::test::Fail;

const MAP: &str = "type N {String:Int}";

const HAMT: &str = "type N {String:Int} representation advanced HAMT";

/// A schema, the put that fails, lines, and what is told. The puts of a batch are counted by the line behind it, whose put is the one that fails.
const BATCHES: [(&str, u64, &str, &str); 9] = [
    (
        MAP,
        3,
        "begin\n\
        set /a 1\n\
        get /a\n\
        root\n\
        commit\n\
        commit\n\
        set /b 2\n",
        "ok null\n\
        ok null\n\
        ok 1\n\
        no 15 batch\n\
        root bafyreihltcnuuyqp2jm24aqydpnlj7b6w3ogwrplomrjtg5rifv44mmjey\n\
        no 15 batch\n\
        no 12 store\n",
    ),
    (
        MAP,
        2,
        "begin\n\
        set /a 1\n\
        get /a\n\
        root\n\
        commit\n\
        commit\n\
        set /b 2\n",
        "ok null\n\
        ok null\n\
        ok 1\n\
        no 15 batch\n\
        no 12 store\n\
        root bafyreihltcnuuyqp2jm24aqydpnlj7b6w3ogwrplomrjtg5rifv44mmjey\n\
        root bafyreifa2oxz5bxfkf7xfg5nazl6frxtw7idrgmjjsgwwm3vsb2mre5v4m\n",
    ),
    (
        HAMT,
        3,
        "begin\n\
        set /abc 1\n\
        set /abc 2\n\
        commit\n\
        set /abc 3\n",
        "ok null\n\
        ok null\n\
        ok null\n\
        root bafyreielncbgf3qlhpet7zyjhuhpdhyqhp4vndbbxgsqr4iizapn5dxrkm\n\
        no 12 store\n",
    ),
    (
        HAMT,
        2,
        "begin\n\
        set /abc 1\n\
        abort\n\
        root\n\
        set /abc 1\n",
        "ok null\n\
        ok null\n\
        ok null\n\
        root bafyreihn72qdqs5xwehgcqeepxbqs3zkocg5l7f4vn3asclloqtrgj3uqe\n\
        no 12 store\n",
    ),
    // no edit: the put is that of the line behind
    (
        MAP,
        2,
        "begin\n\
        get /a\n\
        commit\n\
        set /a 1\n",
        "ok null\n\
        no 2 path\n\
        root bafyreigbtj4x7ip5legnfznufuopl4sg4knzc2cof6duas4b3q2fy6swua\n\
        no 12 store\n",
    ),
    // an edit that is taken back; of its blocks none but the last may be put
    (
        MAP,
        4,
        "begin\n\
        set /a 1\n\
        del /a\n\
        commit\n\
        set /a 1\n",
        "ok null\n\
        ok null\n\
        ok null\n\
        root bafyreigbtj4x7ip5legnfznufuopl4sg4knzc2cof6duas4b3q2fy6swua\n\
        root bafyreihltcnuuyqp2jm24aqydpnlj7b6w3ogwrplomrjtg5rifv44mmjey\n",
    ),
    // a commit that is refused, and given up
    (
        MAP,
        2,
        "begin\n\
        set /a 1\n\
        commit\n\
        begin\n\
        get /a\n\
        abort\n\
        abort\n\
        root\n\
        set /a 1\n",
        "ok null\n\
        ok null\n\
        no 12 store\n\
        no 15 batch\n\
        ok 1\n\
        ok null\n\
        no 15 batch\n\
        root bafyreigbtj4x7ip5legnfznufuopl4sg4knzc2cof6duas4b3q2fy6swua\n\
        root bafyreihltcnuuyqp2jm24aqydpnlj7b6w3ogwrplomrjtg5rifv44mmjey\n",
    ),
    // the end comes inside a batch
    (
        MAP,
        3,
        "set /a 1\n\
        begin\n\
        set /a 2\n\
        get /a\n",
        "root bafyreihltcnuuyqp2jm24aqydpnlj7b6w3ogwrplomrjtg5rifv44mmjey\n\
        ok null\n\
        ok null\n\
        ok 2\n",
    ),
    (
        MAP,
        3,
        "commit\n\
        abort\n\
        begin\n\
        set /a x\n\
        set /a true\n\
        del /b\n\
        set /a 1\n\
        commit\n\
        abort\n",
        "no 15 batch\n\
        no 15 batch\n\
        ok null\n\
        no 3 json\n\
        no 4 mismatch\n\
        no 2 path\n\
        ok null\n\
        root bafyreihltcnuuyqp2jm24aqydpnlj7b6w3ogwrplomrjtg5rifv44mmjey\n\
        no 15 batch\n",
    ),
];

fn is_told(alloc: Global, row: &(&'static str, u64, &'static str, &'static str)) -> Option<bool> {
    let (schema, number, script, replies) = *row;
    let session = Session {
        schema,
        ty: "N",
        root: "-",
        blocks: "",
        script,
        replies,
    };
    let mut ended = ended_by(alloc, &session, Call::Put, number)?;
    let status = u8::from(replies.split_once("no ").is_some());
    is_so(alloc, &session, &mut ended, replies, status)
}

fn all_told(alloc: Global) -> Result<(), &'static str> {
    for row in &BATCHES {
        if is_told(alloc, row) != Some(true) {
            return Err(row.2);
        }
    }
    Ok(())
}

#[test]
fn batches(rt: HostRuntime) -> Result<(), Fail> {
    all_told(rt.alloc())?;
    Ok(())
}

/// HAMTs in a HAMT, with a node beneath each, and a batch. What is told where a call fails is that of tests/paths/rows.py.
const NEST: Session = Session {
    schema: "type Nest {String:Leaves} representation advanced HAMT type Leaves {String:Int} representation advanced HAMT",
    ty: "Nest",
    root: "bafyreia4mqbs2vanxwttzkg527tl5qn6lybyplfuf5ph5widvcdtf3dpl4",
    blocks: "a36468616d74825820000000000000000000000000000000000000000000000000000000100000000081d82a58250001711220dfddc67029a4bbcc631824677f01a8e5fb8ed07c8b5305db1a869ba2b9042f116768617368416c67126a6275\
     636b657453697a6503\n\
     8258205000000000000000004000000000000000000010000000000000000000000000848182446b313436008182446b313133008182446b313332008182446b31323000\n\
     8258205000000000000000004000000000000000000010000000000000000000000000848182446b313436a36468616d748258200000000000000000000000000000000000000000000000000000000000000000806768617368416c67126a\
     6275636b657453697a65038182446b313133a36468616d74825820000000000000000000000000000000000000000000000000000000100000000081d82a5825000171122057dd3d5f6becd384b64702c778148a2c1944f771af2930d2ee4b\
     f01c3e1b8bdf6768617368416c67126a6275636b657453697a65038182446b313332a36468616d748258200000000000000000000000000000000000000000000000000000000000000000806768617368416c67126a6275636b657453697a\
     65038182446b313230a36468616d748258200000000000000000000000000000000000000000000000000000000000000000806768617368416c67126a6275636b657453697a6503\n",
    script: "begin\n\
     get /k113/k120\n\
     set /k113/k152 5\n\
     len /k113\n\
     set /k331 {\"k113\":1,\"k120\":1,\"k132\":1,\"k146\":1}\n\
     del /k113/k132\n\
     del /k120/k120\n\
     commit\n\
     commit\n\
     get /k331\n\
     root\n",
    replies: "ok null\n\
     ok 0\n\
     ok null\n\
     ok 5\n\
     ok null\n\
     ok null\n\
     no 2 path\n\
     root bafyreifxj5uoaklq22miial4stdfy3uhb4cifguza22fqwsvhcavfzaitu\n\
     no 15 batch\n\
     ok {\"k113\":1,\"k120\":1,\"k132\":1,\"k146\":1}\n\
     root bafyreifxj5uoaklq22miial4stdfy3uhb4cifguza22fqwsvhcavfzaitu\n",
};

/// Where a put of the commit fails, and the same commit comes again.
const NEST_EDITS: [&str; 1] = [
    "\n\
     \n\
     \n\
     \n\
     \n\
     \n\
     \n\
     no 12 store\n\
     root bafyreifxj5uoaklq22miial4stdfy3uhb4cifguza22fqwsvhcavfzaitu\n",
];

/// Where a get of a line fails: a read of what the store holds alone, an edit that makes new blocks, or a read behind the commit.
const NEST_LINES: [&str; 5] = [
    "\n\
     no 12 store\n",
    "\n\
     \n\
     no 12 store\n\
     ok 4\n\
     \n\
     \n\
     \n\
     root bafyreib4h77otfvcq7ykefhoqwduo65nj3wtzm3selnuqozqp2j5pjda2a\n\
     \n\
     \n\
     root bafyreib4h77otfvcq7ykefhoqwduo65nj3wtzm3selnuqozqp2j5pjda2a\n",
    "\n\
     \n\
     \n\
     \n\
     no 12 store\n\
     \n\
     \n\
     root bafyreie5qvalexo3yjextkzkgzvk4vsjwfwjtkcmq4d574belxnb3dju3y\n\
     \n\
     no 2 path\n\
     root bafyreie5qvalexo3yjextkzkgzvk4vsjwfwjtkcmq4d574belxnb3dju3y\n",
    "\n\
     \n\
     \n\
     \n\
     \n\
     no 12 store\n\
     \n\
     root bafyreiew5yp6wvgewqxfo4z47np24vpnccqoq2trkk5eomwitjco22olr4\n\
     \n\
     \n\
     root bafyreiew5yp6wvgewqxfo4z47np24vpnccqoq2trkk5eomwitjco22olr4\n",
    "\n\
     \n\
     \n\
     \n\
     \n\
     \n\
     \n\
     \n\
     \n\
     no 12 store\n",
];

/// The blocks of its value that weren't held before.
const NEST_PUTS: u64 = 4;

/// The root block and two nodes are got before the first line.
#[test]
fn each_get_fails(rt: HostRuntime) -> Result<(), Fail> {
    in_turn(rt.alloc(), &NEST, Call::Get, 3, &NEST_LINES)?;
    Ok(())
}

/// A commit puts each block once.
#[test]
fn each_put_of_a_commit_fails(rt: HostRuntime) -> Result<(), Fail> {
    let times = calls_of_row(rt.alloc(), &NEST, Call::Put, 1, NEST_EDITS[0]);
    assert_eq!(rt; times, Some(NEST_PUTS));
    in_turn(rt.alloc(), &NEST, Call::Put, 0, &NEST_EDITS)?;
    Ok(())
}
