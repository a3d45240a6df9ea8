//! Scripts over named heads, and what they are answered. The CIDs are those of the blocks `a0`, `a1 61 61 01`, `a1 61 62 02` and
//! `a2 61 61 01 61 62 02` (hashlib and base64 of Python).
use ild_compile::compile;
use ild_edges::{MemSink, MemStore};
use ild_run_heads::run_heads;
use std::alloc::Global;
use std::test::Fail;

/// A schema and a type of it; which get and which put fails, none at 0; the lines of a script, what is written, and whether a line says no.
struct Case {
    schema: &'static str,
    ty: &'static str,
    get: u64,
    put: u64,
    script: &'static str,
    want: &'static str,
    refused: bool,
}

const CASES: [Case; 8] = [
    // two sessions at one head
    Case {
        schema: "type N {String:Int}",
        ty: "N",
        get: 0,
        put: 0,
        script: "head h -\n1 begin h\n2 begin h\n1 set /a 1\n2 set /b 2\n1 commit\n2 commit\n2 replay\n2 commit\n",
        want: "ok null\n1 ok null\n2 ok null\n1 root bafyreihltcnuuyqp2jm24aqydpnlj7b6w3ogwrplomrjtg5rifv44mmjey\n2 root bafyreicgp6iybxlr2od5slbwxq62rwbpgt757zaka2qtot5gcgzf2qwnpm\n1 root bafyreihltcnuuyqp2jm24aqydpnlj7b6w3ogwrplomrjtg5rifv44mmjey\n2 no 17 moved bafyreihltcnuuyqp2jm24aqydpnlj7b6w3ogwrplomrjtg5rifv44mmjey\n2 ok null\n2 root bafyreifa2oxz5bxfkf7xfg5nazl6frxtw7idrgmjjsgwwm3vsb2mre5v4m\nhead h bafyreifa2oxz5bxfkf7xfg5nazl6frxtw7idrgmjjsgwwm3vsb2mre5v4m\n",
        refused: true,
    },
    // refusals
    Case {
        schema: "type N {String:Int}",
        ty: "N",
        get: 0,
        put: 0,
        script: "1 commit\n1 begin g\nhead g -\nhead g -\n1 begin g\n1 begin g\n1 begin\n",
        want: "1 no 19 session\n1 no 18 head\nok null\nno 18 head\n1 ok null\n1 no 19 session\nno 1 line\nhead g bafyreigbtj4x7ip5legnfznufuopl4sg4knzc2cof6duas4b3q2fy6swua\n",
        refused: true,
    },
    // roots, reads, and lines of batches
    Case {
        schema: "type N {String:Int}",
        ty: "N",
        get: 0,
        put: 0,
        script: "head h bafyreihltcnuuyqp2jm24aqydpnlj7b6w3ogwrplomrjtg5rifv44mmjey\nhead h -\n1 begin h\n1 get /a\n1 get .\n\n1 set /a 1\n1 root\n1 begin\n1 set /a \"x\"\n1 commit\nhead a~1~2 bafyreihltcnuuyqp2jm24aqydpnlj7b6w3ogwrplomrjtg5rifv44mmjey\n",
        want: "no 11 block\nok null\n1 ok null\n1 no 2 path\n1 ok {}\n1 root bafyreihltcnuuyqp2jm24aqydpnlj7b6w3ogwrplomrjtg5rifv44mmjey\n1 root bafyreihltcnuuyqp2jm24aqydpnlj7b6w3ogwrplomrjtg5rifv44mmjey\nno 1 line\n1 no 4 mismatch\n1 root bafyreihltcnuuyqp2jm24aqydpnlj7b6w3ogwrplomrjtg5rifv44mmjey\nok null\nhead a~1~2 bafyreihltcnuuyqp2jm24aqydpnlj7b6w3ogwrplomrjtg5rifv44mmjey\nhead h bafyreihltcnuuyqp2jm24aqydpnlj7b6w3ogwrplomrjtg5rifv44mmjey\n",
        refused: true,
    },
    // nothing is refused
    Case {
        schema: "type N {String:Int}",
        ty: "N",
        get: 0,
        put: 0,
        script: "head h -\n0 begin h\n0 has /a\n0 abort\n",
        want: "ok null\n0 ok null\n0 ok false\n0 ok null\nhead h bafyreigbtj4x7ip5legnfznufuopl4sg4knzc2cof6duas4b3q2fy6swua\n",
        refused: false,
    },
    // no empty value
    Case {
        schema: "type B bool",
        ty: "B",
        get: 0,
        put: 0,
        script: "head h -\n",
        want: "no 4 mismatch\n",
        refused: true,
    },
    // a put fails
    Case {
        schema: "type N {String:Int}",
        ty: "N",
        get: 0,
        put: 2,
        script: "head h -\n1 begin h\n1 set /a 1\n1 set /a 1\n1 commit\n",
        want: "ok null\n1 ok null\n1 no 12 store\n1 root bafyreihltcnuuyqp2jm24aqydpnlj7b6w3ogwrplomrjtg5rifv44mmjey\n1 root bafyreihltcnuuyqp2jm24aqydpnlj7b6w3ogwrplomrjtg5rifv44mmjey\nhead h bafyreihltcnuuyqp2jm24aqydpnlj7b6w3ogwrplomrjtg5rifv44mmjey\n",
        refused: true,
    },
    // a get fails
    Case {
        schema: "type N {String:Int}",
        ty: "N",
        get: 1,
        put: 0,
        script: "head h -\n1 begin h\n1 get .\n1 get .\n1 replay\n1 abort\n",
        want: "ok null\n1 ok null\n1 no 12 store\n1 ok {}\n1 ok null\n1 ok null\nhead h bafyreigbtj4x7ip5legnfznufuopl4sg4knzc2cof6duas4b3q2fy6swua\n",
        refused: true,
    },
    // the first put fails
    Case {
        schema: "type N {String:Int}",
        ty: "N",
        get: 0,
        put: 1,
        script: "head h -\nhead h -\n",
        want: "no 12 store\nok null\nhead h bafyreigbtj4x7ip5legnfznufuopl4sg4knzc2cof6duas4b3q2fy6swua\n",
        refused: true,
    },
];

/// Whether a script is answered as it should be.
fn is_answered(alloc: Global, case: &Case) -> Option<bool> {
    let acc = compile(alloc, case.schema.as_bytes()).ok()?;
    let ty = acc.type_named(case.ty)?;
    if ty.0 >= acc.types() {
        return None;
    }
    let mut store = MemStore::new(alloc, &[case.get], &[case.put]).ok()?;
    let mut out = MemSink::new(alloc, &[]).ok()?;
    let script = case.script.as_bytes();
    let refused = run_heads(alloc, &acc, ty, script, &mut store, &mut out).ok()?;
    Some(refused == case.refused && out.bytes() == case.want.as_bytes())
}

/// The first script that isn't answered as it should be.
fn first_wrong(alloc: Global) -> Option<&'static str> {
    for case in &CASES {
        if is_answered(alloc, case) != Some(true) {
            return Some(case.script);
        }
    }
    None
}

#[test]
fn scripts_are_answered(rt: HostRuntime) -> Result<(), Fail> {
    assert_eq!(rt; first_wrong(rt.alloc()), None);
    Ok(())
}
