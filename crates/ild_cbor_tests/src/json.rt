//! Examples of DAG-JSON: one text for each answer. More of them, and how their data are printed, are cases of `new` and `show`
//! (tests/conformance/texts.py).
use ild_data::Txt;
use ild_json::JsonErr::{Bytes, Cid, Number, Reserved, Syntax};
use ild_json::{JsonErr, print, read};
use std::alloc::Global;
use std::test::Fail;

/// Texts, and why they have no data; of two causes the first that the walk comes to.
const REFUSED: [(&str, JsonErr); 7] = [
    ("[1.5,{\"/\":1}]", Number),
    ("{\"a\":[{\"/\":\"x\"}],\"b\":{\"/\":1}}", Cid),
    ("{\"/\":{\"bytes\":\"AQI=\"}}", Bytes),
    ("{\"/\":1.5}", Reserved),
    ("{\"b\":1.5,\"a\":{\"/\":1}}", Reserved),
    ("\"\\udc00\\ud800\"", Syntax),
    ("1e999", Syntax),
];

#[test]
fn causes(rt: HostRuntime) {
    for (text, want) in REFUSED {
        assert_eq!(rt;
            read(rt.alloc(), text.as_bytes()).err(),
            Some(want),
            "{text}"
        );
    }
}

/// What is read, written again.
fn again(alloc: Global, text: &str) -> Result<Txt, Fail> {
    let tree = read(alloc, text.as_bytes()).ok().ok_or("a json text")?;
    Ok(print(alloc, &tree).ok().ok_or("a text")?)
}

#[test]
fn printed(rt: HostRuntime) -> Result<(), Fail> {
    let text = again(rt.alloc(), "{\"b\": \"\\u00e9\\n\", \"aa\": [-1]}")?;
    assert_eq!(rt; text.as_str(), "{\"aa\":[-1],\"b\":\"é\\n\"}");
    Ok(())
}
