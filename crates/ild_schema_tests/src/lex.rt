//! Tokens of schemas. All places were counted in the texts.
use ild_lex::tokens;
use std::alloc::Global;
use std::fmt::Write;
use std::process::Abort;
use std::test::Fail;

/// Texts and their tokens: the kind of each, its first byte and the byte behind it.
const TOKENED: [(&str, &str); 7] = [
    ("", ""),
    (" \t\r\n# only a comment", ""),
    ("type A_1 &B", "Word 0 4, Word 5 8, Mark 9 10, Word 10 11, "),
    // the longest at each place
    (
        "ab12 12ab -7-8",
        "Word 0 4, Number 5 7, Word 7 9, Number 10 12, Number 12 14, ",
    ),
    // both escapes, and a comment that stops at its line
    ("\"\\\"\\\\\"#\"\n_", "Text 0 6, Word 9 10, "),
    ("\"\u{e9}\"{}", "Text 0 4, Mark 4 5, Mark 5 6, "),
    (
        "[]():=|&",
        "Mark 0 1, Mark 1 2, Mark 2 3, Mark 3 4, Mark 4 5, Mark 5 6, Mark 6 7, Mark 7 8, ",
    ),
];

/// The tokens of a text, in words.
fn said(alloc: Global, src: &str) -> Result<String, &'static str> {
    let found = tokens(alloc, src).ok().ok_or("no tokens")?;
    let mut out = String::new(alloc);
    for token in found.as_slice() {
        write!(out, "{:?} {} {}, ", token.kind, token.at, token.end)
            .ok()
            .ok_or("memory")?;
    }
    Ok(out)
}

fn try_tokens(rt: &impl Abort, alloc: Global, src: &str, want: &str) -> Result<(), Fail> {
    let found = said(alloc, src)?;
    assert_eq!(rt; found.as_str(), want, "in {src}");
    Ok(())
}

#[test]
fn tokens_of_texts(rt: HostRuntime) -> Result<(), Fail> {
    for (src, want) in &TOKENED {
        try_tokens(&rt, rt.alloc(), src, want)?;
    }
    Ok(())
}
