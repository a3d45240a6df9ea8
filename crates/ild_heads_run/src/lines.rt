//! The lines of a script, cut off one by one.
ghost use Rattle.std.specs.Prelude.{◌≡◌, ◌≤◌, ◌∷◌, length, position};
ghost use Rattle.ild_script.specs.Line.{is_feed, lines_of};
ghost use Rattle.ild_script_session.specs.Lines.{bytes_left, lines_left};

/// Where the first line feed stands.
fn feed_at(bytes: &[u8]) -> Option<usize>
    ensures { result ≡ position is_feed bytes.now }
{
    bytes.iter().position(|b| *b == b'\n')
}

/// The first line, and what is left behind its line feed.
pub(crate) fn cut_line(bytes: &[u8]) -> (&[u8], Option<&[u8]>)
    ensures cut { lines_of bytes.now ≡ result.0.now ∷ lines_left result.1 }
    ensures less { bytes_left result.1 ≤ length bytes.now }
{
    match feed_at(bytes) {
        Some(i) => (&bytes[..i], Some(&bytes[i + 1..])),
        None => (bytes, None),
    }
}
