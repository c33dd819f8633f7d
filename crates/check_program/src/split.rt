//! Where the script ends, and the report begins.

ghost use Rattle.std.specs.Prelude.{◌≡◌, ◌≤◌, drop, length, take};
ghost use Rattle.journal_model.specs.reports.Verdict.{report_part, script_part};
ghost use Rattle.script_words.specs.Lines.{line_len};

use script_words::cut::len_of_line;
use script_words::words::is;

/// Returns the line that begins at `place`, with its line feed.
fn line_at(bytes: &[u8], place: usize) -> &[u8]
    requires { place ≤ length bytes.now }
    ensures { result.now ≡ take (line_len (drop place bytes.now)) (drop place bytes.now) }
{
    let (_, rest) = bytes.split_at(place);
    let (line, _) = rest.split_at(len_of_line(rest));
    line
}

/// Returns the length of the script in bytes: it goes up to the first line that ends it, with that line, or to the end of `bytes`.
pub(crate) fn len_of_script(bytes: &[u8]) -> usize
    ensures within { result ≤ length bytes.now }
    ensures script { take result bytes.now ≡ script_part bytes.now }
    ensures report { drop result bytes.now ≡ report_part bytes.now }
{
    let mut place = 0;
    while place < bytes.len() {
        let line = line_at(bytes, place);
        place += line.len();
        if is(line, b"end\n") {
            return place;
        }
    }
    place
}
