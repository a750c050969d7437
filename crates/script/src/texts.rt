// Texts that follow a command.
ghost use Rattle.std.specs.Prelude.{◌≡◌, ◌+◌, ◌≤◌, length};
ghost use Rattle.scan.specs.Pieces.{whole_lines};
ghost use Rattle.script.specs.TextLines.{text_of, behind_text, lines_passed};

use scan::split_line;

// A text, what follows it, and how many lines it takes with the one that closes it.
#[derive(Clone, Copy)]
pub struct Text<'a> {
    pub bytes: &'a [u8],
    pub rest: &'a [u8],
    pub lines: u64,
}

// The text up to a line that is `.` alone. Where there is none, the text ends with the script.
pub fn split_text(script: &[u8]) -> Text<'_>
    ensures bytes { result.bytes.now ≡ text_of (whole_lines script.now) }
    ensures rest { whole_lines result.rest.now ≡ behind_text (whole_lines script.now) }
    ensures lines { result.lines ≡ lines_passed (whole_lines script.now) }
    ensures bound { result.lines + length result.rest.now ≤ length script.now }
{
    let mut rest = script;
    let mut lines: u64 = 0;
    // Not by `lines`, as what is left tells where the text ends.
    while !rest.is_empty() {
        let (line, after) = split_line(rest);
        lines += 1;
        if line == b".".as_slice() {
            let (bytes, _) = script.split_at(script.len() - rest.len());
            return Text {
                bytes,
                rest: after,
                lines,
            };
        }
        rest = after;
    }
    Text {
        bytes: script,
        rest,
        lines,
    }
}
