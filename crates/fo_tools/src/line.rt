//! The lines that the tools print, without memory.
ghost use Rattle.std.specs.Prelude.{◌≡◌, ◌+◌, ◌≤◌, ◌++◌, length};
ghost use Rattle.std.specs.Fmt.{decimal};
ghost use Rattle.fo_tools.specs.Lines.{format_line, report_line};

use arrayvec::ArrayString;
use fo_check_image::Report;
use fo_image::first_data;
use itoa::Buffer;

/// Adds words and a number in decimal, which has at most ten digits.
fn append(line: &mut ArrayString<128>, words: &str, number: u32)
    requires { length line.old.bytes + length words.now + 10 ≤ 128 }
    ensures bytes { line.new.bytes ≡ line.old.bytes ++ words.now ++ decimal number }
    ensures length { length line.new.bytes ≤ length line.old.bytes + length words.now + 10 }
{
    let mut buffer = Buffer::new();
    line.push_str(words);
    line.push_str(buffer.format(number));
}

/// What `flfmt` prints of a main device of so many blocks.
pub(crate) fn format_line(blocks: u32) -> ArrayString<128>
    ensures { result.bytes ≡ format_line blocks }
{
    let mut line = ArrayString::new();
    append(&mut line, "formatted ", blocks);
    append(
        &mut line,
        " blocks ",
        blocks.saturating_sub(first_data(blocks)),
    );
    line.push_str(" data\n");
    line
}

/// What `flchk` prints of a sound image.
pub(crate) fn report_line(report: &Report) -> ArrayString<128>
    ensures { result.bytes ≡ report_line report.now }
{
    let mut line = ArrayString::new();
    append(&mut line, "sound ", report.blocks);
    append(&mut line, " blocks ", report.used);
    append(&mut line, " used ", report.leaked);
    append(&mut line, " leaked ", report.snapshots);
    line.push_str(" snapshots\n");
    line
}
