// A refusal as people read it: the fault's numbers, file, line and column, the line with the word underlined, and the
// refusal in plain words.
ghost use Rattle.std.specs.Prelude.{◌≡◌, ◌≤◌, max, ◌++◌, map, length, take, drop, replicate, IfOk, Some, string_bytes, count_by};
ghost use Rattle.std.specs.List.{prefix_len};
ghost use Rattle.words.specs.Faults.{report_text};
ghost use Rattle.listing.specs.Lines.{in_line, is_line_feed, shown_byte, page_of, position_of, underline, Explains, LineStart};

use crate::shown::ShownBytes;
use std::alloc::{AllocError, Global};
use std::fmt;
use words::fault::Report;

// A refusal in plain words.
// By its number, not by the type of the fault: the faults of scripts belong to crates that this one does not know.
fn meaning(report: Report) -> &'static str {
    match report.number {
        2 => "the text has more than 4096 bytes",
        3 if report.len == 1 => "no word begins with this byte",
        3 => "this is too long: a name has at most 16 bytes, a number three digits",
        4 if report.len == 0 => "the text ends too soon",
        4 => "this word is not allowed here",
        5 => "this number is outside its range",
        6 if report.text == 1 =>
            "this is one too many: there may be 8 processes, and 64 instructions in each",
        6 => "this is one too many: there may be 8 contracts, and 16 messages and states in each",
        7 => "this name is taken already",
        8 => "this name is not declared",
        9 => "the mark of this move disagrees with its message",
        10 => "this state has a move for this message already",
        11 => "the mark of this move differs from that of the state's first move",
        12 => "this state cannot be reached from the contract's first state",
        13 => "this state lies on a cycle of moves with one mark",
        14 => "this message carries an end in a state where that end may not send",
        15 => "`send` names a message without payload, `pass` one with",
        16 => "this jump leads outside 0 to the number of instructions",
        _ => "the text is refused",
    }
}

// Where the last line of what stands before a place begins.
fn line_start(before: &[u8]) -> usize
    ensures { LineStart before.now result }
{
    before
        .iter()
        .rposition(|b| *b == b'\n')
        .map_or(0, |i| i + 1)
}

// How many lines end in what stands before a place.
fn line_feeds(before: &[u8]) -> usize
    ensures { result ≡ count_by is_line_feed before.now }
{
    before.iter().filter(|b| **b == b'\n').count()
}

// How many bytes the line has that a text begins with.
fn line_len(text: &[u8]) -> usize
    ensures within { result ≤ length text.now }
    ensures value { result ≡ prefix_len in_line text.now }
{
    text.iter().take_while(|b| **b != b'\n').count()
}

// What stands before a place of a text.
fn front(text: &[u8], place: usize) -> &[u8]
    ensures { result.now ≡ take place text.now }
{
    text.get(..place).unwrap_or(text)
}

// The line of a text that begins at `start`.
fn line_at(text: &[u8], start: usize) -> &[u8]
    ensures { result.now ≡ take (prefix_len in_line (drop start text.now)) (drop start text.now) }
{
    let rest = text.get(start..).unwrap_or(&[]);
    &rest[..line_len(rest)]
}

// Spaces, and then as many marks as the word at fault has bytes, or one.
#[derive(Clone, Copy)]
struct Underline {
    indent: usize,
    len: usize,
}

impl fmt::Display for Underline {
    ghost output = { λ mark. Some (underline mark.indent mark.len) };

    fn fmt<W: fmt::Write>(&self, f: &mut fmt::Formatter<W>) -> fmt::Result {
        f.write_repeated(" ", self.indent)?;
        f.write_repeated("^", self.len.max(1))
    }
}

// A refusal for people: the fault, its file, line and column, the line with the word underlined, and what is wrong.
#[derive(Clone, Copy)]
struct Page<'f, 't> {
    report: Report,
    file: &'f str,
    line: usize,
    column: usize,
    row: ShownBytes<'t>,
    mark: Underline,
    words: &'static str,
}

impl fmt::Display for Page<'_, '_> {
    ghost output = { λ p. Some (page_of (report_text p.report) (position_of p.file.now p.line p.column) (map shown_byte p.row.0.now) (underline p.mark.indent p.mark.len) p.report.number p.words.now) };

    fn fmt<W: fmt::Write>(&self, f: &mut fmt::Formatter<W>) -> fmt::Result {
        let Page {
            report,
            file,
            line,
            column,
            row,
            mark,
            words,
        } = *self;
        let number = report.number;
        writeln!(f, "{report}\n{file}:{line}:{column}\n{row}\n{mark}")?;
        writeln!(f, "refused {number}: {words}")
    }
}

/// The refusal for people: the fault line, then file, line and column, the line with the word underlined, and what is
/// wrong. At the text's end one mark stands where the next word would.
pub fn explain(heap: Global, file: &str, text: &[u8], report: Report) -> Result<String, AllocError>
    ensures { IfOk result (λ s. Explains file.now text.now report (string_bytes s)) }
{
    let before = front(text, report.place);
    let start = line_start(before);
    let indent = before.len() - start;
    let page = Page {
        report,
        file,
        line: line_feeds(before).saturating_add(1),
        column: indent.saturating_add(1),
        row: ShownBytes(line_at(text, start)),
        mark: Underline {
            indent,
            len: report.len,
        },
        words: meaning(report),
    };
    page.to_string(heap)
}
