// Document 01, "Job stream": the lines that `chainrun` prints, laid in decimal at the front of a lent buffer, so that each command's
// lines are written out at once. Each function answers the bytes that it laid; a buffer without the room named stays as it is.
#![tactic(auto)]

ghost use Rattle.std.specs.Prelude.{◌*◌, ◌≤◌, length};
ghost use Rattle.rules.specs.Lines.{line_of, panel_lines, quarter_line, close_line, refusal_line};
ghost use Rattle.text_decimal.specs.Wrote.{Wrote, Room};
ghost use Rattle.text_lines.specs.Laid.{line_room, Lays, PanelLaid};

use text_decimal::Writer;

// Bytes of the longest line.
pub const LINE_ROOM: usize = 44;

// Bytes that the lines of the largest panel need at most.
pub const PANEL_ROOM: usize = 4400;

// A letter and a figure.
fn figure_line(out: &mut [u8], letter: u8, figure: u64) -> usize
    ensures { Lays line_room (line_of letter figure) out.old out.new result }
{
    if out.len() < LINE_ROOM {
        return 0;
    }
    let mut w = Writer { out, at: 0 };
    w.line(letter, figure);
    w.at
}

// `Q F`.
pub fn quarter_line(out: &mut [u8], figure: u64) -> usize
    ensures { Lays line_room (quarter_line figure) out.old out.new result }
{
    figure_line(out, b'Q', figure)
}

// `C F`.
pub fn close_line(out: &mut [u8], figure: u64) -> usize
    ensures { Lays line_room (close_line figure) out.old out.new result }
{
    figure_line(out, b'C', figure)
}

// `R number offset`.
pub fn refusal_line(out: &mut [u8], number: u32, offset: usize) -> usize
    ensures { Lays line_room (refusal_line number offset) out.old out.new result }
{
    if out.len() < LINE_ROOM {
        return 0;
    }
    let mut w = Writer { out, at: 0 };
    w.line2(b'R', u64::from(number), offset as u64);
    w.at
}

// Lays the lines of a panel.
fn put_panel(w: &mut Writer, numbers: &[u32], weights: &[u64])
    requires { Room w.old (line_room * length numbers.now) }
    ensures { Wrote w.old (panel_lines numbers.now weights.now) w.new }
{
    for (number, weight) in numbers.iter().zip(weights) {
        w.line2(b'P', u64::from(*number), *weight);
    }
}

// `P number weight` for each panel unit.
pub fn panel_lines(out: &mut [u8], numbers: &[u32], weights: &[u64]) -> usize
    ensures { PanelLaid numbers.now weights.now out.old out.new result }
{
    if out.len() / LINE_ROOM < numbers.len() {
        return 0;
    }
    let mut w = Writer { out, at: 0 };
    put_panel(&mut w, numbers, weights);
    w.at
}
