// A sheet read byte by byte from lent memory: each line is taken when its newline comes, and the end of the input closes the sheet.
#![tactic(auto)]

ghost use Rattle.std.specs.Prelude.{◌≡◌, ◌≤◌, length, take};
ghost use Rattle.rules.specs.Lent.{memory};
ghost use Rattle.lines.specs.Grammar.{parsed};
ghost use Rattle.closing.specs.Given.{Wrote};
ghost use Rattle.page.specs.Sheet.{unread, sheet_of, begins, heading, takes, ends};
ghost use Rattle.page.specs.Held.{heads_of};
ghost use Rattle.turn.specs.Given.{Took};
ghost use Rattle.session.specs.Feed.{longer, feeds, last_line};
ghost use Rattle.session.specs.Held.{feed_for, opens_and_ends, Ate};
ghost use Rattle.session.specs.Laws.{ReadAsLines, StepsAreCalls, ClosesInForm};

use lines::Parsed;
use page::{Due, Heads};
use rules::{House, Lent, Refusal};

// What a sheet promises, carried by a function that does nothing.
pub fn sheets()
    ensures read_as_lines { ReadAsLines }
    ensures steps_are_calls { StepsAreCalls }
    ensures closes_in_form { ClosesInForm }
{}

// A sheet between two bytes: its headings, its house record, and how many bytes of a line are held.
// (a) `held` is a u8: `take_byte` and `finish` are lent 256 bytes for the line, which no number of bytes in it goes past.
#[derive(Clone, Copy)]
pub struct Session {
    pub heads: Heads,
    pub house: House,
    pub held: u8,
}

// The line that begins the steps: the opening, and then the step, if the room opened. Tells where the print ends. Here and below each area is a
// parameter of its own, lent by `&mut`; docs/BELIEVE.md names `take_byte` and `finish`, whose buffers may be longer than they ask.
fn begin_steps(
    heads: &mut Heads,
    house: &mut House,
    read: Parsed,
    board: &mut [u8],
    cells: &mut [u8],
    heard: &mut [u8],
    out: &mut [u8],
) -> usize
    requires { 68 ≤ length out.old }
    ensures took { Took (begins (heads_of heads.old) (memory house.old board.old cells.old heard.old) read) (sheet_of (heads_of heads.new) (memory house.new board.new cells.new heard.new)) out.old 0 result out.new }
    ensures end_bound { result ≤ 68 }
{
    let number = page::open_room(heads, house, board, cells, heard);
    let at = closing::answer_line(out, 0, number, 0);
    match heads.due {
        Due::Step => turn::take_step(house, board, cells, heard, read.line, read.pairs, out, at),
        _ => at,
    }
}

// A line while a heading is due.
fn take_heading(
    heads: &mut Heads,
    house: &mut House,
    read: Parsed,
    board: &mut [u8],
    cells: &mut [u8],
    heard: &mut [u8],
    out: &mut [u8],
) -> usize
    requires { 68 ≤ length out.old }
    ensures took { Took (heading (heads_of heads.old) (memory house.old board.old cells.old heard.old) read) (sheet_of (heads_of heads.new) (memory house.new board.new cells.new heard.new)) out.old 0 result out.new }
    ensures end_bound { result ≤ 68 }
{
    page::headed(heads, read.line);
    match heads.due {
        Due::Step => begin_steps(heads, house, read, board, cells, heard, out),
        Due::Nothing => closing::answer_line(out, 0, Refusal::Malformed as u8, 0),
        _ => 0,
    }
}

// What a line does and prints.
fn take_line(
    heads: &mut Heads,
    house: &mut House,
    text: &[u8],
    board: &mut [u8],
    cells: &mut [u8],
    heard: &mut [u8],
    out: &mut [u8],
) -> usize
    requires { 68 ≤ length out.old }
    ensures took { Took (takes (sheet_of (heads_of heads.old) (memory house.old board.old cells.old heard.old)) (parsed text.now)) (sheet_of (heads_of heads.new) (memory house.new board.new cells.new heard.new)) out.old 0 result out.new }
    ensures end_bound { result ≤ 68 }
{
    match heads.due {
        Due::Nothing => 0,
        Due::Step => {
            let read = lines::read_line(text);
            turn::take_step(house, board, cells, heard, read.line, read.pairs, out, 0)
        }
        _ => take_heading(
            heads,
            house,
            lines::read_line(text),
            board,
            cells,
            heard,
            out,
        ),
    }
}

// A line has at most 200 bytes; of a longer one 201 are held, which are too many.
const HELD: u8 = 201;

// A byte more of the line, if it is to be held.
fn keep_byte(line: &mut [u8], held: u8, b: u8) -> u8
    requires { 256 ≤ length line.old }
    ensures { take result line.new ≡ longer (take held line.old) b }
{
    if HELD <= held {
        return held;
    }
    line[usize::from(held)] = b;
    held + 1
}

// A house record of zeros, which stands until a room is opened.
fn blank() -> House {
    House {
        nodes: 0,
        faulty: 0,
        rows: 0,
        capacity: 0,
        listed: 0,
        quorums: [0; 64],
        backers: 0,
        weaks: [0; 64],
        tubes: 0,
        stations: [0; 64],
        serials: [0; 64],
        marks: 0,
        count: 0,
    }
}

// Before the first byte.
pub fn begin() -> Session
    ensures { (heads_of result.heads ≡ unread) × (result.held ≡ 0) }
{
    Session {
        heads: page::unread(),
        house: blank(),
        held: 0,
    }
}

// What a byte does and prints; tells how much was printed.
pub fn take_byte(
    s: &mut Session,
    b: u8,
    line: &mut [u8],
    board: &mut [u8],
    cells: &mut [u8],
    heard: &mut [u8],
    out: &mut [u8],
) -> usize
    requires in_bounds { 256 ≤ length line.old }
    requires in_bounds_2 { 68 ≤ length out.old }
    ensures ate { Ate (feeds (feed_for s.old line.old board.old cells.old heard.old) b) (feed_for s.new line.new board.new cells.new heard.new) out.old result out.new }
    ensures wrote_bound { result ≤ 68 }
{
    if b != b'\n' {
        s.held = keep_byte(line, s.held, b);
        return 0;
    }
    let text = &line[..usize::from(s.held)];
    s.held = 0;
    take_line(&mut s.heads, &mut s.house, text, board, cells, heard, out)
}

// The end of the input right after the last weak line: the opening, and then the closing lines, if the room opened.
fn open_and_end(
    heads: &mut Heads,
    house: &mut House,
    board: &mut [u8],
    cells: &mut [u8],
    heard: &mut [u8],
    out: &mut [u8],
) -> usize
    requires { 8226 ≤ length out.old }
    ensures wrote { Wrote out.old 0 (opens_and_ends (heads_of heads.old) (memory house.old board.old cells.old heard.old)) result out.new }
    ensures upper_bound { result ≤ 8226 }
{
    let number = page::open_room(heads, house, board, cells, heard);
    let at = closing::answer_line(out, 0, number, 0);
    match heads.due {
        Due::Step => {
            let m = Lent {
                house,
                board,
                cells,
                heard,
            };
            at + ending::write_ending(m, &mut out[at..])
        }
        _ => at,
    }
}

// What the end of the input prints after the last line.
fn end_sheet(
    heads: &mut Heads,
    house: &mut House,
    board: &mut [u8],
    cells: &mut [u8],
    heard: &mut [u8],
    out: &mut [u8],
) -> usize
    requires { 8226 ≤ length out.old }
    ensures wrote { Wrote out.old 0 (ends (sheet_of (heads_of heads.old) (memory house.old board.old cells.old heard.old))) result out.new }
    ensures upper_bound { result ≤ 8226 }
{
    match heads.due {
        Due::Nothing => 0,
        Due::Step => {
            let m = Lent {
                house,
                board,
                cells,
                heard,
            };
            ending::write_ending(m, out)
        }
        Due::Weaks => open_and_end(heads, house, board, cells, heard, out),
        _ => closing::answer_line(out, 0, Refusal::Malformed as u8, 0),
    }
}

// What the end of the input prints: the last line's answer, if it lacked its newline, and then the end of the sheet.
pub fn finish(
    mut s: Session,
    line: &[u8],
    board: &mut [u8],
    cells: &mut [u8],
    heard: &mut [u8],
    out: &mut [u8],
) -> usize
    requires in_bounds { 256 ≤ length line.now }
    requires in_bounds_2 { 8294 ≤ length out.old }
    ensures wrote { Wrote out.old 0 (last_line (feed_for s line.now board.old cells.old heard.old)) result out.new }
    ensures upper_bound { result ≤ 8294 }
{
    if s.held == 0 {
        return end_sheet(&mut s.heads, &mut s.house, board, cells, heard, out);
    }
    let text = &line[..usize::from(s.held)];
    let at = take_line(&mut s.heads, &mut s.house, text, board, cells, heard, out);
    at + end_sheet(
        &mut s.heads,
        &mut s.house,
        board,
        cells,
        heard,
        &mut out[at..],
    )
}
