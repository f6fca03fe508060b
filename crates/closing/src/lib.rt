// What the sheet prints, written into a lent buffer.
#![tactic(auto)]

ghost use Rattle.std.specs.Prelude.{◌≡◌, not, [], ◌∷◌, ◌++◌, ℕ, ◌+◌, ◌*◌, ◌≤◌, ◌<◌, length, get_or};
ghost use Rattle.rules.specs.Tests.{pick};
ghost use Rattle.rules.specs.Words.{Room, State};
ghost use Rattle.rules.specs.Lent.{patch};
ghost use Rattle.rules.specs.Book.{book_of, stands, waiting_of};
ghost use Rattle.rules.specs.Laws.{entered};
ghost use Rattle.lines.specs.Decimal.{decimal};
ghost use Rattle.closing.specs.Laws.{OneOwn, TotalsTell};
ghost use Rattle.closing.specs.Printed.{answer_text, enters, repeats, waits, splits, totals, line_text, lines_text, row_line, closing_of};
ghost use Rattle.closing.specs.Given.{Wrote, held_in, rows_text, waiting_text, Given, Known};
ghost use Rattle.closing.specs.Fields.{words_of, in_words, line_most};
ghost use Rattle.closing.specs.Part.{Of};

mod part; // part.rt: what the closing lines are made of

use part::Closing;

// What the closing lines promise, carried by a function that does nothing.
pub fn closing_lines()
    ensures one_own { OneOwn }
    ensures totals_tell { TotalsTell }
{}

// A text into a place of a buffer; tells where it ends.
fn put_text(out: &mut [u8], at: usize, text: &[u8]) -> usize
    requires { at + length text.now ≤ length out.old }
    ensures { Wrote out.old at text.now result out.new }
{
    let end = at + text.len();
    out[at..end].copy_from_slice(text);
    end
}

// A word and a number; the number has ten digits at most. `write!` is no use here: it promises its bytes only where it answers Ok, which nothing promises, and
// the clauses `wrote` and `value` settle every byte on every path.
fn put_field(out: &mut [u8], at: usize, word: &[u8], number: u32) -> usize
    requires { at + length word.now + 10 ≤ length out.old }
    ensures wrote { Wrote out.old at (word.now ++ decimal number) result out.new }
    ensures upper_bound { result ≤ at + length word.now + 10 }
{
    let end = put_text(out, at, word);
    lines::put_decimal(out, end, number)
}

// A line: its fields, each a word and a number, and the newline.
fn put_line(out: &mut [u8], at: usize, fields: &[(&str, u32)]) -> usize
    requires { at + line_most (words_of fields.now) ≤ length out.old }
    ensures wrote { Wrote out.old at (in_words (words_of fields.now)) result out.new }
    ensures upper_bound { result ≤ at + line_most (words_of fields.now) }
{
    let mut end = at;
    for (word, number) in fields {
        end = put_field(out, end, word.as_bytes(), *number);
    }
    out[end] = b'\n';
    end + 1
}

// The line of a row that enters its tube.
#[tactic(auto, unfolding(crate::specs::Printed::line_text))]
fn row_line(out: &mut [u8], at: usize, row: u8, tube: u8, station: u8, serial: u32) -> usize
    requires { at + 68 ≤ length out.old }
    ensures wrote { Wrote out.old at (line_text (enters row tube station serial)) result out.new }
    ensures upper_bound { result ≤ at + 68 }
{
    put_line(
        out,
        at,
        &[
            ("row=", u32::from(row)),
            (" tube=", u32::from(tube)),
            (" station=", u32::from(station)),
            (" serial=", serial),
        ],
    )
}

// The line of a void row.
#[tactic(auto, unfolding(crate::specs::Printed::line_text))]
fn void_line(out: &mut [u8], at: usize, row: u8, tube: u8) -> usize
    requires { at + 68 ≤ length out.old }
    ensures wrote { Wrote out.old at (line_text (repeats row tube)) result out.new }
    ensures upper_bound { result ≤ at + 68 }
{
    put_line(
        out,
        at,
        &[("row=", u32::from(row)), (" void=", u32::from(tube))],
    )
}

// The line of a waiting tube.
#[tactic(auto, unfolding(crate::specs::Printed::line_text))]
fn waiting_line(out: &mut [u8], at: usize, tube: u8, station: u8, serial: u32) -> usize
    requires { at + 56 ≤ length out.old }
    ensures wrote { Wrote out.old at (line_text (waits tube station serial)) result out.new }
    ensures upper_bound { result ≤ at + 56 }
{
    put_line(
        out,
        at,
        &[
            ("waiting=", u32::from(tube)),
            (" station=", u32::from(station)),
            (" serial=", serial),
        ],
    )
}

// The line of a row that ended the book by a split.
#[tactic(auto, unfolding(crate::specs::Printed::line_text))]
fn split_line(out: &mut [u8], at: usize, row: u8) -> usize
    requires { at + 17 ≤ length out.old }
    ensures wrote { Wrote out.old at (line_text (splits row)) result out.new }
    ensures upper_bound { result ≤ at + 17 }
{
    put_line(out, at, &[("split=", u32::from(row))])
}

// The last line.
#[tactic(auto, unfolding(crate::specs::Printed::line_text))]
fn totals_line(out: &mut [u8], at: usize, scanned: u8, entered: u8, void: u8, waiting: u8) -> usize
    requires { at + 73 ≤ length out.old }
    ensures wrote { Wrote out.old at (line_text (totals scanned entered void waiting)) result out.new }
    ensures upper_bound { result ≤ at + 73 }
{
    put_line(
        out,
        at,
        &[
            ("scanned=", u32::from(scanned)),
            (" entered=", u32::from(entered)),
            (" void=", u32::from(void)),
            (" waiting=", u32::from(waiting)),
        ],
    )
}

// The line of an answer: its number, and a tube unless it is none. Numbers, since `answer_text` of the definitions takes a reply's numbers.
pub fn answer_line(out: &mut [u8], at: usize, number: u8, tube: u8) -> usize
    requires { at + 34 ≤ length out.old }
    ensures wrote { Wrote out.old at (answer_text number tube) result out.new }
    ensures upper_bound { result ≤ at + 34 }
{
    if tube == rules::Tube::NONE {
        return put_line(out, at, &[("answer=", u32::from(number))]);
    }
    put_line(
        out,
        at,
        &[("answer=", u32::from(number)), (" tube=", u32::from(tube))],
    )
}

impl Closing {
    // Whether a tube stands in one of the first n rows.
    fn held(&self, n: u8, tube: u8) -> bool
        requires { n ≤ 64 }
        ensures { result ≡ held_in self.now.tubes n tube }
    {
        self.tubes[..n as usize].contains(&tube)
    }

    // How many rows of the book enter a tube.
    fn entered(&self) -> u8
        ensures value { (ρ : Room) (s : State) → Of ρ s self.now → result ≡ entered (book_of ρ s) }
        ensures upper_bound { result ≤ self.now.reach }
    {
        let mut count = 0;
        for k in 0..self.reach {
            let tube = self.tubes[k as usize];
            count += u8::from(!self.held(k, tube));
        }
        count
    }

    // How many tubes wait.
    fn waiting(&self) -> u8
        ensures { (ρ : Room) (s : State) → Of ρ s self.now → result ≡ length (waiting_of ρ s) }
    {
        let mut count = 0;
        for k in 0..self.scanned {
            count += u8::from(!self.held(self.reach, k + 1));
        }
        count
    }

    // The line of row k + 1.
    #[tactic(auto, using(crate::proofs::Rows::tube_range))]
    fn put_row(&self, out: &mut [u8], at: usize, k: u8) -> usize
        requires k_bound { k < self.now.reach }
        requires at_in_bounds { at + 68 ≤ length out.old }
        ensures wrote { (ρ : Room) (s : State) → Of ρ s self.now → Wrote out.old at (line_text (row_line ρ s (k + 1))) result out.new }
        ensures upper_bound { result ≤ at + 68 }
    {
        let tube = self.tubes[k as usize];
        if self.held(k, tube) {
            return void_line(out, at, k + 1, tube);
        }
        let place = (tube - 1) as usize;
        row_line(
            out,
            at,
            k + 1,
            tube,
            self.stations[place],
            self.serials[place],
        )
    }

    // The lines of the book's rows, at the front.
    fn write_rows(&self, out: &mut [u8]) -> usize
        requires { 4352 ≤ length out.old }
        ensures wrote { (ρ : Room) (s : State) → Of ρ s self.now → Wrote out.old 0 (rows_text ρ s self.now.reach) result out.new }
        ensures upper_bound { result ≤ 68 * self.now.reach }
    {
        let mut at = 0;
        for k in 0..self.reach {
            at = self.put_row(out, at, k);
        }
        at
    }

    // The line of a tube, if it waits.
    fn put_waiting(&self, out: &mut [u8], at: usize, tube: u8) -> usize
        requires le_tube { (1 ≤ tube) × (tube ≤ self.now.scanned) }
        requires at_in_bounds { at + 56 ≤ length out.old }
        ensures wrote { (ρ : Room) (s : State) → Of ρ s self.now
            → Wrote out.old at (waiting_text s (pick (not (stands ρ s tube)) (tube ∷ []) [])) result out.new }
        ensures upper_bound { result ≤ at + 56 }
    {
        if self.held(self.reach, tube) {
            return at;
        }
        let place = (tube - 1) as usize;
        waiting_line(out, at, tube, self.stations[place], self.serials[place])
    }

    // The lines of the waiting tubes, by number.
    fn write_waiting(&self, out: &mut [u8], from: usize) -> usize
        requires { from + 3584 ≤ length out.old }
        ensures wrote { (ρ : Room) (s : State) → Of ρ s self.now → Wrote out.old from (waiting_text s (waiting_of ρ s)) result out.new }
        ensures upper_bound { result ≤ from + 56 * self.now.scanned }
    {
        let mut at = from;
        for k in 0..self.scanned {
            at = self.put_waiting(out, at, k + 1);
        }
        at
    }

    // The line of the row after the book, if it stopped by a split.
    fn write_split(&self, out: &mut [u8], at: usize) -> usize
        requires { at + 17 ≤ length out.old }
        ensures wrote { Wrote out.old at (lines_text (pick self.now.split (splits (self.now.reach + 1) ∷ []) [])) result out.new }
        ensures upper_bound { result ≤ at + 17 }
    {
        if self.split {
            return split_line(out, at, self.reach + 1);
        }
        at
    }
}

// The closing lines of a sheet: the book's rows, the waiting tubes, a split, the totals.
pub fn write_closing(
    tubes: [u8; 64],
    reach: u8,
    split: bool,
    stations: [u8; 64],
    serials: [u32; 64],
    scanned: u8,
    out: &mut [u8],
) -> usize
    requires known { Known tubes reach split stations serials scanned }
    requires in_bounds { 8192 ≤ length out.old }
    ensures value { (ρ : Room) (s : State) → Given ρ s tubes reach split stations serials scanned
        → (result ≡ length (closing_of ρ s)) × (out.new ≡ patch out.old 0 (closing_of ρ s)) }
    ensures upper_bound { result ≤ 8192 }
{
    let closing = Closing {
        tubes,
        reach,
        split,
        stations,
        serials,
        scanned,
    };
    let rows = closing.write_rows(out);
    let waiting = closing.write_waiting(out, rows);
    let at = closing.write_split(out, waiting);
    let entered = closing.entered();
    totals_line(
        out,
        at,
        scanned,
        entered,
        reach - entered,
        closing.waiting(),
    )
}
