// Reads frames from standard input until it ends, or until one that it cannot hold, and writes a reply for each.
#![tactic(auto)]

use frame::{Asked, Request};
use named::Answer;
use rules::House;
use std::io;
use std::io::{Read, Write};

// What one frame lends: its house record, and lists and areas as long as it says.
#[derive(Drop)]
struct Loan<'a> {
    house: House,
    quorums: &'a mut [u32],
    weaks: &'a mut [u32],
    board: &'a mut [u8],
    cells: &'a mut [u8],
    heard: &'a mut [u8],
    book: &'a mut [u8],
    waiting: &'a mut [u8],
}

impl Loan<'_> {
    // Fills the lists and the areas from the input.
    fn read<R: Read>(&mut self, input: &mut R) -> io::Result<()> {
        input::read_list(input, self.quorums)?;
        input::read_list(input, self.weaks)?;
        input.read_exact(self.board)?;
        input.read_exact(self.cells)?;
        input.read_exact(self.heard)?;
        input.read_exact(self.book)?;
        input.read_exact(self.waiting)
    }

    // The frame's call, made on it. The lists are lent on as `&mut`, since one lent as `&` beside the areas has no proof rule yet.
    fn serve(&mut self, call: Asked, pairs: [u32; 32]) -> Answer {
        frame::serve(
            &mut self.house,
            self.board,
            self.cells,
            self.heard,
            self.book,
            self.waiting,
            &mut *self.quorums,
            &mut *self.weaks,
            call,
            pairs,
        )
    }

    // The reply's front and the areas.
    fn write<W: Write>(&self, output: &mut W, answer: Answer) -> io::Result<()> {
        let mut front = [0u8; frame::REPLY];
        frame::writing::reply(answer, self.house, &mut front);
        output.write_all(&front)?;
        output.write_all(self.board)?;
        output.write_all(self.cells)?;
        output.write_all(self.heard)?;
        output.write_all(self.book)?;
        output.write_all(self.waiting)
    }

    // The rest of a frame, and its reply; false where the input ends before.
    fn answer<R: Read, W: Write>(
        &mut self,
        input: &mut R,
        output: &mut W,
        call: Asked,
        pairs: [u32; 32],
    ) -> io::Result<bool> {
        if !input::whole(self.read(input))? {
            return Ok(false);
        }
        let answer = self.serve(call, pairs);
        self.write(output, answer)?;
        Ok(true)
    }
}

// As much of a list or an area as is asked; None where that is more than it has.
fn part<T>(of: &mut [T], length: u32) -> Option<&mut [T]> {
    of.get_mut(..length as usize)
}

// The most that a frame may lend.
#[derive(Drop)]
struct Desk {
    quorums: [u32; 70],
    weaks: [u32; 70],
    board: [u8; 42000],
    cells: [u8; 19000],
    heard: [u8; 1200],
    book: [u8; 200],
    waiting: [u8; 200],
}

impl Desk {
    // What a frame lends; None where it cannot be held.
    fn lend(&mut self, request: Request) -> Option<Loan<'_>> {
        let Desk {
            quorums,
            weaks,
            board,
            cells,
            heard,
            book,
            waiting,
        } = self;
        Some(Loan {
            house: request.house,
            quorums: part(quorums, request.quorums)?,
            weaks: part(weaks, request.weaks)?,
            board: part(board, request.board)?,
            cells: part(cells, request.cells)?,
            heard: part(heard, request.heard)?,
            book: part(book, request.book)?,
            waiting: part(waiting, request.waiting)?,
        })
    }

    // One frame; false where the input ends, its call is unknown, or it cannot be held.
    fn one_frame<R: Read, W: Write>(&mut self, input: &mut R, output: &mut W) -> io::Result<bool> {
        let mut front = [0u8; frame::REQUEST];
        if !input::whole(input.read_exact(&mut front))? {
            return Ok(false);
        }
        let request = frame::reading::request(&front);
        let Some(call) = frame::which::found(request.call, request.arguments) else {
            return Ok(false);
        };
        let Some(mut loan) = self.lend(request) else {
            return Ok(false);
        };
        loan.answer(input, output, call, request.pairs)
    }

    // Frame after frame.
    fn run<R: Read, W: Write>(&mut self, input: &mut R, output: &mut W) -> io::Result<()> {
        // a loop with no bound would need the handle Wait, which no crate here has
        for _ in 0..u64::MAX {
            if !self.one_frame(input, output)? {
                return Ok(());
            }
        }
        Ok(())
    }
}

fn main(rt: HostRuntime) -> io::Result<()> {
    let mut input = rt.stdin();
    let mut output = rt.stdout();
    let mut desk = Desk {
        quorums: [0; 70],
        weaks: [0; 70],
        board: [0; 42000],
        cells: [0; 19000],
        heard: [0; 1200],
        book: [0; 200],
        waiting: [0; 200],
    };
    desk.run(&mut input, &mut output)
}
