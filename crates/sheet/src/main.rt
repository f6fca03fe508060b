// The sheet program: reads a sheet from standard input, byte by byte, and prints each answer and then the closing lines.
#![tactic(auto)]

use session::Session;
use std::io;
use std::io::{Read, Write};

// A sheet that is being read: the session, the line in hand, the room's memory, and what is printed next.
#[derive(Drop)]
struct Desk {
    session: Session,
    line: [u8; 256],
    board: [u8; 40960],
    cells: [u8; 18432],
    heard: [u8; 1024],
    out: [u8; 16384],
}

impl Desk {
    // One byte; a line's answer is printed when its newline comes.
    fn take_one<W: Write>(&mut self, output: &mut W, b: u8) -> io::Result<()> {
        let wrote = session::take_byte(
            &mut self.session,
            b,
            &mut self.line,
            &mut self.board,
            &mut self.cells,
            &mut self.heard,
            &mut self.out,
        );
        output.write_all(&self.out[..wrote])
    }

    // The bytes of one part of the input.
    fn take_part<W: Write>(&mut self, output: &mut W, part: &[u8]) -> io::Result<()> {
        for b in part {
            self.take_one(output, *b)?;
        }
        Ok(())
    }

    // One reading, and whether the input had not ended.
    fn one_turn<R: Read, W: Write>(&mut self, input: &mut R, output: &mut W) -> io::Result<bool> {
        let mut part = [0; 4096];
        let n = input.read(&mut part)?;
        self.take_part(output, &part[..n])?;
        Ok(n != 0)
    }

    // The whole input, part by part.
    fn read_all<R: Read, W: Write>(&mut self, input: &mut R, output: &mut W) -> io::Result<()> {
        // a loop with no bound would need the handle Wait, which no crate here has
        for _ in 0..u64::MAX {
            if !self.one_turn(input, output)? {
                return Ok(());
            }
        }
        Ok(())
    }

    // The end of the input.
    fn finish<W: Write>(&mut self, output: &mut W) -> io::Result<()> {
        let n = session::finish(
            self.session,
            &self.line,
            &mut self.board,
            &mut self.cells,
            &mut self.heard,
            &mut self.out,
        );
        output.write_all(&self.out[..n])
    }
}

fn main(rt: HostRuntime) -> io::Result<()> {
    let mut input = rt.stdin();
    let mut output = rt.stdout();
    let mut desk = Desk {
        session: session::begin(),
        line: [0; 256],
        board: [0; 40960],
        cells: [0; 18432],
        heard: [0; 1024],
        out: [0; 16384],
    };
    desk.read_all(&mut input, &mut output)?;
    desk.finish(&mut output)
}
