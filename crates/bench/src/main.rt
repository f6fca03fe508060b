// The benchmark's program: one call of a full eight-station room made over and over on the same memory, so that its cost shows.
// Standard input has what to do (0 read, 1 call, 2 copy), how often, and a frame whose lists and areas are of that room's lengths.
#![tactic(auto)]

use frame::{Asked, Request};
use std::io;
use std::io::{Read, Write};

// What is done over and over.
#[derive(Clone, Copy)]
enum Work {
    Read,
    Call,
    Copy,
}

// The order's first byte, a number since a file brings it; any but 0 and 1 asks for the copy.
impl From<u8> for Work {
    fn from(what: u8) -> Self {
        match what {
            0 => Work::Read,
            1 => Work::Call,
            _ => Work::Copy,
        }
    }
}

// A sum and every byte of an area.
fn add(from: u64, area: &[u8]) -> u64 {
    area.iter()
        .fold(from, |sum, byte| sum.wrapping_add(u64::from(*byte)))
}

// The memory that is lent to a call.
#[derive(Clone, Copy)]
struct Room {
    board: [u8; 40960],
    cells: [u8; 18432],
    heard: [u8; 1024],
}

// A frame: its call, its lists, and the areas as it gives them.
#[derive(Drop)]
struct Frame {
    request: Request,
    call: Asked,
    quorums: [u32; 56],
    weaks: [u32; 28],
    given: Room,
}

impl Frame {
    // Fills the lists and the areas from the input.
    fn read<R: Read>(&mut self, input: &mut R) -> io::Result<()> {
        input::read_list(input, &mut self.quorums)?;
        input::read_list(input, &mut self.weaks)?;
        input.read_exact(&mut self.given.board)?;
        input.read_exact(&mut self.given.cells)?;
        input.read_exact(&mut self.given.heard)
    }
}

impl Room {
    // The areas as the frame gave them.
    fn renew(&mut self, frame: &Frame) {
        *self = frame.given;
    }

    // A sum and every lent byte, each read once.
    fn read_once(&self, from: u64) -> u64 {
        let sum = add(from, &self.board);
        let more = add(sum, &self.cells);
        add(more, &self.heard)
    }

    // Every lent byte read once, and again.
    fn read_often(&self, times: u32) -> u64 {
        let mut sum: u64 = 0;
        for _ in 0..times {
            sum = self.read_once(sum);
        }
        sum
    }

    // One call on renewed memory; its answer's number.
    fn call_once(&mut self, frame: &Frame) -> u64 {
        let mut book = [0u8; 64];
        let mut waiting = [0u8; 64];
        self.renew(frame);
        let mut house = frame.request.house;
        let answer = frame::serve(
            &mut house,
            &mut self.board,
            &mut self.cells,
            &mut self.heard,
            &mut book,
            &mut waiting,
            &frame.quorums,
            &frame.weaks,
            frame.call,
            frame.request.pairs,
        );
        u64::from(answer.number)
    }

    // The call, over and over; the answers' numbers added up.
    fn call_often(&mut self, times: u32, frame: &Frame) -> u64 {
        let mut sum: u64 = 0;
        for _ in 0..times {
            sum = sum.wrapping_add(self.call_once(frame));
        }
        sum
    }

    // The copy alone, as often as it is made for calls.
    fn copy_often(&mut self, times: u32, frame: &Frame) -> u64 {
        for _ in 0..times {
            self.renew(frame);
        }
        self.read_once(0)
    }

    // What is asked for, as often as it says.
    fn work(&mut self, what: Work, times: u32, frame: &Frame) -> u64 {
        match what {
            Work::Read => self.read_often(times),
            Work::Call => self.call_often(times, frame),
            Work::Copy => self.copy_often(times, frame),
        }
    }
}

fn main(rt: HostRuntime) -> io::Result<()> {
    let mut input = rt.stdin();
    let mut output = rt.stdout();
    let mut order = [0u8; 5];
    if !input::whole(input.read_exact(&mut order))? {
        return Ok(());
    }
    let what = Work::from(order[0]);
    let times = image::numbers::read_u32(&order, 1);
    let mut front = [0u8; frame::REQUEST];
    if !input::whole(input.read_exact(&mut front))? {
        return Ok(());
    }
    let request = frame::reading::request(&front);
    let Some(call) = frame::which::found(request.call, request.arguments) else {
        return Ok(());
    };
    let mut frame = Frame {
        request,
        call,
        quorums: [0; 56],
        weaks: [0; 28],
        given: Room {
            board: [0; 40960],
            cells: [0; 18432],
            heard: [0; 1024],
        },
    };
    if !input::whole(frame.read(&mut input))? {
        return Ok(());
    }
    let mut room = frame.given;
    let sum = room.work(what, times, &frame);
    write!(output, "{sum}")
}
