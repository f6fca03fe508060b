// The front of a reply: 472 bytes, and the areas after it.
ghost use Rattle.std.specs.Prelude.{◌≡◌, ◌≤◌, length};
ghost use Rattle.rules.specs.Lent.{patch};
ghost use Rattle.named.specs.Told.{told};
ghost use Rattle.frame.specs.Frame.{reply_of};

use image::numbers::{write_u8, write_u32};
use named::Answer;
use rules::House;

// The answer's number and values, and the house record behind them, by value as `write_house` takes it.
pub fn reply(answer: Answer, house: House, out: &mut [u8])
    requires { 472 ≤ length out.old }
    ensures { out.new ≡ patch out.old 0 (reply_of (told answer) house) }
{
    write_u8(out, 0, answer.number);
    write_u32(out, 1, u32::from(answer.value));
    write_u32(out, 5, u32::from(answer.waiting));
    write_u32(out, 9, u32::from(answer.stopped));
    image::write_house(house, &mut out[13..]);
}
