// A command that was read, as numbers.
ghost use Rattle.std.specs.Prelude.{◌≡◌};
ghost use Rattle.stream_read.specs.Value.{command_from};
ghost use Rattle.c_values.specs.Reads.{nothing_read, with_operands, command_read};

use stream_read::{Command, Kind};

// The command at the front of a stream, and the bytes that it takes.
#[repr(C)]
#[derive(Drop)]
pub struct Read {
    pub refusal: u32,
    pub command: u32,
    pub taken: u64,
    pub first: u64,
    pub second: u64,
    pub third: u64,
}

// No command: the end, or a refusal.
pub fn nothing_read(refusal: u32) -> Read
    ensures { result ≡ nothing_read refusal }
{
    Read {
        refusal,
        command: 0,
        taken: 0,
        first: 0,
        second: 0,
        third: 0,
    }
}

// A command by its number, its operands in the order of the stream; absent ones are 0.
pub fn with_operands(command: u32, taken: usize, first: u64, second: u64, third: u64) -> Read
    ensures { result ≡ with_operands command taken first second third }
{
    Read {
        refusal: 0,
        command,
        taken: taken as u64,
        first,
        second,
        third,
    }
}

// (Not a From: the bytes that the command takes come beside it.)
pub fn command_read(command: Command, taken: usize) -> Read
    ensures { result ≡ command_read (command_from command) taken }
{
    match command {
        Command::Unit {
            number,
            turnover,
            random,
        } => with_operands(
            Kind::Unit as u32,
            taken,
            u64::from(number),
            turnover,
            u64::from(random),
        ),
        Command::Draw { size, start } => with_operands(
            Kind::Draw as u32,
            taken,
            u64::from(size),
            u64::from(start),
            0,
        ),
        Command::Share { place, share } => with_operands(
            Kind::Share as u32,
            taken,
            u64::from(place),
            u64::from(share),
            0,
        ),
        Command::Relative { place, relative } => with_operands(
            Kind::Relative as u32,
            taken,
            u64::from(place),
            u64::from(relative),
            0,
        ),
        Command::Open { start } => with_operands(Kind::Open as u32, taken, start, 0, 0),
        Command::Quarter => with_operands(Kind::Quarter as u32, taken, 0, 0, 0),
        Command::Close => with_operands(Kind::Close as u32, taken, 0, 0, 0),
    }
}
