// Document 02, [4]: a command with a value in each column, as the six lists of a writer have it.
#![tactic(auto)]

ghost use Rattle.std.specs.Prelude.{◌≡◌};
ghost use Rattle.rules.specs.Writing.{row, row_of};
ghost use Rattle.stream_read.specs.Value.{byte_of, command_from};
ghost use Rattle.stream_row.specs.Value.{row_from};

use stream_read::{Command, Kind};

// A command byte; a size or a place; a share; a number, a start or a relative; a random number; a turnover or a start index.
#[derive(Drop)]
pub struct Row {
    pub kind: u8,
    pub size: u8,
    pub share: u16,
    pub number: u32,
    pub random: u32,
    pub amount: u64,
}

impl Row {
    // The row of a kind, every operand 0.
    fn bare(kind: Kind) -> Row
        ensures { row_from result ≡ row (byte_of kind) 0 0 0 0 0 }
    {
        Row {
            kind: kind as u8,
            size: 0,
            share: 0,
            number: 0,
            random: 0,
            amount: 0,
        }
    }
}

// A command as a row, absent operands 0.
impl From<Command> for Row {
    ghost from_gives = { λ command result. row_from result ≡ row_of (command_from command) };

    fn from(command: Command) -> Row {
        match command {
            Command::Unit {
                number,
                turnover,
                random,
            } => Row {
                number,
                random,
                amount: turnover,
                ..Row::bare(Kind::Unit)
            },
            Command::Draw { size, start } => Row {
                size,
                number: start,
                ..Row::bare(Kind::Draw)
            },
            Command::Share { place, share } => Row {
                size: place,
                share,
                ..Row::bare(Kind::Share)
            },
            Command::Relative { place, relative } => Row {
                size: place,
                number: relative,
                ..Row::bare(Kind::Relative)
            },
            Command::Open { start } => Row {
                amount: start,
                ..Row::bare(Kind::Open)
            },
            Command::Quarter => Row::bare(Kind::Quarter),
            Command::Close => Row::bare(Kind::Close),
        }
    }
}
