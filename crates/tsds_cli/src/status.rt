//! The statuses that the program ends with, and what it prints for them.
ghost use Rattle.std.specs.Prelude.{◌≡◌};
ghost use Rattle.tsds_cli.specs.Statuses.{printed_for};

/// All is done.
pub const DONE: u8 = 0;

/// The words of the command line are no command.
pub const USAGE: u8 = 2;

/// There was no memory.
pub const NO_MEMORY: u8 = 3;

/// The source failed.
pub const READ_FAULT: u8 = 4;

/// The keeper failed.
pub const KEEPER_FAULT: u8 = 6;

/// The sink failed.
pub const WRITE_FAULT: u8 = 7;

/// The script passes one of its lengths.
pub const TOO_LONG: u8 = 8;

/// What the program prints on standard error for a status.
///
/// It is nothing where all is done, and nothing for a number that is no status of the program.
pub fn status_text(status: u8) -> &'static str
    ensures { result.now ≡ printed_for status }
{
    match status {
        USAGE => "tsds: usage",
        NO_MEMORY => "tsds: out of memory",
        READ_FAULT => "tsds: read fault",
        KEEPER_FAULT => "tsds: keeper fault",
        WRITE_FAULT => "tsds: write fault",
        TOO_LONG => "tsds: input too long",
        _ => "",
    }
}
