//! Why words are not those of a command.
use clap::Error;

/// Why words are not those of a command.
#[derive(Drop)]
pub enum Unread {
    /// clap refuses them, they ask it for help, or memory ran out.
    Clap(Error),
    /// clap takes them, and they name no command of the table.
    NoCommand,
}
