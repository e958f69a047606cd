//! The commands of a script.

use std::str::SplitWhitespace;

/// A command on a net, a marking of it, and the index that follows.
#[derive(Drop)]
pub enum Command<'a> {
    /// Puts a token on a place.
    Put {
        place: u32,
        number: i64,
        stamp: u64,
    },
    /// Takes from a place the token of a number with the latest stamp that is not above this one.
    Take {
        place: u32,
        number: i64,
        latest: u64,
    },
    /// Moves the clock.
    Clock {
        clock: u64,
    },
    /// Sets the guard of the transition of a name.
    Guard {
        transition: &'a str,
        text: &'a str,
    },
    /// Tells what a search of a transition finds with a number on a place.
    Search {
        transition: u32,
        place: u32,
        number: i64,
    },
    /// Tells the index.
    Tell,
    /// A command on the elements that are kept by themselves.
    Due(DueCommand),
}

/// A command on elements that are kept by themselves. Each has one variable, which has a number.
#[derive(Drop)]
pub enum DueCommand {
    /// Puts the element of a transition and a number in, with its earliest time.
    Put {
        transition: u32,
        number: i64,
        earliest: u64,
    },
    /// Takes it out.
    Take {
        transition: u32,
        number: i64,
    },
    /// Moves the clock, and tells which elements are due.
    Clock {
        clock: u64,
    },
    /// Makes room for so many elements more.
    Reserve {
        count: usize,
    },
    /// Takes all elements out.
    Clear,
    /// Tells for how many elements more there is room.
    Spare,
}

/// The command that a line is: its words with blanks between. `None` where it is none.
pub fn command_in(line: &str) -> Option<Command<'_>> {
    if let Some(rest) = line.strip_prefix("due ") {
        return Some(Command::Due(due_command_in(rest)?));
    }
    if let Some(rest) = line.strip_prefix("guard ") {
        let (transition, text) = rest.split_once(' ')?;
        return Some(Command::Guard { transition, text });
    }
    let mut words = line.split_whitespace();
    let command = match words.next()? {
        "put" => Command::Put {
            place: index_in(&mut words)?,
            number: number_in(&mut words)?,
            stamp: time_in(&mut words)?,
        },
        "take" => Command::Take {
            place: index_in(&mut words)?,
            number: number_in(&mut words)?,
            latest: time_in(&mut words)?,
        },
        "clock" => Command::Clock {
            clock: time_in(&mut words)?,
        },
        "search" => Command::Search {
            transition: index_in(&mut words)?,
            place: index_in(&mut words)?,
            number: number_in(&mut words)?,
        },
        "tell" => Command::Tell,
        _ => return None,
    };
    Some(command)
}

/// The command on elements that are kept by themselves that a line is, behind its first word.
fn due_command_in(line: &str) -> Option<DueCommand> {
    let mut words = line.split_whitespace();
    let command = match words.next()? {
        "put" => DueCommand::Put {
            transition: index_in(&mut words)?,
            number: number_in(&mut words)?,
            earliest: time_in(&mut words)?,
        },
        "take" => DueCommand::Take {
            transition: index_in(&mut words)?,
            number: number_in(&mut words)?,
        },
        "clock" => DueCommand::Clock {
            clock: time_in(&mut words)?,
        },
        "reserve" => DueCommand::Reserve {
            count: index_in(&mut words)? as usize,
        },
        "clear" => DueCommand::Clear,
        "spare" => DueCommand::Spare,
        _ => return None,
    };
    Some(command)
}

/// The place or the transition that the next word is, by its number.
fn index_in(words: &mut SplitWhitespace<'_>) -> Option<u32> {
    words.next()?.parse::<u32>().ok()
}

/// The number that the next word is.
fn number_in(words: &mut SplitWhitespace<'_>) -> Option<i64> {
    words.next()?.parse::<i64>().ok()
}

/// The time that the next word is.
fn time_in(words: &mut SplitWhitespace<'_>) -> Option<u64> {
    words.next()?.parse::<u64>().ok()
}
