//! Which words are those of a command.

ghost use Rattle.std.specs.Prelude.{◌≡◌};
ghost use Rattle.chanmap.specs.Words.{alone, command_of, frames_of, with_frames};

use crate::command::Command;
use io_caps::limits::MOST_FRAMES;

/// A command that takes no word after its name.
fn alone(command: Command, words: &[String]) -> Option<Command>
    ensures { result ≡ alone command words.now }
{
    match words {
        [] => Some(command),
        [_, ..] => None,
    }
}

/// The frames a tick that a word says: a number as Rust reads it, from 1 to the most of a device.
fn frames_of(word: &str) -> Option<u16>
    ensures { result ≡ frames_of word.now }
{
    let frames = word.parse::<u16>().ok()?;
    if frames >= 1 && frames <= MOST_FRAMES {
        Some(frames)
    } else {
        None
    }
}

/// The command `from-sdp`, after whose name stand the frames a tick.
fn with_frames(words: &[String]) -> Option<Command>
    ensures { result ≡ with_frames words.now }
{
    match words {
        [word] => match frames_of(word.as_str()) {
            Some(frames) => Some(Command::FromSdp { frames }),
            None => None,
        },
        [] | [_, _, ..] => None,
    }
}

/// The command of the words: the first one is its name, and the others are such as it takes.
pub(crate) fn command_of(words: &[String]) -> Option<Command>
    ensures { result ≡ command_of words.now }
{
    let [name, words @ ..] = words else {
        return None;
    };
    if name.as_str() == "serial" {
        alone(Command::Serial, words)
    } else if name.as_str() == "sdp" {
        alone(Command::Sdp, words)
    } else if name.as_str() == "from-sdp" {
        with_frames(words)
    } else {
        None
    }
}
