// A script, command by command.
ghost use Rattle.std.specs.Prelude.{◌≡◌, ◌<◌, ◌≤◌, length, true, OnSome};
ghost use Rattle.std.specs.Iterator.{at_most};
ghost use Rattle.lists.specs.Lists.{all_of};
ghost use Rattle.words.specs.Bytes.{digit};
ghost use Rattle.replay.specs.declared.script.TheConstants.{ROOM};
ghost use Rattle.replay.specs.Numbers.{figures_end, value_in, front_number, behind_number};

use std::str;
use words::is_digit;

// A bulletin given to the board at a clock, and a listing at a time into a buffer of so many bytes.
#[derive(Clone, Copy)]
pub(crate) enum Command<'a> {
    Post { clock: u32, bulletin: &'a [u8] },
    List { time: u32, room: Room },
}

// The most room of a listing.
pub(crate) const ROOM: usize = 2000;

// The room of a listing.
#[derive(Clone, Copy)]
pub(crate) struct Room {
    pub(crate) bytes: usize,
    ghost within: { bytes ≤ ROOM },
}

// What is left of a script. A method takes what it names off its front, and answers nothing where that does not stand there.
#[derive(Clone, Copy)]
pub(crate) struct Script<'a> {
    rest: &'a [u8],
}

impl<'a> Script<'a> {
    pub(crate) fn new(text: &'a [u8]) -> Script<'a> {
        Script { rest: text }
    }

    fn byte(&mut self, byte: u8) -> Option<()>
        ensures { length self.new.rest.now ≤ length self.old.rest.now }
    {
        self.rest = self.rest.strip_prefix(&[byte])?;
        Some(())
    }

    // One or more figures, of a number of at most 4,294,967,295.
    #[tactic(auto, using(crate::proofs::NumberLaws::clear, crate::proofs::NumberLaws::fronted, crate::proofs::NumberLaws::behind))]
    fn number(&mut self) -> Option<u32>
        ensures value { result ≡ front_number self.old.rest.now }
        ensures rest { self.new.rest.now ≡ behind_number self.old.rest.now }
        ensures fewer { length self.new.rest.now ≤ length self.old.rest.now }
    {
        let (figures, rest) = self.rest.split_at(figures_end(self.rest));
        self.rest = rest;
        value_in(figures)
    }

    // A space, and a number behind it.
    fn field(&mut self) -> Option<u32>
        ensures { length self.new.rest.now ≤ length self.old.rest.now }
    {
        self.byte(b' ')?;
        self.number()
    }

    // A letter; a space and a number, twice, and LF; and behind a `P` the bulletin of that many bytes and LF.
    fn command(&mut self) -> Option<Command<'a>>
        ensures { OnSome result (length self.new.rest.now < length self.old.rest.now) }
    {
        let letter = self.rest.split_off_first()?;
        let first = self.field()?;
        let second = self.field()?;
        self.byte(b'\n')?;
        match letter {
            b'P' => {
                let bulletin = self.rest.split_off(..second as usize)?;
                self.byte(b'\n')?;
                Some(Command::Post {
                    clock: first,
                    bulletin,
                })
            }
            b'L' if second as usize <= ROOM => Some(Command::List {
                time: first,
                room: Room {
                    bytes: second as usize,
                },
            }),
            _ => None,
        }
    }
}

// Here stands something else than a command.
#[derive(Clone, Copy)]
pub(crate) struct Malformed;

// The commands. The first that is not well-formed ends the script.
impl<'a> Iterator for Script<'a> {
    type Item = Result<Command<'a>, Malformed>;

    ghost remaining = { λ s. at_most (length s.rest.now) };

    fn next(&mut self) -> Option<Result<Command<'a>, Malformed>> {
        if self.rest.is_empty() {
            return None;
        }
        let command = self.command();
        if command.is_none() {
            self.rest = &[];
        }
        Some(command.ok_or(Malformed))
    }
}

// The place of the first byte that is no figure, or the length where there is none.
fn figures_end(text: &[u8]) -> usize
    ensures within { result ≤ length text.now }
    ensures value { result ≡ figures_end text.now 0 }
{
    text.iter()
        .position(|x| !is_digit(*x))
        .unwrap_or(text.len())
}

#[tactic(auto, using(crate::proofs::NumberLaws::text, crate::proofs::NumberLaws::parsed))]
fn value_in(figures: &[u8]) -> Option<u32>
    requires { all_of digit figures.now ≡ true }
    ensures { result ≡ value_in figures.now }
{
    str::from_utf8(figures).ok()?.parse().ok()
}
