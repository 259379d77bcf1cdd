// Standard input, line by line. A block is read once the one before it is used up; what comes may
// be less than a block, as a person types.
ghost use Rattle.std.specs.Prelude.{◌≡◌, ◌≤◌, length, IfOk, IfSome};

use crate::output::Out;
use crate::text::Text;
use std::io::{Read, Stdin};

// Where it is read from, a block, the place in it of the next byte and after its last one, the
// number of the last line, and why there is no more, once that is so. A read fills the block, and
// what is not used yet is a part of it.
#[derive(Clone, Copy)]
pub struct Input {
    stdin: Stdin,
    block: [u8; 4096],
    from: usize,
    end: usize,
    number: usize,
    over: Option<Over>,
}

// Why nothing more is read: the input's end, or a read that failed.
#[derive(Clone, Copy, Debug, PartialEq, Eq)]
pub enum Over {
    End,
    Failed,
}

// What standard input has next, as much as is there: how many bytes of what is lent are filled.
pub fn read_into(stdin: &mut Stdin, block: &mut [u8]) -> Result<usize, Over> {
    match stdin.read(block) {
        Ok(0) => Err(Over::End),
        Ok(size) => Ok(size),
        Err(_) => Err(Over::Failed),
    }
}

// Why there is no line to read: it is longer than the room for it and was passed over, or standard
// input cannot be read.
#[derive(Clone, Copy, Debug, PartialEq, Eq)]
pub enum Unread {
    TooLong,
    Failed,
}

impl Input {
    // Before anything is read.
    pub fn new(stdin: Stdin) -> Input {
        Input {
            stdin,
            block: [0u8; 4096],
            from: 0,
            end: 0,
            number: 0,
            over: None,
        }
    }

    // The number of the last line.
    pub fn number(&self) -> usize
        ensures { result ≡ self.now.number }
    {
        self.number
    }

    // The next block; what was said is written before it is waited for. Once the input is over it
    // is not asked again.
    fn fill(&mut self, out: &mut Out) {
        if self.over.is_some() || self.from < self.end {
            return;
        }
        out.flush();
        self.from = 0;
        self.end = 0;
        match read_into(&mut self.stdin, &mut self.block) {
            Ok(size) => self.end = size,
            Err(over) => self.over = Some(over),
        }
    }

    // A line, of which these bytes are there. The number stays at 1,000,000,000 once it is there.
    fn line<'a>(&mut self, bytes: &'a [u8], cut: bool) -> Result<Option<Text<'a>>, Unread>
        ensures { IfOk result (λ o. IfSome o (λ t. t.bytes.now ≡ bytes.now)) }
    {
        self.number = self.number.saturating_add(1).min(1_000_000_000);
        if cut {
            return Err(Unread::TooLong);
        }
        Ok(Some(Text {
            bytes,
            number: self.number,
            at: 0,
        }))
    }

    // The next line, without its newline; the last one may lack it. A proved loop has to end, and
    // nothing says that a line does: the turns count up to a number that no run reaches.
    pub fn next_line<'a>(
        &mut self,
        out: &mut Out,
        room: &'a mut [u8],
    ) -> Result<Option<Text<'a>>, Unread>
        ensures { IfOk result (λ o. IfSome o (λ t. length t.bytes.now ≤ length room.old)) }
    {
        let mut size = 0;
        let mut cut = false;
        for _ in 0..u64::MAX {
            self.fill(out);
            if self.over.is_some() {
                break;
            }
            let end = self.end.min(self.block.len());
            let got = line::gather(&self.block[..end], self.from, room, size);
            size = got.size;
            cut = cut || got.cut;
            match got.next {
                Some(next) => {
                    self.from = next;
                    return self.line(&room[..size], cut);
                }
                None => self.from = self.end,
            }
        }
        if size > 0 || cut {
            return self.line(&room[..size.min(room.len())], cut);
        }
        match self.over {
            Some(Over::Failed) => Err(Unread::Failed),
            _ => Ok(None),
        }
    }
}
