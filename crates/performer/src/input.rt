// A file of calls from standard input, record by record. The block is filled up again when less is
// left of it than the longest record has.
use crate::record::{Fault, Reader, Record};
use std::io::Stdin;
use terminal::{Out, Over, read_into};

// More than the longest record: a run of 1,024 bytes.
const LONGEST: usize = 2048;

// Where the file is read from, where in the block the bytes stand that are not used yet, the offset
// of the first of them in the file, and why there are no more, once that is so. The block stands
// beside it: a record borrows its body from there while the window moves on.
#[derive(Clone, Copy)]
pub struct Window {
    stdin: Stdin,
    from: usize,
    end: usize,
    offset: usize,
    over: Option<Over>,
}

impl Window {
    // Before anything is read.
    pub fn new(stdin: Stdin) -> Window {
        Window {
            stdin,
            from: 0,
            end: 0,
            offset: 0,
            over: None,
        }
    }

    // The offset of the next record, or of the one at fault.
    pub fn offset(&self) -> usize {
        self.offset
    }

    // The bytes of the block that are not used yet.
    fn rest<'a>(&self, block: &'a [u8]) -> &'a [u8] {
        let end = self.end.min(block.len());
        &block[self.from.min(end)..end]
    }

    // What is left is moved to the block's start, and more is read behind it. What was said is
    // written before more is waited for.
    fn read_more(&mut self, out: &mut Out, block: &mut [u8]) {
        out.flush();
        let end = self.end.min(block.len());
        let from = self.from.min(end);
        let left = end - from;
        block.copy_within(from..end, 0);
        self.from = 0;
        self.end = left;
        match read_into(&mut self.stdin, &mut block[left..]) {
            Ok(size) => self.end = left.wrapping_add(size),
            Err(over) => self.over = Some(over),
        }
    }

    // Each reading brings a byte, or the file is over, so that LONGEST turns are enough.
    pub fn fill(&mut self, out: &mut Out, block: &mut [u8]) {
        for _ in 0..LONGEST {
            if self.over.is_some() || self.rest(block).len() >= LONGEST {
                return;
            }
            self.read_more(out, block);
        }
    }

    // The next record of the file; none is left at its end.
    pub fn next<'a>(&mut self, block: &'a [u8]) -> Result<Option<Record<'a>>, Fault> {
        let rest = self.rest(block);
        if rest.is_empty() {
            return match self.over {
                Some(Over::Failed) => Err(Fault::Unreadable),
                _ => Ok(None),
            };
        }
        let mut reader = Reader { rest };
        let record = reader.record()?;
        let size = rest.len().saturating_sub(reader.rest.len());
        self.from = self.from.wrapping_add(size);
        self.offset = self.offset.wrapping_add(size);
        Ok(Some(record))
    }
}
