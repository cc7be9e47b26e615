//! Texts of a table as bytes: a row can name any byte by its number, and a long text by a piece and a count.
use std::alloc::{AllocError, Global};

/// What the next byte of a text is part of.
#[derive(Clone, Copy)]
enum Part {
    Plain,
    Count,
    Piece,
}

/// The bytes made so far, and what was read since the last `\`.
#[derive(Drop)]
struct Expansion {
    /// The bytes made so far.
    bytes: Vec<u8>,
    /// What the next byte belongs to.
    part: Part,
    /// The number read since the last `\`.
    count: u32,
    /// The piece that is read between brackets.
    piece: Vec<u8>,
}

/// The bytes that a text of a table stands for: in it `\N.` is the byte N, and `\N[PIECE]` is PIECE N times.
pub fn expanded(alloc: Global, text: &str) -> Result<Vec<u8>, AllocError> {
    let mut all = Expansion {
        bytes: Vec::new(alloc),
        part: Part::Plain,
        count: 0,
        piece: Vec::new(alloc),
    };
    for byte in text.as_bytes() {
        all.take(*byte)?;
    }
    Ok(all.bytes)
}

impl Expansion {
    fn take(&mut self, byte: u8) -> Result<(), AllocError> {
        match self.part {
            Part::Plain => self.plain(byte),
            Part::Count => self.counted(byte),
            Part::Piece => self.pieced(byte),
        }
    }

    fn plain(&mut self, byte: u8) -> Result<(), AllocError> {
        if byte == b'\\' {
            self.part = Part::Count;
            self.count = 0;
        } else {
            self.bytes.push(byte)?;
        }
        Ok(())
    }

    fn counted(&mut self, byte: u8) -> Result<(), AllocError> {
        match byte {
            b'[' => {
                self.part = Part::Piece;
                self.piece.clear();
            }
            b'.' => {
                self.part = Part::Plain;
                self.bytes.push(self.count.to_le_bytes()[0])?;
            }
            digit => {
                let value = u32::from(digit.wrapping_sub(b'0'));
                self.count = self.count.wrapping_mul(10).wrapping_add(value);
            }
        }
        Ok(())
    }

    fn pieced(&mut self, byte: u8) -> Result<(), AllocError> {
        if byte == b']' {
            self.part = Part::Plain;
            for _ in 0..self.count {
                self.bytes.extend_from_slice(&self.piece)?;
            }
        } else {
            self.piece.push(byte)?;
        }
        Ok(())
    }
}
