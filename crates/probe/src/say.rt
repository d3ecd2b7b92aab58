// What is answered: words, items and lines of them, and how each is written.
use std::fmt;
use wire::Reason;

// A word of an answer.
#[derive(Clone, Copy, Debug, PartialEq, Eq)]
pub enum Word {
    Ok,
    None,
    Same,
    Differ,
    Unknown,
}

impl fmt::Display for Word {
    fn fmt<W: fmt::Write>(&self, f: &mut fmt::Formatter<W>) -> fmt::Result {
        f.write_str(match self {
            Word::Ok => "ok",
            Word::None => "none",
            Word::Same => "same",
            Word::Differ => "differ",
            Word::Unknown => "no such entry point",
        })
    }
}

// One item of a line.
#[derive(Clone, Copy, Debug, PartialEq, Eq)]
pub enum Item {
    Word(Word),
    // In decimal.
    Number(u64),
    // Two of them with a slash between.
    Slashed(u64, u8),
    // As two hexadecimal digits each.
    Byte(u8),
    Bytes([u8; 2]),
    // A refusal by its number: in words, and short beside other answers.
    Refused(Reason),
    Short(Reason),
}

impl From<u8> for Item {
    fn from(number: u8) -> Item {
        Item::Number(u64::from(number))
    }
}

impl From<u16> for Item {
    fn from(number: u16) -> Item {
        Item::Number(u64::from(number))
    }
}

impl From<u32> for Item {
    fn from(number: u32) -> Item {
        Item::Number(u64::from(number))
    }
}

impl From<usize> for Item {
    fn from(number: usize) -> Item {
        Item::Number(number as u64)
    }
}

// A device address, if there is one.
impl From<Option<u16>> for Item {
    fn from(address: Option<u16>) -> Item {
        address.map_or(Item::Word(Word::None), Item::from)
    }
}

impl fmt::Display for Item {
    fn fmt<W: fmt::Write>(&self, f: &mut fmt::Formatter<W>) -> fmt::Result {
        match self {
            Item::Word(word) => write!(f, "{word}"),
            Item::Number(number) => write!(f, "{number}"),
            Item::Slashed(number, other) => write!(f, "{number}/{other}"),
            Item::Byte(byte) => write!(f, "{byte:02x}"),
            Item::Bytes([first, second]) => write!(f, "{first:02x}{second:02x}"),
            Item::Refused(reason) => write!(f, "refused {}", reason.number()),
            Item::Short(reason) => write!(f, "r{}", reason.number()),
        }
    }
}

// How an answer is written that can change with c: at most seven items. Those of H are compared so.
#[derive(Clone, Copy, Debug, PartialEq, Eq)]
pub struct Line([Option<Item>; 7]);

impl<const N: usize> From<[Item; N]> for Line {
    fn from(items: [Item; N]) -> Line {
        let mut line = [None; 7];
        for (place, item) in line.iter_mut().zip(&items) {
            *place = Some(*item);
        }
        Line(line)
    }
}

impl Line {
    // The fields of a register in turn, and then what is written of it again.
    pub fn fields(fields: &[u8], again: Item) -> Line {
        let mut line = [None; 7];
        for (place, field) in line.iter_mut().zip(fields) {
            *place = Some(Item::from(*field));
        }
        if let Some(place) = line.get_mut(fields.len()) {
            *place = Some(again);
        }
        Line(line)
    }

    pub fn word(word: Word) -> Line {
        Line::from([Item::Word(word)])
    }

    pub fn refused(reason: Reason) -> Line {
        Line::from([Item::Refused(reason)])
    }
}

impl fmt::Display for Line {
    fn fmt<W: fmt::Write>(&self, f: &mut fmt::Formatter<W>) -> fmt::Result {
        for (k, item) in self.0.iter().flatten().enumerate() {
            if 0 < k {
                write!(f, " ")?;
            }
            write!(f, "{item}")?;
        }
        Ok(())
    }
}

// Numbers in decimal, a space before each.
#[derive(Clone, Copy)]
pub struct Numbers<'a>(pub &'a [u8]);

impl fmt::Display for Numbers<'_> {
    fn fmt<W: fmt::Write>(&self, f: &mut fmt::Formatter<W>) -> fmt::Result {
        for number in self.0 {
            write!(f, " {number}")?;
        }
        Ok(())
    }
}

// Bytes as two hexadecimal digits each, without gaps; `-` where there are none.
#[derive(Clone, Copy)]
pub struct Hex<'a>(pub &'a [u8]);

impl fmt::Display for Hex<'_> {
    fn fmt<W: fmt::Write>(&self, f: &mut fmt::Formatter<W>) -> fmt::Result {
        if self.0.is_empty() {
            return write!(f, "-");
        }
        for byte in self.0 {
            write!(f, "{byte:02x}")?;
        }
        Ok(())
    }
}
