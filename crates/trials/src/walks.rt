// A walk over every stamp of a calendar.
use crate::parted::Parted;
use calendar::{Printable, Refusal};
use std::{array, fmt};

// The start and the factor of the 64-bit FNV-1a checksum.
const FNV_BASIS: u64 = 0xcbf2_9ce4_8422_2325;

const FNV_PRIME: u64 = 0x0000_0100_0000_01b3;

// More than any text takes.
const ROOM: usize = 16;

// What a walk has seen so far.
#[derive(Clone, Copy)]
pub struct Tally {
    pub stamps: u32,
    // How many had the same place again, from their parts and from their text.
    pub by_parts: u32,
    pub by_text: u32,
    // How many had a text above that of the stamp before.
    pub rising: u32,
    // Of every text and a newline after it.
    pub checksum: u64,
}

impl fmt::Display for Tally {
    fn fmt<W: fmt::Write>(&self, f: &mut fmt::Formatter<W>) -> fmt::Result {
        let Tally {
            stamps,
            by_parts,
            by_text,
            rising,
            checksum,
        } = *self;
        writeln!(
            f,
            "  {stamps} stamps, {by_parts} came round by parts, {by_text} by text"
        )?;
        write!(
            f,
            "  {rising} texts above the one before, checksum {checksum:016x}"
        )
    }
}

impl Tally {
    fn meet<T: Parted>(&mut self, place: u32, stamp: T) {
        let text = text_of(stamp);
        let width = T::WIDTH.min(ROOM);
        let bytes = &text[..width];
        // Asked for anew, by the other way to a stamp, which is so tried at every place.
        let before = text_of(T::at_or_last(place.saturating_sub(1)));
        self.stamps = counted(self.stamps, true);
        self.by_parts = counted(self.by_parts, is_again(place, stamp.by_parts()));
        self.by_text = counted(self.by_text, is_again(place, T::read(bytes)));
        self.rising = counted(self.rising, &before[..width] < bytes);
        self.checksum = folded(folded(self.checksum, bytes), b"\n");
    }
}

fn counted(n: u32, holds: bool) -> u32 {
    n.saturating_add(u32::from(holds))
}

fn is_again<T: Parted>(place: u32, again: Result<T, Refusal>) -> bool {
    matches!(again, Ok(stamp) if stamp.place() == place)
}

fn folded(checksum: u64, bytes: &[u8]) -> u64 {
    bytes.iter().fold(checksum, |sum, b| {
        (sum ^ u64::from(*b)).wrapping_mul(FNV_PRIME)
    })
}

// The text of a stamp, byte by byte, since that call is tried here, and zeros after it.
fn text_of<T: Printable>(stamp: T) -> [u8; ROOM] {
    array::from_fn(|i| stamp.text_byte(i).unwrap_or(0))
}

// Each stamp in rising order.
pub fn walk<T: Parted>() -> Tally {
    let mut seen = Tally {
        stamps: 0,
        by_parts: 0,
        by_text: 0,
        rising: 0,
        checksum: FNV_BASIS,
    };
    for place in 0..=T::LAST_PLACE {
        if let Some(stamp) = T::at_place(place) {
            seen.meet(place, stamp);
        }
    }
    seen
}
