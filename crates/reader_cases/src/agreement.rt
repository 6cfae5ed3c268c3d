//! On how many texts the reader and the plain slow reader answer the same.

use crate::readings::reading_of;
use crate::slow;
use crate::trouble::Trouble;
use std::alloc::Global;

// 1 where they answer the same.
fn agreed(alloc: Global, text: &[u8]) -> Result<u64, Trouble> {
    let slow = slow::read(alloc, text)?;
    Ok(u64::from(reading_of(alloc, text, 0)? == slow))
}

/// How many of these texts.
pub fn on_each(alloc: Global, texts: &[Vec<u8>]) -> Result<u64, Trouble> {
    let mut count: u64 = 0;
    for text in texts {
        count = count.saturating_add(agreed(alloc, text.as_slice())?);
    }
    Ok(count)
}

/// How many fronts of a text.
pub fn on_fronts(alloc: Global, text: &[u8]) -> Result<u64, Trouble> {
    let mut count: u64 = 0;
    for length in 0..=text.len() {
        count = count.saturating_add(agreed(alloc, &text[..length])?);
    }
    Ok(count)
}

/// How many of all rows of at most so many pieces.
pub fn on_rows(alloc: Global, most: u32, pieces: &[Vec<u8>]) -> Result<u64, Trouble> {
    let mut rows = vec![in alloc; Vec::new(alloc)]?;
    let mut count = on_each(alloc, rows.as_slice())?;
    for _ in 0..most {
        rows = longer_rows(alloc, rows.as_slice(), pieces)?;
        count = count.saturating_add(on_each(alloc, rows.as_slice())?);
    }
    Ok(count)
}

// Each row with each piece behind it.
fn longer_rows(
    alloc: Global,
    rows: &[Vec<u8>],
    pieces: &[Vec<u8>],
) -> Result<Vec<Vec<u8>>, Trouble> {
    let mut longer = Vec::new(alloc);
    for row in rows {
        put_longer(alloc, &mut longer, row.as_slice(), pieces)?;
    }
    Ok(longer)
}

fn put_longer(
    alloc: Global,
    longer: &mut Vec<Vec<u8>>,
    row: &[u8],
    pieces: &[Vec<u8>],
) -> Result<(), Trouble> {
    for piece in pieces {
        let mut next = row.to_vec(alloc)?;
        next.extend_from_slice(piece.as_slice())?;
        longer.push(next)?;
    }
    Ok(())
}
