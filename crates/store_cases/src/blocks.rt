//! What the fixed blocks of a store have, in words.

use crate::data::number_of;
use crate::trouble::Trouble;
use byte_store::{Contents, Store, Value};
use ps_datum::Datum;
use std::alloc::{AllocError, Global};
use std::fmt::Debug;

// Adds each of these behind a space, with `-` for what was not set.
fn add_each<T: Copy + Debug>(
    alloc: Global,
    each: &[Option<T>],
    text: &mut String,
) -> Result<(), AllocError> {
    for part in each {
        match part {
            Some(part) => text.push_str(format!(in alloc; " {part:?}")?.as_str())?,
            None => text.push_str(" -")?,
        }
    }
    Ok(())
}

// Adds what a block has.
fn add_contents(
    alloc: Global,
    contents: Contents<'_, Value>,
    text: &mut String,
) -> Result<(), AllocError> {
    match contents {
        Contents::Bytes(bytes) => {
            text.push_str("bytes")?;
            add_each(alloc, bytes, text)
        }
        Contents::Cells(cells) => {
            text.push_str("cells")?;
            add_each(alloc, cells, text)
        }
        Contents::Freed(length) => { text.push_str(format!(in alloc; "freed {length}")?.as_str()) }
    }
}

/// What the fixed block of a number has.
pub fn block_text(alloc: Global, number: &Datum, store: &Store<Value>) -> Result<String, Trouble> {
    match store.fixed_block(number_of(number)?) {
        Some(contents) => {
            let mut text = String::new(alloc);
            add_contents(alloc, contents, &mut text)?;
            Ok(text)
        }
        None => Ok(String::from_str(alloc, "none")?),
    }
}

/// What each fixed block has, in the order of the store, with a comma between two; `none`, where there is none.
pub fn blocks_text(alloc: Global, store: &Store<Value>) -> Result<String, Trouble> {
    let mut text = String::new(alloc);
    let mut between = "";
    for (number, contents) in store.fixed_blocks(alloc)?.as_slice() {
        text.push_str(format!(in alloc; "{between}{number} ")?.as_str())?;
        add_contents(alloc, *contents, &mut text)?;
        between = ", ";
    }
    if text.is_empty() {
        text.push_str("none")?;
    }
    Ok(text)
}
