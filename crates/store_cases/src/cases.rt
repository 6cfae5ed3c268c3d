//! The cases, and the line of each.

use crate::commands::answer;
use crate::data::{form_of, values_of, word};
use crate::lines::{joined, page_of, put_event, put_row};
use crate::scene::{BEFORE, Scene};
use crate::tables::{PRIMS, found};
use crate::trouble::Trouble;
use byte_store::{Event, World, write_event};
use ps_base::{Items, MemorySink, Names, write_all};
use ps_datum::Datum;
use ps_prims::Stage;
use ps_read::read_all;
use std::alloc::{AllocError, Global};

// Writes the events behind the one that was there before.
fn put_events(events: &[Event], page: &mut MemorySink) -> Result<(), Trouble> {
    let [BEFORE, told @ ..] = events else {
        return Ok(write_all(page, b"lost events\n")?);
    };
    for event in told {
        write_event(event, page)?;
    }
    Ok(())
}

// Writes what a command shows and answers.
fn put_command(
    alloc: Global,
    names: &Names,
    d: &Datum,
    stage: Stage,
    scene: &mut Scene,
    page: &mut MemorySink,
) -> Result<(), Trouble> {
    scene.events = Items::from_slice(alloc, &[BEFORE])?;
    let before = scene.seen(alloc)?;
    let answer = answer(alloc, names, d, stage, scene)?;
    put_events(scene.events.as_slice(), page)?;
    write_all(page, answer.as_bytes())?;
    if scene.seen(alloc)?.as_slice() == before.as_slice() {
        Ok(write_all(page, b"\n")?)
    } else {
        Ok(write_all(page, b" !\n")?)
    }
}

// The scene that some commands make, in a world of the input 200 and one grant.
fn set_up(alloc: Global, names: &Names, commands: &[Datum]) -> Result<Scene, Trouble> {
    let mut scene = Scene::new(alloc)?;
    for d in commands {
        let _answer = answer(alloc, names, d, Stage::Run, &mut scene)?;
    }
    let input = Items::from_slice(alloc, &[200])?;
    scene.world = World::new(input, Items::from_slice(alloc, &[true])?);
    Ok(scene)
}

// What commands show and answer at a stage.
fn done(
    alloc: Global,
    names: &Names,
    before: &[Datum],
    commands: &[Datum],
    stage: Stage,
) -> Result<String, Trouble> {
    let mut scene = set_up(alloc, names, before)?;
    let mut page = page_of(alloc)?;
    for d in commands {
        put_command(alloc, names, d, stage, &mut scene, &mut page)?;
    }
    Ok(joined(alloc, page.bytes())?)
}

// What commands show and answer at both stages.
fn done_at_both(
    alloc: Global,
    names: &Names,
    before: &[Datum],
    commands: &[Datum],
) -> Result<String, Trouble> {
    let compiled = done(alloc, names, before, commands, Stage::Compile)?;
    let run = done(alloc, names, before, commands, Stage::Run)?;
    if compiled.as_str() == run.as_str() {
        Ok(run)
    } else {
        Err(Trouble::Differs)
    }
}

// The row of a primitive.
fn row(alloc: Global, word: &[u8]) -> Result<String, Trouble> {
    let mut page = page_of(alloc)?;
    match found(PRIMS, word) {
        Some(p) => put_row(alloc, p, &mut page)?,
        None => write_all(&mut page, b"no primitive\n")?,
    }
    Ok(joined(alloc, page.bytes())?)
}

// The line of an event.
fn event_line(alloc: Global, names: &Names, parts: &[Datum]) -> Result<String, Trouble> {
    let mut page = page_of(alloc)?;
    if let [first, values @ ..] = parts {
        let values = values_of(alloc, names, values)?;
        put_event(word(names, first), values.as_slice(), &mut page)?;
    }
    Ok(joined(alloc, page.bytes())?)
}

// The line of a case.
fn line_of(
    alloc: Global,
    names: &Names,
    before: &[Datum],
    kind: &Datum,
    parts: &[Datum],
) -> Result<String, Trouble> {
    match (word(names, kind), parts) {
        (b"run", _) => done(alloc, names, before, parts, Stage::Run),
        (b"compile", _) => done(alloc, names, before, parts, Stage::Compile),
        (b"both", _) => done_at_both(alloc, names, before, parts),
        (b"row", [primitive]) => row(alloc, word(names, primitive)),
        (b"line", _) => event_line(alloc, names, parts),
        _ => Err(Trouble::Unread(kind.place)),
    }
}

// Adds a line.
fn add_line(
    alloc: Global,
    line: Result<String, Trouble>,
    out: &mut String,
) -> Result<(), AllocError> {
    match line {
        Ok(line) => out.push_str(line.as_str())?,
        Err(trouble) => out.push_str(format!(in alloc; "{trouble:?}")?.as_str())?,
    }
    out.push_str("\n")
}

/// The lines of all cases of a text.
pub fn lines_of(alloc: Global, text: &[u8]) -> Result<String, Trouble> {
    if text.len() > 4_194_304 {
        return Err(Trouble::NoData);
    }
    let mut names = Names::new(alloc);
    let cases = read_all(alloc, text, 0, &mut names)?;
    let mut out = String::new(alloc);
    let mut before: &[Datum] = &[];
    for d in cases.as_slice() {
        let (kind, parts) = form_of(d)?;
        if word(&names, kind) == b"scene".as_slice() {
            before = parts;
        } else {
            let line = line_of(alloc, &names, before, kind, parts);
            add_line(alloc, line, &mut out)?;
        }
    }
    Ok(out)
}
