//! The files of scenarios.

use std::alloc::{AllocError, Global};
use wh_memory_host::MemoryHost;
use wh_scenarios::{NotMade, Step, bytes_of, changed_flat, number, parted, push_number};

/// `file NAME`, `bytes NAME TEXT` or `policy NAME CHANGES`.
pub fn add_file(alloc: Global, host: &mut MemoryHost, step: &Step<'_>) -> Result<(), NotMade> {
    let (verb, rest) = parted(step.words, ' ');
    let (name, text) = parted(rest, ' ');
    let bytes = match verb {
        "file" => Vec::from_slice(alloc, step.handed.as_bytes())?,
        "bytes" => bytes_of(alloc, text)?,
        "policy" => changed_flat(alloc, text)?.into_bytes(),
        _ => return Err(NotMade),
    };
    Ok(host.write(alloc, name, bytes)?)
}

/// `many NAME NUMBER`, `undated NAME NUMBER` or `long NAME NUMBER`.
pub fn add_large_file(
    alloc: Global,
    host: &mut MemoryHost,
    verb: &str,
    name: &str,
    word: &str,
) -> Result<(), NotMade> {
    let count = number(word)?;
    let bytes = match verb {
        "many" => products(alloc, count, "2024-01-10")?.into_bytes(),
        "undated" => products(alloc, count, "2024-13-10")?.into_bytes(),
        _ => letters(alloc, count)?,
    };
    Ok(host.write(alloc, name, bytes)?)
}

/// The header of a batch of products and records of as many members, one each, from a day.
fn products(alloc: Global, count: u64, day: &str) -> Result<String, AllocError> {
    let mut text = String::from_str(alloc, "id,day,description,brand\n")?;
    for number in 0..count {
        text.push_str("P")?;
        push_number(&mut text, number)?;
        text.push_str(",")?;
        text.push_str(day)?;
        text.push_str(",a,b\n")?;
    }
    Ok(text)
}

fn letters(alloc: Global, count: u64) -> Result<Vec<u8>, AllocError> {
    let mut found = Vec::new(alloc);
    for _ in 0..count {
        found.push(b'x')?;
    }
    Ok(found)
}
