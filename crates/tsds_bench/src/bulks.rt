//! Bulk requests of a thousand items, SIZE items in all: `bulk-path` reads the lines of bodies whose stream is the path's,
//! `bulk-named` of those that name it, and `bulk-rows` makes the rows of bodies of generated documents; `bulk-built` builds the trees
//! of replies to items that were created, and `bulk-printed` prints them too.
use crate::bulk_rows;
use anyhow::{Result, bail};
use bulk_json::{BulkLines, NextItem};
use edge_face::NoMemory;
use reply_json::{Members, Out, print};
use std::alloc::Global;

const INDEX: &str = ".ds-metrics-host-cpu-2024.01.01-000001";

const ID: &str = "dGVzdC1ob3N0LTA3LXpvbmUtMwAAAYzBq4AA";

const SOURCE: &str = "{\"@timestamp\":1704067200000,\"host\":\"h07\",\"cpu\":88}\n";

/// How many items a request has.
const TURN: usize = 1_000;

/// `{"create":{"_index":index,"_id":id,"result":"created","status":201}}`.
fn created(alloc: Global, index: &str, id: &str) -> Result<Out, NoMemory> {
    let item = Members::with_capacity(alloc, 4)?
        .with("_index", Out::word(alloc, index)?)?
        .with("_id", Out::word(alloc, id)?)?
        .with("result", Out::fixed("created"))?
        .with("status", Out::Num(201))?;
    let reply = Members::with_capacity(alloc, 1)?.with("create", item.object())?;
    Ok(reply.object())
}

/// The reply to a bulk request of so many items that were created.
fn bulk_reply(alloc: Global, number: usize) -> Result<Out, NoMemory> {
    let mut items = Vec::with_capacity(alloc, number)?;
    for _ in 0..number {
        items.push(created(alloc, INDEX, ID)?)?;
    }
    let reply = Members::with_capacity(alloc, 2)?
        .with("errors", Out::Flag(false))?
        .with("items", Out::list(items))?;
    Ok(reply.object())
}

/// What is taken of one reply: its bytes, or that it was built.
fn taken(alloc: Global, is_printed: bool, buffer: &mut Vec<u8>) -> Result<u64> {
    let reply = bulk_reply(alloc, TURN)?;
    if !is_printed {
        return Ok(1);
    }
    buffer.clear();
    print(&reply, buffer)?;
    Ok(buffer.len() as u64)
}

/// A body of so many items, each an action line and a source.
fn body(alloc: Global, action: &str, number: usize) -> Result<Vec<u8>> {
    let mut body = Vec::new(alloc);
    for _ in 0..number {
        body.extend_from_slice(action.as_bytes())?;
        body.extend_from_slice(SOURCE.as_bytes())?;
    }
    Ok(body)
}

/// The bytes of all sources of a body.
fn sources(alloc: Global, path: Option<&str>, body: &[u8]) -> Result<u64> {
    let mut sum = 0u64;
    let mut lines = BulkLines::new(path, body);
    while let Some(NextItem { item, ahead }) = lines.next(alloc)? {
        if let Some(source) = item.source {
            sum = sum.wrapping_add(source.len() as u64);
        }
        lines = ahead;
    }
    Ok(sum)
}

/// The sources of bodies that are read over and over.
fn read(alloc: Global, action: &str, path: Option<&str>, size: u64) -> Result<u64> {
    let body = body(alloc, action, TURN)?;
    let mut sum = 0u64;
    for _ in 0..size / TURN as u64 {
        sum = sum.wrapping_add(sources(alloc, path, body.as_slice())?);
    }
    Ok(sum)
}

fn replied(alloc: Global, is_printed: bool, size: u64) -> Result<u64> {
    let mut buffer = Vec::new(alloc);
    let mut sum = 0u64;
    for _ in 0..size / TURN as u64 {
        sum = sum.wrapping_add(taken(alloc, is_printed, &mut buffer)?);
    }
    Ok(sum)
}

pub fn run(alloc: Global, case: &str, size: u64) -> Result<u64> {
    match case {
        "path" => read(alloc, "{\"create\":{}}\n", Some("metrics"), size),
        "named" => read(alloc, "{\"create\":{\"_index\":\"metrics\"}}\n", None, size),
        "rows" => bulk_rows::run(alloc, size),
        "built" => replied(alloc, false, size),
        "printed" => replied(alloc, true, size),
        _ => bail!("no such case"),
    }
}
