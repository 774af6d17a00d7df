// Loads a list of parameters from standard input into a store, reads each back and prints what it did.
// A line is an item's number, a space and the value as text; an empty line and one that begins with # is passed over.
#![tactic(auto)]

use anyhow::Context;
use digest::{Digest, Fnv};
use std::fmt;
use store::Store;
use store::item::Item;
use store::record::Record;
use store::table::Table;
use store::value::Value;

// Bytes in hexadecimal digits.
#[derive(Clone, Copy)]
struct Hex<'a>(&'a [u8]);

impl fmt::Display for Hex<'_> {
    fn fmt<W: fmt::Write>(&self, f: &mut fmt::Formatter<W>) -> fmt::Result {
        for byte in self.0 {
            write!(f, "{byte:02x}")?;
        }
        Ok(())
    }
}

// Installs the value of one line under a version of its own.
fn load(table: &mut Table, version: u32, line: &str) -> anyhow::Result<Item> {
    let (number, text) = line
        .split_once(' ')
        .context("a line wants an item's number, a space and a value")?;
    let bytes = text.as_bytes();
    let item = Item::new(number.parse::<u8>()?).context("an item is 0 to 63")?;
    let value = Value::new(bytes).context("a value has at most 32 bytes")?;
    let digest = Fnv
        .digest(&[], bytes)
        .ok()
        .context("the value cannot be digested")?;
    table.install(
        item,
        Record {
            version,
            value,
            digest,
        },
    );
    Ok(item)
}

// Reads an item back from the store.
fn show(rt: &HostRuntime, table: &Table, item: Item) -> anyhow::Result<()> {
    let row = table.look_up(item);
    let number = item.number();
    let version = row.version;
    let length = row.value.len();
    let value = Hex(row.value.as_slice());
    let digest = Hex(&row.digest);
    println!(rt;
        "item {number:2} version {version:2} length {length:2} value {value} digest {digest}"
    )?;
    Ok(())
}

fn run(rt: &HostRuntime) -> anyhow::Result<()> {
    let mut table: Table = Table::new(());
    let mut version: u32 = 0;
    for line in rt.lines(rt.alloc()) {
        let line = line?;
        let text = line.as_str();
        if !text.is_empty() && !text.starts_with('#') {
            version = version.saturating_add(1);
            let item = load(&mut table, version, text)?;
            show(rt, &table, item)?;
        }
    }
    println!(rt; "{version} parameters loaded and read back")?;
    Ok(())
}

fn main(rt: HostRuntime) -> anyhow::Result<()> {
    run(&rt)
}
