// Says what the table file in the folder at hand holds, or why and where it is refused; and what numbers become in counts.
#![tactic(auto)]

use fault::Fault;
use file::layout::{Cell, Table};
use file::stored::{MOST_BYTES, NAME, front};
use file::tables::{Tables, read, word_at};
use std::{env, io};

mod survey;

use survey::{Extremes, entry_of, reason, refused_cell, table_of};

// One line for each table.
fn show_table(rt: &HostRuntime, tables: &Tables, table: Table) -> io::Result<()> {
    let entries = tables.entries(table);
    let Some(found) = Extremes::of(entries) else {
        return Ok(());
    };
    let rows = table.rows(tables.horizon());
    let columns = tables.row(table, rows.saturating_sub(1)).len();
    let count = entries.len();
    let least = found.least;
    let greatest = found.greatest;
    println!(rt; "{table:>5} {rows:>6} {columns:>8} {count:>8} {least:>10} {greatest:>10}")
}

fn show(rt: &HostRuntime, tables: &Tables) -> io::Result<()> {
    let stages = tables.horizon().stages();
    let weight = tables.weight();
    let len = tables.len();
    println!(rt; "{NAME}: a table file of version 1, {len} bytes")?;
    println!(rt; "horizon {stages}, weight on switching {weight}")?;
    println!(rt; "table   rows  columns  entries      least   greatest")?;
    for table in Table::ALL {
        show_table(rt, tables, table)?;
    }
    Ok(())
}

// The entry that is refused: its cell, rows and columns from 1, its value and its table's limits.
fn show_entry(rt: &HostRuntime, bytes: &[u8], at: usize, cell: Cell) -> io::Result<()> {
    let Some(value) = word_at(bytes, at) else {
        return Ok(());
    };
    let table = cell.table;
    let row = cell.row.saturating_add(1);
    let column = cell.column.saturating_add(1);
    let least = if cell.is_on_diagonal() {
        1
    } else {
        cell.table.least()
    };
    let greatest = cell.table.greatest();
    println!(rt;
        "offset {at} is table {table}, row {row}, column {column}: {value}, limits {least} to {greatest}"
    )
}

fn show_refusal(rt: &HostRuntime, bytes: &[u8], fault: Fault) -> io::Result<()> {
    let why = reason(fault);
    let len = bytes.len();
    println!(rt; "{NAME}: {fault}: {why}")?;
    println!(rt; "{len} bytes were read")?;
    match refused_cell(bytes, fault) {
        Some(cell) => show_entry(rt, bytes, fault.place, cell),
        None => Ok(()),
    }
}

fn show_file(rt: &HostRuntime) -> io::Result<()> {
    let mut buffer = [0; MOST_BYTES];
    let bytes = front(rt, &mut buffer)?;
    match read(bytes) {
        Ok(tables) => show(rt, &tables),
        Err(fault) => show_refusal(rt, bytes, fault),
    }
}

// What the quantiser makes of a number for a table.
fn show_counts(rt: &HostRuntime, table: Table, text: &str) -> io::Result<()> {
    let Some(entry) = entry_of(text) else {
        return println!(rt; "{text} for {table}: not a number");
    };
    match entry.quantise(table) {
        Ok(counts) => println!(rt; "{text} for {table}: {counts} counts"),
        Err(fault) => {
            let why = reason(fault);
            println!(rt; "{text} for {table}: {fault}: {why}")
        }
    }
}

// Shows the file, and then what becomes of each number that is given behind a table's letter.
fn main(rt: HostRuntime) -> io::Result<()> {
    show_file(&rt)?;
    let mut table = None;
    for word in env::args(&rt)?.skip(1) {
        match table_of(word.as_str()) {
            Some(named) => table = Some(named),
            None => match table {
                Some(named) => show_counts(&rt, named, word.as_str())?,
                None => {
                    let text = word.as_str();
                    println!(rt; "{text}: name a table first, one of w g u p t v")?;
                }
            },
        }
    }
    Ok(())
}
