// Where a policy's text is refused, for a person. The judgements are the reader's own, in its order.

use crate::entries::{each_export, entries_by, exports};
use crate::first::{first_refused, refuses};
use crate::kernel::{KERNEL_KEYS, init, kernel};
use crate::module_place::modules_place;
use crate::modules::key_measure;
use crate::refusal::PolicyRefusal;
use crate::text::{POLICY_KEYS, format, harts, key_entries, ram_pages};
use crate::values::{first_unknown, items, members, optional};
use policy_limits::{MAX_ENTRIES, MAX_EXPORTS};
use std::alloc::{AllocError, Global};
use std::str;
use toml::de::Error;
use toml::{Table, Value};

/// Where a text is refused, for a person: the line and column where it isn't TOML, and else the key, as
/// `key module[3].pages`, whose items are counted from 0. None where it isn't refused. Fails where memory runs out.
pub fn refused_place(alloc: Global, bytes: &[u8]) -> Result<Option<String>, AllocError> {
    let Ok(text) = str::from_utf8(bytes) else {
        return Ok(None);
    };
    match toml::table_from_str(alloc, text) {
        Ok(table) => table_place(alloc, &table),
        Err(error) => error_text(alloc, &error),
    }
}

// Why a text isn't TOML, in one line.
fn error_text(alloc: Global, error: &Error) -> Result<Option<String>, AllocError> {
    if error.is_memory() {
        return Err(AllocError);
    }
    let told = format!(in alloc; "{error}")?;
    Ok(Some(told.as_str().trim_end().replace(alloc, "\n", ": ")?))
}

fn table_place(alloc: Global, table: &Table) -> Result<Option<String>, AllocError> {
    let Ok(format) = format(table) else {
        return key(alloc, "format");
    };
    if let Some(unknown) = first_unknown(&POLICY_KEYS, table) {
        return key(alloc, unknown);
    }
    if harts(table).is_err() {
        return key(alloc, "harts");
    }
    let Ok(ram_pages) = ram_pages(table) else {
        return key(alloc, "ram_pages");
    };
    if refuses(&key_entries(alloc, format, ram_pages, table)) {
        return entries_place(alloc, format, ram_pages, optional(table, "entries"));
    }
    lists_place(alloc, ram_pages, table)
}

// After the entries.
fn lists_place(alloc: Global, ram_pages: u32, table: &Table) -> Result<Option<String>, AllocError> {
    let exports = match exports(alloc, optional(table, "exports")) {
        Ok(exports) => exports.len(),
        Err(PolicyRefusal::Fault(_)) => return exports_place(alloc, optional(table, "exports")),
        Err(PolicyRefusal::Memory) => return Err(AllocError),
    };
    let Ok(kernel) = kernel(table) else {
        return kernel_place(alloc, optional(table, "kernel"));
    };
    if key_measure(kernel).is_err() {
        return key(alloc, "kernel.measure");
    }
    if init(ram_pages, optional(kernel, "init")).is_err() {
        return key(alloc, "kernel.init");
    }
    modules_place(alloc, exports, optional(table, "module"))
}

fn key(alloc: Global, key: &str) -> Result<Option<String>, AllocError> {
    Ok(Some(format!(in alloc; "key {key}")?))
}

// A list, or one of its items.
pub(crate) fn list_key(
    alloc: Global,
    list: &str,
    item: Option<usize>,
) -> Result<Option<String>, AllocError> {
    match item {
        Some(i) => Ok(Some(format!(in alloc; "key {list}[{i}]")?)),
        None => key(alloc, list),
    }
}

// The items of a list that isn't too long.
fn few_items(value: Option<&Value>, most: usize) -> &[Value] {
    match value {
        Some(value) => match items(value) {
            Ok(items) => { if items.len() > most { &[] } else { items } }
            Err(_) => &[],
        },
        None => &[],
    }
}

fn entries_place(
    alloc: Global,
    format: u8,
    ram_pages: u32,
    value: Option<&Value>,
) -> Result<Option<String>, AllocError> {
    let items = few_items(value, MAX_ENTRIES);
    let item = first_refused(
        items,
        |part| refuses(&entries_by(alloc, format, ram_pages, part)),
    );
    list_key(alloc, "entries", item)
}

fn exports_place(alloc: Global, value: Option<&Value>) -> Result<Option<String>, AllocError> {
    let items = few_items(value, MAX_EXPORTS);
    let item = first_refused(items, |part| refuses(&each_export(alloc, part)));
    list_key(alloc, "exports", item)
}

// A missing table, another value, or an unknown key in it.
fn kernel_place(alloc: Global, value: Option<&Value>) -> Result<Option<String>, AllocError> {
    if let Some(value) = value
        && let Ok(table) = members(value)
        && let Some(unknown) = first_unknown(&KERNEL_KEYS, table)
    {
        return Ok(Some(format!(in alloc; "key kernel.{unknown}")?));
    }
    key(alloc, "kernel")
}
