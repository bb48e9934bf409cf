//! Requests as lines and marks.

use crate::requests::{
    Body, Group, Keys, Named, RESOURCES, Request, Specifier, Value, key_digits, kind_at,
};
use data_models::DataModel;
use reload_base::NoMemory;
use std::alloc::Global;
use worked_requests::{Mark, SEQUENCE};

/// Adds a text.
pub fn put(text: &str, out: &mut String) -> Result<(), NoMemory> {
    out.push_str(text)?;
    Ok(())
}

/// A key of a dictionary behind a sign.
fn put_name(sign: &str, name: usize, out: &mut String) -> Result<(), NoMemory> {
    put(sign, out)?;
    put(key_digits(name), out)
}

/// A key as a word: that of a single kind is `-`.
pub fn put_key(
    alloc: Global,
    model: DataModel,
    key: Option<usize>,
    out: &mut String,
) -> Result<(), NoMemory> {
    match (model, key) {
        (DataModel::Single, _) => put("-", out),
        (_, None) => put("end", out),
        (DataModel::Array, Some(index)) => put(&format!(in alloc; "{index}")?, out),
        (DataModel::Dictionary, Some(name)) => put_name("=", name, out),
    }
}

fn put_value(
    alloc: Global,
    model: DataModel,
    value: Value,
    out: &mut String,
) -> Result<(), NoMemory> {
    put(" ", out)?;
    put_key(alloc, model, value.key, out)?;
    let (time, lifetime) = (value.time, value.lifetime);
    put(&format!(in alloc; ":{time}:{lifetime}:")?, out)?;
    match value.length {
        Some(length) => put(&format!(in alloc; "#{length}")?, out),
        None => put("-", out),
    }
}

fn put_group(alloc: Global, group: &Group, out: &mut String) -> Result<(), NoMemory> {
    let (kind, generation) = (kind_at(group.kind), group.generation);
    let id = kind.id;
    put(&format!(in alloc; " kind={id}/{generation}")?, out)?;
    for value in group.values.as_slice() {
        put_value(alloc, kind.model, *value, out)?;
    }
    Ok(())
}

/// A range behind a sign.
fn put_range(
    alloc: Global,
    sign: &str,
    range: (usize, usize),
    out: &mut String,
) -> Result<(), NoMemory> {
    let (first, last) = range;
    put(sign, out)?;
    put(&format!(in alloc; "{first}-{last}")?, out)
}

fn put_ranges(alloc: Global, ranges: &[(usize, usize)], out: &mut String) -> Result<(), NoMemory> {
    let mut sign = ":";
    for range in ranges {
        put_range(alloc, sign, *range, out)?;
        sign = ",";
    }
    Ok(())
}

fn put_names(names: &[usize], out: &mut String) -> Result<(), NoMemory> {
    if names.is_empty() {
        return put(":*", out);
    }
    let mut sign = ":=";
    for name in names {
        put_name(sign, *name, out)?;
        sign = ",=";
    }
    Ok(())
}

fn put_specifier(alloc: Global, specifier: &Specifier, out: &mut String) -> Result<(), NoMemory> {
    let (id, generation) = (kind_at(specifier.kind).id, specifier.generation);
    put(&format!(in alloc; " {id}/{generation}")?, out)?;
    match &specifier.keys {
        Keys::Whole => Ok(()),
        Keys::Ranges(ranges) => put_ranges(alloc, ranges.as_slice(), out),
        Keys::Names(names) => put_names(names.as_slice(), out),
    }
}

/// The marks that are set or not.
fn put_flags(request: &Request, marks: &mut Vec<Mark>) -> Result<(), NoMemory> {
    if request.critical {
        marks.push(Mark::Critical)?;
    }
    if request.spoilt {
        marks.push(Mark::Spoilt)?;
    }
    if request.misplaced {
        marks.push(Mark::Misplaced)?;
    }
    Ok(())
}

fn sequence(named: Named) -> u16 {
    match named {
        Named::Older => SEQUENCE - 1,
        Named::Same => SEQUENCE,
        Named::Newer => SEQUENCE + 1,
    }
}

fn store_line(alloc: Global, resource: &str, groups: &[Group]) -> Result<String, NoMemory> {
    let mut line = format!(in alloc; "store {resource}")?;
    for group in groups {
        put_group(alloc, group, &mut line)?;
    }
    Ok(line)
}

fn fetch_line(alloc: Global, resource: &str, specifiers: &[Specifier]) -> Result<String, NoMemory> {
    let mut line = format!(in alloc; "fetch {resource}")?;
    for specifier in specifiers {
        put_specifier(alloc, specifier, &mut line)?;
    }
    Ok(line)
}

impl Request {
    /// Its line.
    pub fn line(&self, alloc: Global) -> Result<String, NoMemory> {
        let resource = RESOURCES
            .get(self.resource)
            .map_or("", |resource| resource.0);
        match &self.body {
            Body::Store(groups) => store_line(alloc, resource, groups.as_slice()),
            Body::Fetch { specifiers, .. } => fetch_line(alloc, resource, specifiers.as_slice()),
        }
    }

    /// Its marks.
    pub fn marks(&self, alloc: Global) -> Result<Vec<Mark>, NoMemory> {
        let mut marks = Vec::new(alloc);
        marks.push(Mark::By(self.asker))?;
        marks.push(Mark::Transaction(self.transaction))?;
        marks.push(Mark::Sequence(sequence(self.named)))?;
        put_flags(self, &mut marks)?;
        if let Body::Fetch { max, .. } = &self.body {
            marks.push(Mark::MaxResponse(*max))?;
        }
        Ok(marks)
    }
}
